//! A snapshot is a reader.
ghost use Rattle.std.specs.Prelude.{◌≡◌, ◌<◌, length, IfOk, Some, slice_get};
ghost use Rattle.std.specs.Arc.{arc_value};

use super::{Heap, Snapshot};
use crate::board::Visit;
use flow_values::NoMemory;
use heap_core::{HeapReader, Program};
use std::sync::Arc;

impl<'a, P: Program> HeapReader<P> for Snapshot<'a, P> {
    ghost use Rattle.entity_heap.specs.Plans.{visit_of};
    ghost use Rattle.entity_heap.specs.Readers.{snapshot_fit, snapshot_numbered};

    type Part = (usize, Heap<P>, Visit<P>);

    ghost part = { λ r. (r.home.ghost_name, r.heap.now, visit_of r.core.place.me.0) };

    ghost at = { λ r. r.version };

    ghost state = { λ r. (visit_of r.core.place.me.0).state };

    ghost fit = { λ r. snapshot_fit (visit_of r.core.place.me.0) P.fits r.sized r.fits };

    ghost numbered = { λ r. snapshot_numbered (visit_of r.core.place.me.0) r.core.place.table_id r.heap.now.board.shared.table_id r.heap.now.entities r.sized.0 r.of r.core.wide r.heap.now.wide r.heap.now.small.1 };

    fn version(&self) -> u32 {
        self.version
    }

    fn root(&mut self) -> Result<Arc<P>, NoMemory> {
        self.read(0)
    }

    fn read(&mut self, e: u32) -> Result<Arc<P>, NoMemory> {
        self.core.read(self.heap, self.version, e)
    }
}
