//! The plain heap is read.
ghost use Rattle.std.specs.Prelude.{◌≡◌};
ghost use Rattle.heap_core.specs.Plain.{values};
ghost use Rattle.heap_core.specs.PlainLaws.{reads_fit, reads_numbered};

use super::{PlainHeap, PlainReader};
use crate::traits::{HeapReader, HeapWriter, Program};
use flow_values::NoMemory;
use std::sync::Arc;

impl<P: Program> PlainHeap<P> {
    /// A reader of the committed state.
    pub fn reader<'a>(&'a self) -> PlainReader<'a, P>
        ensures at { ⟦<PlainReader<'a, P> as HeapReader<P>>⟧.at result ≡ (⟦<PlainHeap<P> as HeapWriter<P>>⟧.meaning self.now).version }
        ensures state { ⟦<PlainReader<'a, P> as HeapReader<P>>⟧.state result ≡ (⟦<PlainHeap<P> as HeapWriter<P>>⟧.meaning self.now).committed }
    {
        PlainReader { heap: self }
    }
}

impl<'a, P: Program> HeapReader<P> for PlainReader<'a, P> {
    type Part = ();

    ghost part = { λ _. tt };

    ghost at = { λ r. r.heap.now.version };

    ghost state = { λ r. values r.heap.now.committed.items };

    ghost fit = { λ r. reads_fit P.fits r.heap.now.committed.items r.heap.now.some_entity r.heap.now.fit };

    ghost numbered = { λ r. reads_numbered r.heap.now.committed.items r.heap.now.numbered };

    fn version(&self) -> u32 {
        self.heap.version
    }

    fn root(&mut self) -> Result<Arc<P>, NoMemory> {
        self.read(0)
    }

    fn read(&mut self, e: u32) -> Result<Arc<P>, NoMemory> {
        Ok(Arc::try_clone(&self.heap.committed[e as usize])?)
    }
}
