//! What the core of a lane does.
ghost use Rattle.std.specs.Prelude.{◌≡◌, ◌+◌, ◌^◌, ◌<◌, ◌≤◌, length, Some, None, IfOk, slice_get};
ghost use Rattle.std.specs.Arc.{arc_value};
ghost use Rattle.heap_core.specs.Meaning.{AllFit};
ghost use Rattle.entity_heap.specs.Plans.{visit_of, after_pin, after_unpin, after_look};

use super::{Core, Heap};
use crate::steps;
use flow_values::NoMemory;
use heap_core::Program;
use std::sync::Arc;

impl<P: Program> Core<P> {
    pub(super) fn look(&mut self, heap: &Heap<P>) -> u32
        requires { self.old.place.table_id ≡ heap.now.board.shared.table_id }
        ensures from { self.new.place.table_id ≡ self.old.place.table_id }
        ensures pinned { self.new.pinned ≡ self.old.pinned }
        ensures version { ((visit_of self.old.place.me.0).floor ≤ result) × ((visit_of self.old.place.me.0).seen ≤ result) }
        ensures visit { visit_of self.new.place.me.0 ≡ after_look result (visit_of self.old.place.me.0) }
    {
        let version = steps::look(&heap.board.shared, &mut self.place) as u32;
        self.floor = version;
        version
    }

    pub(super) fn pin(&mut self, heap: &Heap<P>) -> u32
        requires from { self.old.place.table_id ≡ heap.now.board.shared.table_id }
        requires room { ((visit_of self.old.place.me.0).pins < 134217728) × (self.old.pinned ≡ None) }
        ensures from { self.new.place.table_id ≡ self.old.place.table_id }
        ensures pinned { (self.new.pinned ≡ Some result) × ((visit_of self.old.place.me.0).seen ≤ result) × ((visit_of self.old.place.me.0).floor ≤ result) }
        ensures visit { visit_of self.new.place.me.0 ≡ after_pin result (visit_of self.new.place.me.0).state (visit_of self.old.place.me.0) }
        ensures fit { AllFit P.fits (visit_of self.new.place.me.0).state }
        ensures sized { let l = visit_of self.new.place.me.0 in (length l.state ≡ l.entities) × (0 < l.entities) }
    {
        let version = steps::pin(&heap.board.shared, &mut self.place) as u32;
        self.pins += 1;
        self.seen = version;
        self.pinned = Some(version);
        version
    }

    pub(super) fn unpin(&mut self, heap: &Heap<P>, version: u32)
        requires from { self.old.place.table_id ≡ heap.now.board.shared.table_id }
        requires pinned { self.old.pinned ≡ Some version }
        ensures from { self.new.place.table_id ≡ self.old.place.table_id }
        ensures pinned { self.new.pinned ≡ None }
        ensures visit { visit_of self.new.place.me.0 ≡ after_unpin (visit_of self.old.place.me.0) }
    {
        steps::unpin(&heap.board.shared, &mut self.place, version as u64);
        self.pinned = None;
    }

    pub(super) fn read(&mut self, heap: &Heap<P>, version: u32, e: u32) -> Result<Arc<P>, NoMemory>
        requires from { self.old.place.table_id ≡ heap.now.board.shared.table_id }
        requires pinned { (self.old.pinned ≡ Some version) × (length (visit_of self.old.place.me.0).state ≡ (visit_of self.old.place.me.0).entities) }
        requires entity { e < length (visit_of self.old.place.me.0).state }
        ensures same { (self.new.place.table_id ≡ self.old.place.table_id) × (self.new.place.me ≡ self.old.place.me) }
        ensures fields { self.new.pinned ≡ self.old.pinned }
        ensures payload { IfOk result (λ a. slice_get (visit_of self.old.place.me.0).state e ≡ Some (arc_value a)) }
    {
        let number = self.number as u64;
        Ok(steps::read(
            &heap.board.shared,
            &mut self.place,
            number,
            heap.entities as u64,
            version as u64,
            e as u64,
        )?)
    }
}
