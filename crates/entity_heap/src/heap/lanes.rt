//! What a lane does.
ghost use Rattle.std.specs.Prelude.{◌≡◌, ◌+◌, ◌^◌, ◌<◌, ◌≤◌, Some, None};
ghost use Rattle.entity_heap.specs.Plans.{after_pin, after_look};
ghost use Rattle.entity_heap.specs.Lanes.{visit_in, table_in, IsLaneOf};
ghost use Rattle.entity_heap.specs.Readers.{visit_read, version_read, lane_read, heap_read};

use super::{Core, Heap, Lane, Snapshot};
use heap_core::Program;

impl<P: Program> Heap<P> {
    /// The current version, which the lane has then learnt. It comes from one look at the gate.
    pub fn version(&self, lane: &mut Lane<P>) -> u32
        requires { IsLaneOf self.now lane.old }
        ensures from { IsLaneOf self.now lane.new }
        ensures looked { visit_in lane.new ≡ after_look result (visit_in lane.old) }
        ensures version { ((visit_in lane.old).seen ≤ result) × ((visit_in lane.old).floor ≤ result) }
    {
        let mut core = lane.leave();
        let version = core.look(self);
        lane.core = Some(core);
        version
    }
}

impl<P: Program> Lane<P> {
    /// The greatest version that this lane has pinned, and 0 before its first pin.
    pub fn seen(&self) -> u32
        ensures { result ≡ (visit_in self.now).seen }
    {
        match &self.core {
            Some(core) => core.seen,
            None => 0,
        }
    }

    /// How many times it has pinned a version.
    pub fn pins(&self) -> u32
        ensures { result ≡ (visit_in self.now).pins }
    {
        match &self.core {
            Some(core) => core.pins,
            None => 0,
        }
    }

    // The core leaves the lane.
    pub(super) fn leave(&mut self) -> Core<P>
        requires { (z : _) × (table_in self.old ≡ Some z) }
        ensures core { self.old.core ≡ Some result }
        ensures free { result.pinned ≡ None }
        ensures away { self.new.core ≡ None }
    {
        match self.core.take() {
            Some(core) => core,
            None => unreachable!(),
        }
    }

    /// Pins the version that is in the gate when the pin comes.
    pub fn pin<'a>(&'a mut self, heap: &'a Heap<P>) -> Snapshot<'a, P>
        requires from { IsLaneOf heap.now self.old }
        requires room { (visit_in self.old).pins < 2 ^ 27 }
        ensures from { (lane_read result ≡ self.entry.ghost_name) × (heap_read result ≡ heap.now) }
        ensures pinned { visit_read result ≡ after_pin (version_read result) (visit_read result).state (visit_in self.old) }
        ensures version { ((visit_in self.old).seen ≤ version_read result) × ((visit_in self.old).floor ≤ version_read result) }
    {
        let mut core = self.leave();
        let version = core.pin(heap);
        Snapshot {
            home: self,
            heap,
            core,
            version,
        }
    }
}

impl<'a, P: Program> Snapshot<'a, P> {
    ghost use Rattle.entity_heap.specs.Plans.{after_unpin};

    /// Ends the snapshot, whose version and state are then recorded by its lane.
    pub fn done(self)
        ensures from { IsLaneOf (heap_read self.entry) self.exit.0.now }
        ensures unpinned { visit_in self.exit.0.now ≡ after_unpin (visit_read self.entry) }
    {
        let Snapshot {
            home,
            heap,
            mut core,
            version,
        } = self;
        core.unpin(heap, version);
        home.core = Some(core);
    }
}
