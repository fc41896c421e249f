ghost use Rattle.std.specs.Prelude.{◌≡◌, List};
ghost use Rattle.entity_heap.specs.Readers.{visit_read, version_read, lane_read, heap_read};

use entity_heap::Snapshot;
use heap_core::Program;
use std::alloc::Global;

/// What was answered, and the version that it was answered from.
#[derive(Debug, Drop)]
pub struct Told<X> {
    pub version: u32,
    pub answer: X,
}

/// What may be asked of one version of a heap, and who answers it.
pub trait Asked<P: Program, A, Q, X> {
    /// What is answered from a state.
    ghost answers: { List P → Q → X → Type 0 };

    /// What an answer does to the one who gives it.
    ghost works: { Q → X → A → A → Type 0 };

    /// Answers from the version that is pinned.
    fn answer(alloc: Global, snapshot: &mut Snapshot<'_, P>, asker: &mut A, ask: &Q) -> X
        ensures answer { answers (visit_read snapshot.old).state ask.now result }
        ensures works { works ask.now result asker.old asker.new }
        ensures same { (visit_read snapshot.new ≡ visit_read snapshot.old) × (version_read snapshot.new ≡ version_read snapshot.old) }
        ensures part { (lane_read snapshot.new ≡ lane_read snapshot.old) × (heap_read snapshot.new ≡ heap_read snapshot.old) };
}
