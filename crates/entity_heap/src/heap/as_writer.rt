//! The writer with its heap is a `HeapWriter`.
ghost use Rattle.std.specs.Prelude.{◌≡◌, ℕ, ◌<◌, true, length, Some, IfOk, OnErr};
ghost use Rattle.std.specs.Arc.{arc_value};
ghost use Rattle.heap_core.specs.Meaning.{staging};

use super::{Heap, Writing};
use flow_values::NoMemory;
use heap_core::{HeapWriter, Program};
use std::sync::{Arc, Wait};

impl<'a, P: Program, R: Wait> HeapWriter<P> for Writing<'a, P, R> {
    ghost use Rattle.heap_core.specs.PlainHeaps.{meaning_of, plain_sound, plain_numbered};
    ghost use Rattle.entity_heap.specs.Plans.{plan_of};
    ghost use Rattle.entity_heap.specs.Writers.{told_writer};

    type Part = (usize, Heap<P>, u64);

    ghost part = { λ w. (w.writer.ghost_name, w.heap.now, (plan_of w.writer.now.place.me.0).made) };

    ghost meaning = { λ w. meaning_of w.writer.now.plain };

    ghost told = { λ w. Some (plan_of w.writer.now.place.me.0).history };

    ghost sound = { λ w. plain_sound w.writer.now.plain };

    ghost numbered = { λ w. plain_numbered w.writer.now.plain };

    ghost told_last = { λ w states e. let q = plan_of w.writer.now.place.me.0 in let m = meaning_of w.writer.now.plain in told_writer q.history states q.version m.version q.committed m.committed w.writer.now.told w.writer.now.gate.0 w.writer.now.states.0 e };

    fn version(&self) -> u32 {
        self.writer.version()
    }

    fn is_open(&self) -> bool {
        self.writer.is_open()
    }

    fn begin(&mut self) {
        self.writer.begin(self.rt, self.heap);
    }

    fn stage(&mut self, e: u32, payload: Arc<P>) -> Result<(), NoMemory>
        requires { ((meaning_of self.old.writer.now.plain).is_open ≡ true) × (e < length (meaning_of self.old.writer.now.plain).committed) }
        ensures ok { IfOk result (λ _. meaning_of self.new.writer.now.plain ≡ staging e (arc_value payload) (meaning_of self.old.writer.now.plain)) }
        ensures err { OnErr result (meaning_of self.new.writer.now.plain ≡ meaning_of self.old.writer.now.plain) }
        ensures told { Some (plan_of self.new.writer.now.place.me.0).history ≡ Some (plan_of self.old.writer.now.place.me.0).history }
        ensures part { let a : ℕ × Heap P × ℕ = (self.new.writer.ghost_name, self.new.heap.now, (plan_of self.new.writer.now.place.me.0).made) in a ≡ (self.old.writer.ghost_name, self.old.heap.now, (plan_of self.old.writer.now.place.me.0).made) }
    {
        self.writer.stage(self.heap, e, payload)
    }

    fn latest(&self, e: u32) -> Result<Arc<P>, NoMemory> {
        self.writer.latest(e)
    }

    fn entity_version(&self, e: u32) -> u32 {
        self.writer.entity_version(e)
    }

    fn commit(&mut self) -> u32 {
        self.writer.commit(self.heap)
    }

    fn rollback(&mut self) {
        self.writer.rollback(self.heap);
    }
}
