//! The plain heap is a writer.
ghost use Rattle.std.specs.Prelude.{◌≡◌, ◌<◌, true, length, None, IfOk, OnErr};
ghost use Rattle.std.specs.Arc.{arc_value};
ghost use Rattle.heap_core.specs.Meaning.{staging};
ghost use Rattle.heap_core.specs.PlainHeaps.{meaning_of, plain_sound, plain_numbered};
ghost use Rattle.heap_core.specs.PlainLaws.{none_some};

use super::PlainHeap;
use super::steps::{clear, latest_of, list, put, settle};
use crate::traits::{HeapWriter, Program};
use flow_values::NoMemory;
use std::sync::Arc;

impl<P: Program> HeapWriter<P> for PlainHeap<P> {
    type Part = ();

    ghost part = { λ _. tt };

    ghost meaning = { λ h. meaning_of h };

    ghost told = { λ _. None };

    ghost sound = { λ h. plain_sound h };

    ghost numbered = { λ h. plain_numbered h };

    ghost told_last = { λ h states e. none_some states e };

    fn version(&self) -> u32 {
        self.version
    }

    fn is_open(&self) -> bool {
        self.is_open
    }

    fn begin(&mut self) {
        self.is_open = true;
    }

    fn stage(&mut self, e: u32, payload: Arc<P>) -> Result<(), NoMemory>
        requires { (self.old.is_open ≡ true) × (e < length self.old.committed.items) }
        ensures ok { IfOk result (λ _. meaning_of self.new ≡ staging e (arc_value payload) (meaning_of self.old)) }
        ensures err { OnErr result (meaning_of self.new ≡ meaning_of self.old) }
    {
        let is_staged = self.pending[e as usize].is_some();
        list(&mut self.staged, e, is_staged)?;
        put(&mut self.pending, e, payload);
        Ok(())
    }

    fn latest(&self, e: u32) -> Result<Arc<P>, NoMemory> {
        latest_of(&self.pending[e as usize], &self.committed[e as usize])
    }

    fn entity_version(&self, e: u32) -> u32 {
        if self.pending[e as usize].is_some() {
            self.version + 1
        } else {
            self.versions[e as usize]
        }
    }

    fn commit(&mut self) -> u32 {
        let PlainHeap {
            version,
            is_open,
            committed,
            pending,
            versions,
            staged,
        } = self;
        let next = *version + 1;
        *version = next;
        *is_open = false;
        settle(staged, pending, committed, versions, next);
        next
    }

    fn rollback(&mut self) {
        self.is_open = false;
        clear(&mut self.staged, &mut self.pending);
    }
}
