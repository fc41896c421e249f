ghost use Rattle.std.specs.Prelude.{◌≡◌, ◌<◌, ◌^◌, ◌↔◌, IsTrue, Some, refl};
ghost use Rattle.flow_base.specs.Causes.{raised, Counts};
ghost use Rattle.stops.specs.Asked.{stop_seen, yes_answers_by};

use crate::Stop;

/// One who says yes at its question of this number, and at no other. It tells the number.
#[derive(Debug, Drop)]
pub struct StopAt {
    /// The number of the question, counted from 1; with 0 it never says yes.
    pub k: u64,
    /// The number of questions so far, up to 2^64 - 1.
    pub questions: u64,
    pub ghost bounded: { (questions < 2 ^ 64) × (yes_answers_by k questions < 2 ^ 64) },
}

impl StopAt {
    #[tactic(auto, using(crate::proofs::Asking::yes_fits))]
    /// One who was never asked, and says yes at its k-th question; with 0 it never does.
    pub fn new(k: u64) -> StopAt
        ensures k { result.k ≡ k }
        ensures questions { result.questions ≡ 0 }
    {
        StopAt { k, questions: 0 }
    }
}

impl Stop for StopAt {
    ghost seen = { λ one. stop_seen (Some one.k) one.questions (yes_answers_by one.k one.questions) };

    #[tactic(auto, using(crate::proofs::Asking::yes_fits))]
    fn stop(&mut self) -> bool
        ensures told { Some self.new.k ≡ Some self.old.k }
        ensures questions { self.new.questions ≡ raised self.old.questions }
        ensures counts { Counts (IsTrue result) (yes_answers_by self.old.k self.old.questions) (yes_answers_by self.new.k self.new.questions) }

        // It says yes at its question, and at no other.
        ensures at { IsTrue result ↔ ((self.old.questions < self.old.k) × (self.new.questions ≡ self.old.k)) }
    {
        let before = self.questions;
        self.questions = before.saturating_add(1);
        before < self.k && self.questions == self.k
    }

    ghost keeps_word = { λ _. refl };

    ghost bounded = { λ one. one.bounded };
}
