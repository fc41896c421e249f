ghost use Rattle.std.specs.Prelude.{◌≡◌, ◌<◌, ◌^◌, IsTrue};
ghost use Rattle.flow_base.specs.Outside.{WhereTold};
ghost use Rattle.flow_base.specs.Causes.{raised, Counts};
ghost use Rattle.stops.specs.Asked.{StopSeen, yes_answers_by, SaysYesAtItsQuestion};

/// One who is asked whether a run is to stop.
pub trait Stop {
    /// How often it was asked, how often it said yes, and at which question it says yes, where it
    /// tells it.
    ghost seen: { Self → StopSeen };

    /// Whether the run is to stop here. Each call is one question.
    fn stop(&mut self) -> bool
        ensures told { (seen self.new).told ≡ (seen self.old).told }
        ensures questions { (seen self.new).questions ≡ raised (seen self.old).questions }
        ensures counts { Counts (IsTrue result) (seen self.old).yes_answers (seen self.new).yes_answers };

    /// Where it tells the one question, counted from 1, at which it says yes, it has said yes once
    /// if it was asked as often, and else never.
    ghost keeps_word: { (one : Self) → WhereTold (seen one).told (λ question. (seen one).yes_answers ≡ yes_answers_by question (seen one).questions) };

    /// The counts stay within their type.
    ghost bounded: { (one : Self) → ((seen one).questions < 2 ^ 64) × ((seen one).yes_answers < 2 ^ 64) };
}

/// One who tells its question says yes at it, and at no other.
#[tactic(auto, using(crate::proofs::Asking::says_yes_at_its_question))]
pub fn says_yes_at_its_question()
    ensures { SaysYesAtItsQuestion }
{}
