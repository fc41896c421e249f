//! Ways that part and meet, as moves of a state.
#![tactic(auto, unfolding(crate::specs::View::around, crate::specs::View::now))]

ghost use Rattle.std.specs.Prelude.{◌≡◌, None, Some, OnOk, IfOk, reverse};
ghost use Rattle.flow_facts.specs.Known.{joined};
ghost use Rattle.refine_flow.specs.Standing.{known};
ghost use Rattle.fact_ways.specs.Ways.{Fits, AreNested, outermost, way_of, ways_of, yes_of, all_joined};

use crate::state::State;
use fact_ways::{Fork, meet, meet_all, meet_arms, meet_same, split, stand, swap, take};
use flow_values::NoMemory;
use refine_flow::Joins;

impl State {
    ghost use Rattle.check_moves.specs.View.{around, now};
    ghost use Rattle.check_moves.specs.Follows.{Follows};

    /// Two ways from here, which are the same so far: returns the arm, and goes on with the other one.
    ///
    /// # Errors
    ///
    /// `NoMemory` where memory is refused.
    #[tactic(auto, using(crate::proofs::Following::follows_facts), unfolding(crate::specs::View::around, crate::specs::View::now))]
    pub fn stand(&mut self) -> Result<Fork, NoMemory>
        ensures now { OnOk result (now self.new ≡ now self.old) }
        ensures arm { IfOk result (λ k. way_of self.new.facts k ≡ known self.old.facts) }
        ensures around { OnOk result (around self.new ≡ around self.old) }
        ensures follows { IfOk result (λ k. Follows None self.old (Some k) self.new) }
    {
        stand(&mut self.facts)
    }

    /// The two ways behind an expression, also where they are the same (`None`): goes on where it is falsy, and returns the arm, which
    /// is where it is truthy.
    ///
    /// # Errors
    ///
    /// `NoMemory` where memory is refused.
    #[tactic(auto, using(crate::proofs::Following::follows_facts), unfolding(crate::specs::View::around, crate::specs::View::now))]
    pub fn split(&mut self, fork: Option<Fork>) -> Result<Fork, NoMemory>
        requires { Fits fork self.old.facts }
        ensures now { OnOk result (now self.new ≡ now self.old) }
        ensures arm { IfOk result (λ k. way_of self.new.facts k ≡ yes_of fork self.old.facts) }
        ensures around { OnOk result (around self.new ≡ around self.old) }
        ensures follows { IfOk result (λ k. Follows fork self.old (Some k) self.new) }
    {
        split(&mut self.facts, fork)
    }

    /// Goes on with the other one of two ways.
    ///
    /// # Errors
    ///
    /// `NoMemory` where memory is refused.
    #[tactic(auto, using(crate::proofs::Following::follows_facts), unfolding(crate::specs::View::around, crate::specs::View::now))]
    pub fn turn(&mut self, fork: Fork) -> Result<Fork, NoMemory>
        requires { Fits (Some fork) self.old.facts }
        ensures now { OnOk result (now self.new ≡ record (now self.old) { facts = way_of self.old.facts fork }) }
        ensures arm { IfOk result (λ k. way_of self.new.facts k ≡ known self.old.facts) }
        ensures around { OnOk result (around self.new ≡ around self.old) }
        ensures follows { IfOk result (λ k. Follows (Some fork) self.old (Some k) self.new) }
    {
        swap(&mut self.facts, fork)
    }

    /// Goes on with the way of the arm alone.
    ///
    /// # Errors
    ///
    /// `NoMemory` where memory is refused.
    #[tactic(auto, using(crate::proofs::Following::follows_facts), unfolding(crate::specs::View::around, crate::specs::View::now))]
    pub fn take(&mut self, fork: Fork) -> Result<(), NoMemory>
        requires { Fits (Some fork) self.old.facts }
        ensures now { OnOk result (now self.new ≡ record (now self.old) { facts = way_of self.old.facts fork }) }
        ensures around { OnOk result (around self.new ≡ around self.old) }
        ensures follows { OnOk result (Follows (Some fork) self.old None self.new) }
    {
        take(&mut self.facts, fork)
    }

    /// The way of the arm meets the one that went on. `joins` says whether types of the two are joined at once, or wait for those of a
    /// loop's way around.
    ///
    /// # Errors
    ///
    /// `NoMemory` where memory is refused.
    #[tactic(auto, using(crate::proofs::Following::follows_facts), unfolding(crate::specs::View::around, crate::specs::View::now))]
    pub fn meet(&mut self, fork: Fork, joins: Joins) -> Result<(), NoMemory>
        requires { Fits (Some fork) self.old.facts }
        ensures now { OnOk result (now self.new ≡ record (now self.old) { facts = joined (way_of self.old.facts fork) (known self.old.facts) }) }
        ensures around { OnOk result (around self.new ≡ around self.old) }
        ensures follows { OnOk result (Follows (Some fork) self.old None self.new) }
    {
        meet(&mut self.facts, fork, joins)
    }

    /// The facts meet themselves, as two ways do that are the same.
    ///
    /// # Errors
    ///
    /// `NoMemory` where memory is refused.
    #[tactic(auto, using(crate::proofs::Following::follows_facts), unfolding(crate::specs::View::around, crate::specs::View::now))]
    pub fn meet_same(&mut self) -> Result<(), NoMemory>
        ensures now { OnOk result (now self.new ≡ record (now self.old) { facts = joined (known self.old.facts) (known self.old.facts) }) }
        ensures around { OnOk result (around self.new ≡ around self.old) }
        ensures follows { OnOk result (Follows None self.old None self.new) }
    {
        meet_same(&mut self.facts)
    }

    /// The two ways behind an expression meet, also where they are the same (`None`).
    ///
    /// # Errors
    ///
    /// `NoMemory` where memory is refused.
    #[tactic(auto, unfolding(crate::specs::View::around, crate::specs::View::now))]
    pub fn meet_both(&mut self, fork: Option<Fork>) -> Result<(), NoMemory>
        requires { Fits fork self.old.facts }
        ensures now { OnOk result (now self.new ≡ record (now self.old) { facts = joined (yes_of fork self.old.facts) (known self.old.facts) }) }
        ensures around { OnOk result (around self.new ≡ around self.old) }
        ensures follows { OnOk result (Follows fork self.old None self.new) }
    {
        match fork {
            Some(fork) => self.meet(fork, Joins::Made),
            None => self.meet_same(),
        }
    }

    /// The ways of `left`, the last one first, meet the one that went on. The arm `last`, which was made behind them all, stays what it
    /// is, and is returned.
    ///
    /// # Errors
    ///
    /// `NoMemory` where memory is refused.
    #[tactic(auto, using(crate::proofs::Following::follows_facts), unfolding(crate::specs::View::around, crate::specs::View::now))]
    pub fn meet_ways(&mut self, last: Fork, left: Vec<Fork>) -> Result<Fork, NoMemory>
        requires last { Fits (Some last) self.old.facts }
        requires left { AreNested (reverse left.items) (Some last) self.old.facts }
        ensures now { OnOk result (now self.new ≡ record (now self.old) { facts = all_joined (ways_of self.old.facts (reverse left.items)) (known self.old.facts) }) }
        ensures arm { IfOk result (λ k. way_of self.new.facts k ≡ way_of self.old.facts last) }
        ensures around { OnOk result (around self.new ≡ around self.old) }
        ensures follows { IfOk result (λ k. Follows (outermost (reverse left.items) (Some last)) self.old (Some k) self.new) }
    {
        meet_all(&mut self.facts, last, left)
    }

    /// The ways behind the arms of an `if`, the last one first, meet all that follows them.
    ///
    /// # Errors
    ///
    /// `NoMemory` where memory is refused.
    #[tactic(auto, using(crate::proofs::Following::follows_facts), unfolding(crate::specs::View::around, crate::specs::View::now, crate::specs::View::told))]
    pub fn meet_arms(&mut self, arms: Vec<Fork>) -> Result<(), NoMemory>
        requires { AreNested (reverse arms.items) None self.old.facts }
        ensures now { OnOk result (now self.new ≡ record (now self.old) { facts = all_joined (ways_of self.old.facts (reverse arms.items)) (known self.old.facts) }) }
        ensures around { OnOk result (around self.new ≡ around self.old) }
        ensures follows { OnOk result (Follows (outermost (reverse arms.items) None) self.old None self.new) }
    {
        meet_arms(&mut self.facts, arms)
    }
}
