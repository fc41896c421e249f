//! Many ways in one another that meet at once: what they made is gathered apart from the facts, and put
//! on their trail at the end.
ghost use Rattle.std.specs.Prelude.{◌≡◌, OnOk, IfOk};
ghost use Rattle.flow_facts.specs.Known.{joined};

use crate::facts::{Arm, Facts, Mark};
use fact_arms::{Gathered, Joins};
use flow_values::NoMemory;

impl Facts {
    ghost use Rattle.refine_flow.specs.Standing.{known, known_over, IsLast, IsAt, IsArmOf, KeepsMarks, KeepsMarksUpTo, SpendsMark};
    ghost use Rattle.refine_flow.specs.Gathered.{known_with, IsGathered};

    /// The facts as they stand, with nothing gathered behind them.
    ///
    /// # Errors
    ///
    /// `NoMemory` where memory is refused.
    pub fn gather(&self) -> Result<Gathered, NoMemory>
        ensures facts { IfOk result (λ g. known_with g self.now ≡ known self.now) }
        ensures gathered { IfOk result (λ g. IsGathered g self.now) }
    {
        Gathered::nothing(self.alloc, &self.trail)
    }

    /// Goes back to the last mark, which is spent, and joins what an arm made of the facts at it with what
    /// is gathered, the arm's types first. The facts are those at the mark then, with what is gathered
    /// behind them. It looks at what changed since the mark, at what the arm changed, and at what the arm
    /// before it changed.
    ///
    /// # Errors
    ///
    /// `NoMemory` where memory is refused. Some changes since the mark may be taken back then.
    pub fn gather_way(
        &mut self,
        gathered: Gathered,
        mark: Mark,
        arm: Arm,
        joins: Joins,
    ) -> Result<Gathered, NoMemory>
        requires mark { IsLast mark self.old }
        requires arm { IsArmOf arm self.old }
        requires gathered { IsGathered gathered self.old }
        ensures facts { IfOk result (λ g. known_with g self.new ≡ joined (known_over mark arm self.old) (known_with gathered self.old)) }
        ensures gathered { IfOk result (λ g. IsGathered g self.new) }
        ensures marks { OnOk result (SpendsMark mark self.old self.new) }
    {
        let gathered = self.gather_back(gathered, &mark)?;
        let gathered = self.gather_arm(gathered, &mark, arm, joins)?;
        self.marks = mark.depth;
        Ok(gathered)
    }

    // Goes back to a mark, and puts what changed since then before what is gathered.
    fn gather_back(&mut self, gathered: Gathered, mark: &Mark) -> Result<Gathered, NoMemory>
        requires mark { IsLast mark.now self.old }
        requires gathered { IsGathered gathered self.old }
        ensures facts { IfOk result (λ g. known_with g self.new ≡ known_with gathered self.old) }
        ensures gathered { IfOk result (λ g. IsGathered g self.new) }
        ensures at { OnOk result (IsAt mark.now self.new) }
        ensures marks { KeepsMarksUpTo mark.now self.old self.new }
    {
        let mut gathered = gathered;
        gathered.take(&mut self.trail, mark.length)?;
        Ok(gathered)
    }

    // Joins what an arm made of the facts at a mark with what is gathered.
    fn gather_arm(
        &mut self,
        gathered: Gathered,
        mark: &Mark,
        arm: Arm,
        joins: Joins,
    ) -> Result<Gathered, NoMemory>
        requires at { IsAt mark.now self.old }
        requires arm { IsArmOf arm self.old }
        requires gathered { IsGathered gathered self.old }
        ensures facts { IfOk result (λ g. known_with g self.new ≡ joined (known_over mark.now arm self.old) (known_with gathered self.old)) }
        ensures gathered { IfOk result (λ g. IsGathered g self.new) }
        ensures marks { KeepsMarks self.old self.new }
    {
        let Arm { dead, difference } = arm;
        if dead {
            return Ok(gathered);
        }
        if self.dead {
            self.dead = false;
            return Gathered::of(self.alloc, &self.trail, difference);
        }
        let mut gathered = gathered;
        gathered.meet(&self.trail, &difference, joins)?;
        Ok(gathered)
    }

    /// Goes on from what is gathered.
    ///
    /// # Errors
    ///
    /// `NoMemory` where memory is refused. Some changes may be made then.
    pub fn make_gathered(&mut self, gathered: Gathered) -> Result<(), NoMemory>
        requires { IsGathered gathered self.old }
        ensures facts { OnOk result (known self.new ≡ known_with gathered self.old) }
        ensures marks { KeepsMarks self.old self.new }
    {
        gathered.make(&mut self.trail)?;
        self.settle();
        Ok(())
    }
}
