//! Marks, and what the facts made of those at a mark.
ghost use Rattle.std.specs.Prelude.{◌≡◌, ◌+◌, false, None, OnOk, OnErr, IfOk, IfErr};
ghost use Rattle.flow_facts.specs.Known.{joined};

use crate::facts::{Arm, Facts, Mark};
use fact_arms::{Difference, Joins, go_back_or_stay, meet};
use flow_values::NoMemory;

impl Facts {
    ghost use Rattle.refine_flow.specs.Standing.{known, known_at, known_over, open_marks, IsOf, IsLast, IsAt, IsArmOf, IsUpTo, depth_of, OpensMark, KeepsMarks, KeepsMarksUpTo, SpendsMark, SpendsInner};

    /// A mark to which the facts can go back. It takes no memory.
    ///
    /// # Errors
    ///
    /// `NoMemory` where 2^64 - 1 marks are open.
    pub fn mark(&mut self) -> Result<Mark, NoMemory>
        ensures facts { known self.new ≡ known self.old }
        ensures mark { IfOk result (λ mark. OpensMark mark self.old self.new) }
        ensures err { OnErr result (KeepsMarks self.old self.new) }
    {
        let depth = self.marks;
        let Some(marks) = depth.checked_add(1) else {
            return Err(NoMemory);
        };
        self.marks = marks;
        Ok(Mark {
            depth,
            length: self.trail.len(),
            dead: self.dead,
        })
    }

    /// Spends a mark: the facts stay as they are, and do not go back to it any more.
    pub fn spend(&mut self, mark: Mark)
        requires { IsLast mark self.old }
        ensures facts { known self.new ≡ known self.old }
        ensures marks { SpendsMark mark self.old self.new }
    {
        self.marks = mark.depth;
        self.settle();
    }

    // Empties the trail where no mark is open.
    pub(crate) fn settle(&mut self)
        ensures facts { known self.new ≡ known self.old }
        ensures marks { KeepsMarks self.old self.new }
    {
        if self.marks == 0 {
            self.trail.forget();
        }
    }

    /// Goes back to a mark, and hands out what the facts made of those at it.
    ///
    /// # Errors
    ///
    /// `NoMemory` where memory is refused. Some changes may be taken back then.
    pub fn turn(&mut self, mark: &Mark) -> Result<Arm, NoMemory>
        requires { IsLast mark.now self.old }
        ensures back { OnOk result (known self.new ≡ known_at mark.now self.old) }
        ensures at { OnOk result (IsAt mark.now self.new) }
        ensures arm { IfOk result (λ arm. IsArmOf arm self.new × (known_over mark.now arm self.new ≡ known self.old)) }
        ensures marks { KeepsMarksUpTo mark.now self.old self.new }
    {
        let difference = Difference::take(self.alloc, &mut self.trail, mark.length)?;
        let dead = self.dead;
        self.dead = mark.dead;
        Ok(Arm { dead, difference })
    }

    /// Goes on from the facts at a mark to what an arm made of them.
    ///
    /// # Errors
    ///
    /// `NoMemory` where memory is refused. Some changes may be made then.
    pub fn resume(&mut self, mark: &Mark, arm: &Arm) -> Result<(), NoMemory>
        requires mark { IsOf mark.now self.old × IsAt mark.now self.old }
        requires arm { IsArmOf arm.now self.old }
        ensures facts { OnOk result (known self.new ≡ known_over mark.now arm.now self.old) }
        ensures marks { KeepsMarks self.old self.new }
    {
        arm.difference.make(&mut self.trail)?;
        self.dead = arm.dead;
        Ok(())
    }

    /// Makes an arm over the last mark one over the mark right before it, and spends the last one. The
    /// facts stay as they are.
    ///
    /// # Errors
    ///
    /// `NoMemory` where memory is refused. Some changes since the mark before may be taken back then.
    pub fn lengthen(&mut self, last: Mark, before: &Mark, arm: Arm) -> Result<Arm, NoMemory>
        requires last { IsLast last self.old }
        requires before { IsOf before.now self.old × IsUpTo before.now last × (depth_of last ≡ depth_of before.now + 1) }
        requires arm { IsArmOf arm self.old }
        ensures facts { OnOk result (known self.new ≡ known self.old) }
        ensures arm { IfOk result (λ long. IsArmOf long self.new × (known_over before.now long self.new ≡ known_over last arm self.old)) }
        ensures marks { OnOk result (SpendsInner before.now last self.old self.new) }
    {
        let between = Difference::between(self.alloc, &mut self.trail, before.length, last.length)?;
        self.marks = last.depth;
        let Arm { dead, difference } = arm;
        let difference = difference.behind(between)?;
        Ok(Arm { dead, difference })
    }

    /// Joins what an arm made of the facts at a mark with these facts, the arm's types first. It
    /// looks at what changed since the mark, and at those other facts alone whose types their own join
    /// may change; after it each place was changed once since the mark. Joins that may wait are made
    /// by the next ones that may not, back to an earlier mark, or else where a type is asked for.
    ///
    /// # Errors
    ///
    /// `NoMemory` where memory is refused. Some changes since the mark may be taken back then, and
    /// some places may be joined.
    pub fn join_arm(&mut self, mark: &Mark, arm: &Arm, joins: Joins) -> Result<(), NoMemory>
        requires mark { IsLast mark.now self.old }
        requires arm { IsArmOf arm.now self.old }
        ensures facts { OnOk result (known self.new ≡ joined (known_over mark.now arm.now self.old) (known self.old)) }
        ensures marks { KeepsMarksUpTo mark.now self.old self.new }
    {
        if arm.dead {
            return Ok(());
        }
        if self.dead {
            self.turn(mark)?;
            return self.resume(mark, arm);
        }
        let ours = self.turn(mark)?;
        self.join_arms(mark, arm, ours, joins)
    }

    // Joins what two arms made of the facts at a mark.
    fn join_arms(&mut self, mark: &Mark, arm: &Arm, ours: Arm, joins: Joins) -> Result<(), NoMemory>
        requires at { IsAt mark.now self.old }
        requires arm { IsArmOf arm.now self.old }
        requires ours { IsArmOf ours self.old }
        ensures facts { OnOk result ((arm.now.dead ≡ false) → (ours.dead ≡ false) → known self.new ≡ joined (known_over mark.now arm.now self.old) (known_over mark.now ours self.old)) }
        ensures marks { KeepsMarks self.old self.new }
    {
        let Arm {
            dead: _,
            difference,
        } = ours;
        let both = meet(self.alloc, &self.trail, &arm.difference, difference, joins)?;
        both.move_to(&mut self.trail)?;
        self.dead = false;
        Ok(())
    }

    /// Goes back to a mark, which is spent, and hands out the facts that stood before that. All facts
    /// are copied, twice; `turn` copies none.
    ///
    /// # Errors
    ///
    /// `NoMemory` where memory is refused, or a part of a type has 2^63 - 1 owners, with the mark. The
    /// facts then stay, and those at each mark.
    pub fn back(&mut self, mark: Mark) -> Result<Facts, (Mark, NoMemory)>
        requires { IsLast mark self.old }
        ensures handed { IfOk result (λ facts. (known facts ≡ known self.old) × (open_marks facts ≡ 0)) }
        ensures back { OnOk result (known self.new ≡ known_at mark self.old) }
        ensures marks { OnOk result (SpendsMark mark self.old self.new) }
        ensures err { IfErr result (λ refused. (refused.0 ≡ mark) × (known self.new ≡ known self.old) × KeepsMarksUpTo mark self.old self.new) }
    {
        let copy = match self.copy() {
            Ok(copy) => copy,
            Err(refused) => return Err((mark, refused)),
        };
        match self.return_or_stay(&mark) {
            Ok(()) => {
                self.spend(mark);
                Ok(copy)
            }
            Err(refused) => Err((mark, refused)),
        }
    }

    // Goes back to a mark, or leaves the facts.
    fn return_or_stay(&mut self, mark: &Mark) -> Result<(), NoMemory>
        requires { IsLast mark.now self.old }
        ensures facts { OnOk result (known self.new ≡ known_at mark.now self.old) }
        ensures err { OnErr result (known self.new ≡ known self.old) }
        ensures marks { KeepsMarksUpTo mark.now self.old self.new }
    {
        go_back_or_stay(&mut self.trail, mark.length)?;
        self.dead = mark.dead;
        Ok(())
    }
}
