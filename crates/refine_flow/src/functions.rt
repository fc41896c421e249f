//! Functions inside: what they begin with, and the way back.
ghost use Rattle.std.specs.Prelude.{◌≡◌, ◌&&◌, ◌||◌, not, OnOk, OnErr, IfOk};
ghost use Rattle.fact_trail.specs.Slots.{is_class};
ghost use Rattle.flow_facts.specs.Known.{without, is_property, is_constant_number, entered_function};

use crate::facts::{Facts, Mark};
use fact_arms::go_back;
use flow_values::NoMemory;

// Whether constants keep no fact.
fn keeps_none(dead: bool, keeps: bool) -> bool
    ensures { result ≡ (dead || not keeps) }
{
    dead || !keeps
}

impl Facts {
    ghost use Rattle.refine_flow.specs.Standing.{known, known_at, IsLast, EntersMark, KeepsMarks, KeepsMarksUpTo, SpendsMark, Changes};

    /// Enters a function inside: its facts are those on constant variables (true) or none, and none
    /// where they were dead; they are live. It takes a few steps, whatever facts there are. Gives the
    /// mark by which `end_function` goes back.
    ///
    /// # Errors
    ///
    /// `NoMemory` where 2^64 - 1 marks are open. The facts then stay.
    pub fn begin_function(&mut self, keeps: bool) -> Result<Mark, NoMemory>
        ensures facts { OnOk result (known self.new ≡ entered_function (λ number. keeps && is_constant_number number) (known self.old)) }
        ensures mark { IfOk result (λ mark. EntersMark mark self.old self.new) }
        ensures err { OnErr result ((known self.new ≡ known self.old) × KeepsMarks self.old self.new) }
    {
        let mark = self.mark()?;
        self.forget_properties();
        self.keep_constants(keeps);
        self.dead = false;
        Ok(mark)
    }

    /// Goes back to the facts before a function, whose mark is spent. It takes back what the function
    /// changed, and copies no fact.
    ///
    /// # Errors
    ///
    /// `NoMemory` where memory is refused. Some changes may be taken back then.
    pub fn end_function(&mut self, mark: Mark) -> Result<(), NoMemory>
        requires { IsLast mark self.old }
        ensures facts { OnOk result (known self.new ≡ known_at mark self.old) }
        ensures marks { OnOk result (SpendsMark mark self.old self.new) }
        ensures err { OnErr result (KeepsMarksUpTo mark self.old self.new) }
    {
        self.return_to(&mark)?;
        self.spend(mark);
        Ok(())
    }

    // Goes back to a mark.
    fn return_to(&mut self, mark: &Mark) -> Result<(), NoMemory>
        requires { IsLast mark.now self.old }
        ensures facts { OnOk result (known self.new ≡ known_at mark.now self.old) }
        ensures marks { KeepsMarksUpTo mark.now self.old self.new }
    {
        go_back(&mut self.trail, mark.length)?;
        self.dead = mark.dead;
        Ok(())
    }

    // Drops the facts on variables, but those on constants where they are live and kept.
    fn keep_constants(&mut self, keeps: bool)
        ensures { Changes (without (λ q. not (is_property q) && (self.old.dead || not (keeps && is_constant_number q.binding)))) self.old self.new }
    {
        let all = keeps_none(self.dead, keeps);
        self.forget_class(false);
        self.forget_constants_if(all);
    }

    fn forget_constants_if(&mut self, all: bool)
        ensures { Changes (without (λ q. all && (not (is_property q) && is_constant_number q.binding))) self.old self.new }
    {
        if all {
            self.forget_class(true);
        }
    }

    // Drops the facts on the variables of a class.
    pub(crate) fn forget_class(&mut self, constant: bool)
        ensures { Changes (without (λ q. not (is_property q) && is_class constant q.binding)) self.old self.new }
    {
        self.trail.drop_variables(constant);
    }
}
