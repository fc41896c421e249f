//! The facts on variables.
ghost use Rattle.std.specs.Prelude.{◌≡◌, ◌<◌, ◌≤◌, ◌+◌, ℕ, true, false, Some, None, MatchOption, OnOk, OnErr, IfOk, IfErr, if◌then◌else◌};
ghost use Rattle.std.specs.Option.{option_copied, is_some};
ghost use Rattle.std.specs.BTreeMap.{btree_map_len};
ghost use Rattle.fact_trail.specs.Slots.{at_number, is_class, first_of};

use crate::slot::is_constant;
use crate::{ClassFacts, Fact};
use flow_values::NoMemory;
use std::alloc::Global;
use std::mem;

/// The facts on variables, those on constants apart from the others.
#[derive(Drop)]
pub struct Variables {
    constants: ClassFacts,
    changing: ClassFacts,
    ghost classes: { (constants.constant ≡ true) × (changing.constant ≡ false) },
}

// The lower one of two numbers that may be there.
fn first_of(a: Option<u32>, b: Option<u32>) -> Option<u32>
    ensures { result ≡ first_of a b }
{
    match (a, b) {
        (Some(x), Some(y)) => {
            if y < x {
                return Some(y);
            }
            Some(x)
        }
        (Some(x), None) => Some(x),
        (None, b) => b,
    }
}

impl Variables {
    ghost use Rattle.fact_trail.specs.Rows.{variables_of, class_facts_of, facts_count};

    #[tactic(auto, using(crate::proofs::Classes::none_in_both))]
    pub(crate) fn new(alloc: Global) -> Variables
        ensures facts { (b : ℕ) → variables_of result b ≡ None }
        ensures len { facts_count result ≡ 0 }
    {
        Variables {
            constants: ClassFacts::new(alloc, true),
            changing: ClassFacts::new(alloc, false),
        }
    }

    /// The same facts.
    ///
    /// # Errors
    ///
    /// `NoMemory` where memory is refused, or a part of a type has 2^63 - 1 owners.
    pub(crate) fn copy(&self) -> Result<Variables, NoMemory>
        ensures facts { IfOk result (λ copy. variables_of copy ≡ variables_of self.now) }
        ensures len { IfOk result (λ copy. facts_count copy ≡ facts_count self.now) }
    {
        let constants = self.constants.copy()?;
        let changing = self.changing.copy()?;
        Ok(Variables {
            constants,
            changing,
        })
    }

    /// The facts on constants, and those on the other variables.
    pub(crate) fn into_parts(self) -> (ClassFacts, ClassFacts)
        ensures constants { result.0 ≡ self.constants }
        ensures changing { result.1 ≡ self.changing }
    {
        let Variables {
            constants,
            changing,
        } = self;
        (constants, changing)
    }

    /// The facts on constants.
    pub fn constants(&self) -> &ClassFacts
        ensures { result.now ≡ self.now.constants }
    {
        &self.constants
    }

    /// The facts on the other variables.
    pub fn changing(&self) -> &ClassFacts
        ensures { result.now ≡ self.now.changing }
    {
        &self.changing
    }

    // The number of facts.
    pub(crate) fn len(&self) -> usize
        ensures { result ≡ facts_count self.now }
    {
        self.constants.len() + self.changing.len()
    }

    /// The fact on a variable.
    #[tactic(auto, using(crate::proofs::Classes::constant_at, crate::proofs::Classes::changing_at))]
    pub fn get(&self, binding: u32) -> Option<&Fact>
        ensures { option_copied result ≡ variables_of self.now binding }
    {
        if is_constant(binding) {
            return self.constants.get(binding);
        }
        self.changing.get(binding)
    }

    /// Sets a variable's fact, and gives the one before it. Where memory is refused, the fact comes
    /// back. It is only for a variable without a fact, and for a rough one.
    #[tactic(auto, using(crate::proofs::Classes::set_constant, crate::proofs::Classes::set_changing, crate::proofs::Classes::same_constants, crate::proofs::Classes::same_changing, crate::proofs::Classes::constant_at, crate::proofs::Classes::changing_at, crate::proofs::Classes::of_class))]
    pub(crate) fn insert(&mut self, binding: u32, fact: Fact) -> Result<Option<Fact>, Fact>
        ensures facts { OnOk result (variables_of self.new ≡ at_number binding (Some fact) (variables_of self.old)) }
        ensures was { IfOk result (λ was. was ≡ variables_of self.old binding) }
        ensures err { OnErr result (variables_of self.new ≡ variables_of self.old) }
        ensures back { IfErr result (λ back. back ≡ fact) }
        ensures kept { OnErr result (fact.rough ≡ false → variables_of self.old binding ≡ None) }
        ensures len { IfOk result (λ was. facts_count self.new ≡ facts_count self.old + (if is_some was then 0 else 1)) }
        ensures err_len { OnErr result (facts_count self.new ≡ facts_count self.old) }
    {
        if is_constant(binding) {
            return self.constants.insert(binding, fact);
        }
        self.changing.insert(binding, fact)
    }

    /// Drops a variable's fact, and gives it.
    #[tactic(auto, using(crate::proofs::Classes::constant_at, crate::proofs::Classes::changing_at))]
    pub(crate) fn remove(&mut self, binding: u32) -> Option<Fact>
        ensures facts { variables_of self.new ≡ at_number binding None (variables_of self.old) }
        ensures was { result ≡ variables_of self.old binding }
        ensures len { facts_count self.new + (if is_some result then 1 else 0) ≡ facts_count self.old }
    {
        if is_constant(binding) {
            return self.constants.remove(binding);
        }
        self.changing.remove(binding)
    }

    /// Gives the variables of a class these facts, and gives those that they had.
    #[tactic(auto, using(crate::proofs::Classes::replaced_constants, crate::proofs::Classes::replaced_changing, crate::proofs::Classes::were_constants, crate::proofs::Classes::were_changing))]
    pub(crate) fn replace(&mut self, facts: ClassFacts) -> ClassFacts
        ensures facts { (b : ℕ) → variables_of self.new b ≡ (if is_class facts.constant b then class_facts_of facts b else variables_of self.old b) }
        ensures was { (b : ℕ) → variables_of self.old b ≡ (if is_class facts.constant b then class_facts_of result b else variables_of self.old b) }
        ensures class { result.constant ≡ facts.constant }
        ensures len { facts_count self.new + btree_map_len result.rows ≡ facts_count self.old + btree_map_len facts.rows }
    {
        if facts.is_constant() {
            return mem::replace(&mut self.constants, facts);
        }
        mem::replace(&mut self.changing, facts)
    }

    /// The first variable with a fact from a number on.
    #[tactic(auto, using(crate::proofs::Classes::first_from))]
    pub(crate) fn from(&self, binding: u32) -> Option<u32>
        ensures { MatchOption result ((b : ℕ) → binding ≤ b → variables_of self.now b ≡ None)
            (λ next. (binding ≤ next) × ((b : ℕ) → binding ≤ b → b < next → variables_of self.now b ≡ None)) }
    {
        first_of(self.constants.from(binding), self.changing.from(binding))
    }

    /// The first variable with a fact after a number.
    #[tactic(auto, using(crate::proofs::Classes::first_after))]
    pub(crate) fn after(&self, binding: u32) -> Option<u32>
        ensures { MatchOption result ((b : ℕ) → binding < b → variables_of self.now b ≡ None)
            (λ next. (binding < next) × ((b : ℕ) → binding < b → b < next → variables_of self.now b ≡ None)) }
    {
        first_of(self.constants.after(binding), self.changing.after(binding))
    }
}
