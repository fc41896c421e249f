//! The facts on the variables of one class.
ghost use Rattle.std.specs.Prelude.{◌≡◌, ◌<◌, ◌≤◌, ◌+◌, ◌^◌, ℕ, true, false, Some, None, MatchOption, OnOk, OnErr, IfOk, IfErr, IsTrue, ◌↔◌, if◌then◌else◌};
ghost use Rattle.std.specs.Option.{option_copied, is_some, IfSome, IfNone};
ghost use Rattle.std.specs.Ordering.{nat_cmp};
ghost use Rattle.std.specs.BTreeMap.{btree_map_len, get};
ghost use Rattle.std.specs.BTreeSet.{contains};
ghost use Rattle.fact_trail.specs.Slots.{is_number, at_number, is_class, is_rough_at};

use crate::Fact;
use crate::marks::mark;
use flow_values::NoMemory;
use std::alloc::Global;
use std::collections::{BTreeMap, BTreeSet};
use std::ops::Bound;

/// The facts on the variables of one class: those that are constant, or the others.
#[derive(Drop)]
pub struct ClassFacts {
    // Whether they are those on constants.
    constant: bool,
    rows: BTreeMap<u32, Fact>,
    // Those whose facts are rough are all here.
    rough: BTreeSet<u32>,
    ghost rough_too: { (b : ℕ) → is_rough_at (get nat_cmp rows b) ≡ true → contains nat_cmp rough b ≡ true },
    ghost own: { (b : ℕ) → is_some (get nat_cmp rows b) ≡ true → is_class constant b ≡ true },
}

impl ClassFacts {
    ghost use Rattle.fact_trail.specs.Rows.{class_facts_of};

    #[tactic(auto, using(crate::proofs::Kept::rough_none, crate::proofs::Classes::own_none))]
    pub(crate) fn new(alloc: Global, constant: bool) -> ClassFacts
        ensures facts { (b : ℕ) → class_facts_of result b ≡ None }
        ensures class { result.constant ≡ constant }
        ensures len { btree_map_len result.rows ≡ 0 }
    {
        ClassFacts {
            constant,
            rows: BTreeMap::new(alloc),
            rough: BTreeSet::new(alloc),
        }
    }

    /// The same facts.
    ///
    /// # Errors
    ///
    /// `NoMemory` where memory is refused, or a part of a type has 2^63 - 1 owners.
    #[tactic(auto)]
    pub(crate) fn copy(&self) -> Result<ClassFacts, NoMemory>
        ensures class { IfOk result (λ copy. copy.constant ≡ self.now.constant) }
        ensures facts { IfOk result (λ copy. class_facts_of copy ≡ class_facts_of self.now) }
        ensures len { IfOk result (λ copy. btree_map_len copy.rows ≡ btree_map_len self.now.rows) }
    {
        let rows = self.rows.clone()?;
        let rough = self.rough.clone()?;
        Ok(ClassFacts {
            constant: self.constant,
            rows,
            rough,
        })
    }

    /// Whether they are those on constants.
    pub fn is_constant(&self) -> bool
        ensures { result ≡ self.now.constant }
    {
        self.constant
    }

    // The number of facts.
    pub(crate) fn len(&self) -> usize
        ensures len { result ≡ btree_map_len self.now.rows }
        ensures small { result < 2 ^ 63 }
    {
        self.rows.len()
    }

    // Whether there is no fact.
    pub(crate) fn is_empty(&self) -> bool
        ensures { IsTrue result ↔ (btree_map_len self.now.rows ≡ 0) }
    {
        self.rows.is_empty()
    }

    /// The fact on a variable.
    pub(crate) fn get(&self, binding: u32) -> Option<&Fact>
        ensures { option_copied result ≡ class_facts_of self.now binding }
    {
        self.rows.get(&binding)
    }

    /// Sets a variable's fact, and gives the one before it. Where memory is refused, the fact comes
    /// back. It is only for a variable without a fact, and for a rough one.
    #[tactic(auto, using(crate::proofs::Kept::number_set, crate::proofs::Kept::number_refused, crate::proofs::Classes::own_after))]
    pub(crate) fn insert(&mut self, binding: u32, fact: Fact) -> Result<Option<Fact>, Fact>
        requires { is_class self.old.constant binding ≡ true }
        ensures class { self.new.constant ≡ self.old.constant }
        ensures facts { OnOk result (class_facts_of self.new ≡ at_number binding (Some fact) (class_facts_of self.old)) }
        ensures was { IfOk result (λ was. was ≡ class_facts_of self.old binding) }
        ensures err { OnErr result (class_facts_of self.new ≡ class_facts_of self.old) }
        ensures back { IfErr result (λ back. back ≡ fact) }
        ensures kept { OnErr result (fact.rough ≡ false → class_facts_of self.old binding ≡ None) }
        ensures len { IfOk result (λ was. btree_map_len self.new.rows ≡ btree_map_len self.old.rows + (if is_some was then 0 else 1)) }
        ensures err_len { OnErr result (btree_map_len self.new.rows ≡ btree_map_len self.old.rows) }
    {
        if mark(&mut self.rough, binding, fact.is_rough()).is_err() {
            return Err(fact);
        }
        match self.rows.insert(binding, fact) {
            Ok(before) => Ok(before),
            Err(refused) => Err(refused.value.1),
        }
    }

    /// Drops a variable's fact, and gives it.
    #[tactic(auto, using(crate::proofs::Kept::number_unset, crate::proofs::Classes::own_unset))]
    pub(crate) fn remove(&mut self, binding: u32) -> Option<Fact>
        ensures class { self.new.constant ≡ self.old.constant }
        ensures facts { class_facts_of self.new ≡ at_number binding None (class_facts_of self.old) }
        ensures was { result ≡ class_facts_of self.old binding }
        ensures len { btree_map_len self.new.rows + (if is_some result then 1 else 0) ≡ btree_map_len self.old.rows }
    {
        self.rough.remove(&binding);
        self.rows.remove(&binding)
    }

    /// Takes one of the facts out, with its variable.
    #[tactic(auto, using(crate::proofs::Kept::rough_less, crate::proofs::Kept::empty_less, crate::proofs::Classes::own_less, crate::proofs::Classes::own_row))]
    pub fn pop(&mut self) -> Option<(u32, Fact)>
        ensures none { IfNone result ((b : ℕ) → class_facts_of self.old b ≡ None) }
        ensures was { IfSome result (λ row. class_facts_of self.old row.0 ≡ Some row.1) }
        ensures class { self.new.constant ≡ self.old.constant }
        ensures own { IfSome result (λ row. is_class self.old.constant row.0 ≡ true) }
        ensures facts { IfSome result (λ row. class_facts_of self.new ≡ at_number row.0 None (class_facts_of self.old)) }
        ensures fewer { IfSome result (λ row. btree_map_len self.new.rows < btree_map_len self.old.rows) }
    {
        self.rows.pop_first()
    }

    /// The first variable with a fact from a number on.
    pub(crate) fn from(&self, binding: u32) -> Option<u32>
        ensures { MatchOption result ((b : ℕ) → binding ≤ b → class_facts_of self.now b ≡ None)
            (λ next. (binding ≤ next) × ((b : ℕ) → binding ≤ b → b < next → class_facts_of self.now b ≡ None)) }
    {
        match self
            .rows
            .range((Bound::Included(binding), Bound::Unbounded))
            .next()
        {
            Some((next, _)) => Some(*next),
            None => None,
        }
    }

    /// The first variable with a fact after a number.
    pub(crate) fn after(&self, binding: u32) -> Option<u32>
        ensures { MatchOption result ((b : ℕ) → binding < b → class_facts_of self.now b ≡ None)
            (λ next. (binding < next) × ((b : ℕ) → binding < b → b < next → class_facts_of self.now b ≡ None)) }
    {
        match self
            .rows
            .range((Bound::Excluded(binding), Bound::Unbounded))
            .next()
        {
            Some((next, _)) => Some(*next),
            None => None,
        }
    }

    /// The facts by their variables.
    pub fn rows(&self) -> &BTreeMap<u32, Fact>
        ensures { (b : ℕ) → get nat_cmp result.now b ≡ class_facts_of self.now b }
    {
        &self.rows
    }

    /// The variables whose facts may be rough.
    pub fn rough(&self) -> &BTreeSet<u32>
        ensures { (b : ℕ) → is_rough_at (class_facts_of self.now b) ≡ true → contains nat_cmp result.now b ≡ true }
    {
        &self.rough
    }
}
