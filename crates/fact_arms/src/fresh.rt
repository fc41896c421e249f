//! Slots whose joins are not settled yet.
ghost use Rattle.std.specs.Prelude.{◌≡◌, ◌||◌, false, true, OnOk, IfOk};
ghost use Rattle.fact_trail.specs.declared.slot.Slot.TheVariants.{Variable, Property};
ghost use Rattle.fact_trail.specs.declared.slot.Slot.{Slot};
ghost use Rattle.fact_trail.specs.Slots.{is_slot, is_property};
ghost use Rattle.fact_arms.specs.Differences.{is_among, is_said, is_listed};
ghost use Rattle.fact_arms.specs.Gathering.{has_slot, is_fresh, is_at, is_of_class};

use crate::Difference;
use crate::gone::Gone;
use crate::slots::{add_properties, add_said_properties, add_said_variables, add_variables};
use fact_trail::{Change, Key, Slot};
use flow_values::NoMemory;
use std::alloc::Global;
use std::collections::BTreeSet;

/// Slots that may change where they are joined with the facts as they stand: some slots, and all
/// those of some classes of which something is said.
#[derive(Drop)]
pub(crate) struct Fresh {
    pub(crate) variables: BTreeSet<u32>,
    pub(crate) properties: BTreeSet<Key>,
    pub(crate) classes: Gone,
}

impl Fresh {
    // No slots.
    fn new(alloc: Global) -> Fresh {
        Fresh {
            variables: BTreeSet::new(alloc),
            properties: BTreeSet::new(alloc),
            classes: Gone::none(),
        }
    }

    // These slots.
    pub(crate) fn of(alloc: Global, slots: Vec<Slot>) -> Result<Fresh, NoMemory>
        ensures { IfOk result (λ fresh. (s : Slot) → is_listed slots.items s ≡ true → has_slot fresh s ≡ true) }
    {
        let mut slots = slots;
        let mut fresh = Fresh::new(alloc);
        while let Some(slot) = slots.pop() {
            fresh.add(slot)?;
        }
        Ok(fresh)
    }

    // A slot more.
    fn add(&mut self, slot: Slot) -> Result<(), NoMemory>
        ensures slots { OnOk result ((s : Slot) → has_slot self.new s ≡ (is_slot slot s || has_slot self.old s)) }
        ensures classes { self.new.classes ≡ self.old.classes }
    {
        match slot {
            Slot::Variable(binding) => self.add_variable(binding),
            Slot::Property(key) => self.add_property(key),
        }
    }

    // A variable more.
    #[tactic(auto, using(crate::proofs::Freshening::added_variable))]
    fn add_variable(&mut self, binding: u32) -> Result<(), NoMemory>
        ensures slots { OnOk result ((s : Slot) → has_slot self.new s ≡ (is_slot (Variable binding) s || has_slot self.old s)) }
        ensures classes { self.new.classes ≡ self.old.classes }
    {
        self.variables.insert(binding)?;
        Ok(())
    }

    // A property more.
    #[tactic(auto, using(crate::proofs::Freshening::added_property))]
    fn add_property(&mut self, key: Key) -> Result<(), NoMemory>
        ensures slots { OnOk result ((s : Slot) → has_slot self.new s ≡ (is_slot (Property key) s || has_slot self.old s)) }
        ensures classes { self.new.classes ≡ self.old.classes }
    {
        self.properties.insert(key)?;
        Ok(())
    }

    // The slots of a change more.
    pub(crate) fn stir(&mut self, change: &Change) -> Result<(), NoMemory>
        ensures slots { OnOk result ((s : Slot) → has_slot self.new s ≡ (is_at change.now s || has_slot self.old s)) }
        ensures classes { OnOk result ((s : Slot) → is_among self.new.classes s ≡ (is_of_class change.now s || is_among self.old.classes s)) }
    {
        match change {
            Change::At(slot, _) => self.add(*slot),
            Change::Variables(facts) => {
                self.classes = self.classes.with_variables(facts.is_constant());
                Ok(())
            }
            Change::Properties(_) => {
                self.classes = self.classes.with_properties();
                Ok(())
            }
        }
    }

    // Lists the variables of the classes, where a difference says something of them.
    fn list_variables(&self, difference: &Difference, slots: &mut Vec<Slot>) -> Result<(), NoMemory>
        ensures adds { OnOk result ((s : Slot) → is_property s ≡ false → is_among self.now.classes s ≡ true → is_said difference.now s ≡ true → is_listed slots.new.items s ≡ true) }
        ensures keeps { OnOk result ((s : Slot) → is_listed slots.old.items s ≡ true → is_listed slots.new.items s ≡ true) }
    {
        if self.classes.has_some_variables() {
            return add_said_variables(&difference.variables, slots);
        }
        Ok(())
    }

    // Lists the properties, where they are among the classes and a difference says something of them.
    fn list_properties(
        &self,
        difference: &Difference,
        slots: &mut Vec<Slot>,
    ) -> Result<(), NoMemory>
        ensures adds { OnOk result ((s : Slot) → is_property s ≡ true → is_among self.now.classes s ≡ true → is_said difference.now s ≡ true → is_listed slots.new.items s ≡ true) }
        ensures keeps { OnOk result ((s : Slot) → is_listed slots.old.items s ≡ true → is_listed slots.new.items s ≡ true) }
    {
        if self.classes.properties {
            return add_said_properties(&difference.properties, slots);
        }
        Ok(())
    }

    // Lists the slots, those of the classes where a difference says something of them.
    pub(crate) fn list(
        &self,
        difference: &Difference,
        slots: &mut Vec<Slot>,
    ) -> Result<(), NoMemory>
        ensures adds { OnOk result ((s : Slot) → is_fresh self.now difference.now s ≡ true → is_listed slots.new.items s ≡ true) }
        ensures keeps { OnOk result ((s : Slot) → is_listed slots.old.items s ≡ true → is_listed slots.new.items s ≡ true) }
    {
        add_variables(&self.variables, slots)?;
        add_properties(&self.properties, slots)?;
        self.list_variables(difference, slots)?;
        self.list_properties(difference, slots)?;
        Ok(())
    }
}
