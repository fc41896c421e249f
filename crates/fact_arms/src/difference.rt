//! What facts became since an earlier moment.
ghost use Rattle.std.specs.Prelude.{◌≡◌, ◌||◌, ◌<◌, false, None, Some, OnOk, IfOk, if◌then◌else◌};
ghost use Rattle.std.specs.Option.{option_copied, IfSome, IfNone};
ghost use Rattle.fact_trail.specs.declared.slot.Slot.TheVariants.{Variable, Property};
ghost use Rattle.fact_trail.specs.declared.slot.Slot.{Slot};
ghost use Rattle.fact_trail.specs.Slots.{Map, at_slot, is_slot};
ghost use Rattle.fact_trail.specs.Moments.{before, with_class, with_properties};

use crate::gone::Gone;
use fact_trail::{Change, ClassFacts, Fact, Key, Properties, Slot};
use flow_values::NoMemory;
use std::alloc::Global;
use std::collections::BTreeMap;

/// What facts became since an earlier moment: what some slots have, and which classes of other slots
/// have no fact.
#[derive(Drop)]
pub struct Difference {
    pub(crate) alloc: Global,
    pub(crate) gone: Gone,
    pub(crate) variables: BTreeMap<u32, Option<Fact>>,
    pub(crate) properties: BTreeMap<Key, Option<Fact>>,
}

impl Difference {
    ghost use Rattle.fact_arms.specs.Differences.{over, count_of, said_of, is_said, is_gone, with_variables, with_keys, before_last};

    // Nothing is said.
    #[tactic(auto, using(crate::proofs::Over::nothing_said))]
    pub(crate) fn new(alloc: Global, gone: Gone) -> Difference
        ensures said { (s : Slot) → said_of result s ≡ None }
        ensures gone { result.gone ≡ gone }
    {
        Difference {
            alloc,
            gone,
            variables: BTreeMap::new(alloc),
            properties: BTreeMap::new(alloc),
        }
    }

    // What is said of a slot.
    pub(crate) fn said(&self, slot: Slot) -> Option<&Option<Fact>>
        ensures { option_copied result ≡ said_of self.now slot }
    {
        match slot {
            Slot::Variable(binding) => self.variables.get(&binding),
            Slot::Property(key) => self.properties.get(&key),
        }
    }

    // Says what a slot has.
    pub(crate) fn say(&mut self, slot: Slot, fact: Option<Fact>) -> Result<(), NoMemory>
        ensures said { OnOk result ((s : Slot) → said_of self.new s ≡ (if is_slot slot s then Some fact else said_of self.old s)) }
        ensures gone { self.new.gone ≡ self.old.gone }
    {
        match slot {
            Slot::Variable(binding) => self.say_variable(binding, fact),
            Slot::Property(key) => self.say_property(key, fact),
        }
    }

    // Says what a variable has.
    #[tactic(auto, using(crate::proofs::Over::says_variable))]
    fn say_variable(&mut self, binding: u32, fact: Option<Fact>) -> Result<(), NoMemory>
        ensures said { OnOk result ((s : Slot) → said_of self.new s ≡ (if is_slot (Variable binding) s then Some fact else said_of self.old s)) }
        ensures gone { self.new.gone ≡ self.old.gone }
    {
        self.variables.insert(binding, fact)?;
        Ok(())
    }

    // Says what a property has.
    #[tactic(auto, using(crate::proofs::Over::says_property))]
    fn say_property(&mut self, key: Key, fact: Option<Fact>) -> Result<(), NoMemory>
        ensures said { OnOk result ((s : Slot) → said_of self.new s ≡ (if is_slot (Property key) s then Some fact else said_of self.old s)) }
        ensures gone { self.new.gone ≡ self.old.gone }
    {
        self.properties.insert(key, fact)?;
        Ok(())
    }

    // Takes out what is said of a slot.
    pub(crate) fn take_said(&mut self, slot: Slot) -> Option<Option<Fact>>
        ensures was { result ≡ said_of self.old slot }
        ensures said { (s : Slot) → said_of self.new s ≡ (if is_slot slot s then None else said_of self.old s) }
        ensures gone { self.new.gone ≡ self.old.gone }
    {
        match slot {
            Slot::Variable(binding) => self.take_variable(binding),
            Slot::Property(key) => self.take_property(key),
        }
    }

    // Takes out what is said of a variable.
    #[tactic(auto, using(crate::proofs::Taking::popped_variable_row))]
    fn take_variable(&mut self, binding: u32) -> Option<Option<Fact>>
        ensures was { result ≡ said_of self.old (Variable binding) }
        ensures said { (s : Slot) → said_of self.new s ≡ (if is_slot (Variable binding) s then None else said_of self.old s) }
        ensures gone { self.new.gone ≡ self.old.gone }
    {
        self.variables.remove(&binding)
    }

    // Takes out what is said of a property.
    #[tactic(auto, using(crate::proofs::Taking::taken_key_row))]
    fn take_property(&mut self, key: Key) -> Option<Option<Fact>>
        ensures was { result ≡ said_of self.old (Property key) }
        ensures said { (s : Slot) → said_of self.new s ≡ (if is_slot (Property key) s then None else said_of self.old s) }
        ensures gone { self.new.gone ≡ self.old.gone }
    {
        self.properties.remove(&key)
    }

    // Takes out what is said of one of the slots.
    #[tactic(auto, using(crate::proofs::Taking::popped_variable_row, crate::proofs::Taking::popped_key_row, crate::proofs::Taking::none_left))]
    pub(crate) fn pop(&mut self) -> Option<(Slot, Option<Fact>)>
        ensures none { IfNone result ((s : Slot) → said_of self.old s ≡ None) }
        ensures was { IfSome result (λ row. said_of self.old row.0 ≡ Some row.1) }
        ensures said { IfSome result (λ row. (s : Slot) → said_of self.new s ≡ (if is_slot row.0 s then None else said_of self.old s)) }
        ensures gone { self.new.gone ≡ self.old.gone }
        ensures fewer { IfSome result (λ row. count_of self.new < count_of self.old) }
    {
        if let Some((binding, fact)) = self.variables.pop_first() {
            return Some((Slot::Variable(binding), fact));
        }
        match self.properties.pop_first() {
            Some((key, fact)) => Some((Slot::Property(key), fact)),
            None => None,
        }
    }

    // Whether something is said of a slot.
    pub(crate) fn says(&self, slot: Slot) -> bool
        ensures { result ≡ is_said self.now slot }
    {
        self.said(slot).is_some()
    }

    // Whether it makes no difference what a slot had before.
    fn settles(&self, slot: Slot) -> bool
        ensures { result ≡ (is_said self.now slot || is_gone self.now slot) }
    {
        self.says(slot) || self.drops(slot)
    }

    // Whether a slot is of a class of which no other slot has a fact.
    pub(crate) fn drops(&self, slot: Slot) -> bool
        ensures { result ≡ is_gone self.now slot }
    {
        self.gone.has(slot)
    }

    // Puts a change of a slot before what is said.
    #[tactic(auto, using(crate::proofs::Over::added_said))]
    pub(crate) fn add(&mut self, slot: Slot, fact: Option<Fact>) -> Result<(), NoMemory>
        ensures made { OnOk result ((m : Map) → over self.new m ≡ over self.old (at_slot slot fact m)) }
        ensures gone { self.new.gone ≡ self.old.gone }
    {
        if self.settles(slot) {
            return Ok(());
        }
        self.say(slot, fact)
    }

    // Puts a change of all variables of a class before what is said.
    fn add_class(&mut self, facts: ClassFacts) -> Result<(), NoMemory>
        ensures { OnOk result ((m : Map) → over self.new m ≡ over self.old (with_class facts m)) }
    {
        let constant = facts.is_constant();
        if self.gone.has_variables(constant) {
            return Ok(());
        }
        let mut facts = facts;
        while let Some((binding, fact)) = facts.pop() {
            self.add(Slot::Variable(binding), Some(fact))?;
        }
        self.gone = self.gone.with_variables(constant);
        Ok(())
    }

    // Puts a change of all properties before what is said.
    fn add_properties(&mut self, properties: Properties) -> Result<(), NoMemory>
        ensures { OnOk result ((m : Map) → over self.new m ≡ over self.old (with_properties properties m)) }
    {
        if self.gone.properties {
            return Ok(());
        }
        let mut properties = properties;
        while let Some((key, fact)) = properties.pop() {
            self.add(Slot::Property(key), Some(fact))?;
        }
        self.gone = self.gone.with_properties();
        Ok(())
    }

    // Puts what variables have before what is said.
    fn add_variables(&mut self, rows: BTreeMap<u32, Option<Fact>>) -> Result<(), NoMemory>
        ensures made { OnOk result ((m : Map) → over self.new m ≡ over self.old (with_variables rows m)) }
        ensures gone { self.new.gone ≡ self.old.gone }
    {
        let mut rows = rows;
        while let Some((binding, fact)) = rows.pop_first() {
            self.add(Slot::Variable(binding), fact)?;
        }
        Ok(())
    }

    // Puts what properties have before what is said.
    fn add_keys(&mut self, rows: BTreeMap<Key, Option<Fact>>) -> Result<(), NoMemory>
        ensures made { OnOk result ((m : Map) → over self.new m ≡ over self.old (with_keys rows m)) }
        ensures gone { self.new.gone ≡ self.old.gone }
    {
        let mut rows = rows;
        while let Some((key, fact)) = rows.pop_first() {
            self.add(Slot::Property(key), fact)?;
        }
        Ok(())
    }

    // Puts a change before what is said.
    pub(crate) fn add_change(&mut self, change: Change) -> Result<(), NoMemory>
        ensures { OnOk result ((m : Map) → over self.new m ≡ over self.old (before change m)) }
    {
        match change {
            Change::At(slot, fact) => self.add(slot, fact),
            Change::Variables(facts) => self.add_class(facts),
            Change::Properties(properties) => self.add_properties(properties),
        }
    }

    // Puts a change, if there is one, before what is said.
    pub(crate) fn add_last(&mut self, change: Option<Change>) -> Result<(), NoMemory>
        ensures { OnOk result ((m : Map) → over self.new m ≡ over self.old (before_last change m)) }
    {
        match change {
            Some(change) => self.add_change(change),
            None => Ok(()),
        }
    }

    /// This difference behind another one: what it makes of the facts to which the other one leads.
    ///
    /// # Errors
    ///
    /// `NoMemory` where memory is refused.
    pub fn behind(self, first: Difference) -> Result<Difference, NoMemory>
        ensures { IfOk result (λ both. (m : Map) → over both m ≡ over self (over first m)) }
    {
        let mut both = self;
        let Difference {
            alloc: _,
            gone,
            variables,
            properties,
        } = first;
        both.add_variables(variables)?;
        both.add_keys(properties)?;
        both.gone = both.gone.or(gone);
        Ok(both)
    }
}
