//! Facts, and what they replaced.
ghost use Rattle.std.specs.Prelude.{◌≡◌, ◌<◌, ◌≤◌, ◌+◌, ℕ, ⊤, [], ◌∷◌, ◌++◌, drop, true, false, Some, None, OnOk, OnErr, IfOk, IfErr, MatchOption, length, vec_len, vec_capacity, if◌then◌else◌};
ghost use Rattle.std.specs.Option.{option_copied, is_some};
ghost use Rattle.std.specs.BTreeMap.{btree_map_len};
ghost use Rattle.std.specs.BTreeSet.{btree_set_len, contains};
ghost use Rattle.fact_trail.specs.Rows.{facts_count};
ghost use Rattle.fact_trail.specs.Slots.{Slot, turn, turned_cmp, at_slot, is_slot, is_variable, is_property, is_named, is_other_named, is_of, without};
ghost use Rattle.fact_trail.specs.declared.slot.Slot.TheVariants.{Variable, Property};

use crate::{ClassFacts, Fact, Key, Properties, Slot, Variables};
use flow_values::NoMemory;
use std::alloc::Global;
use std::mem;

/// What there was before a change.
#[derive(Drop)]
pub enum Change {
    /// At one slot.
    At(Slot, Option<Fact>),
    /// At all variables of one class.
    Variables(ClassFacts),
    /// At all properties.
    Properties(Properties),
}

/// Facts, with what each change replaced, the last one last.
#[derive(Drop)]
pub struct Trail {
    alloc: Global,
    pub(crate) variables: Variables,
    pub(crate) properties: Properties,
    pub(crate) changes: Vec<Change>,
    // Each fact has room for the change that drops it, so that dropping takes no memory.
    ghost room: { vec_len changes + (facts_count variables + btree_map_len properties.rows) ≤ vec_capacity changes },
}

// Makes room for this many changes and more.
pub(crate) fn make_room(
    changes: &mut Vec<Change>,
    count: usize,
    more: usize,
) -> Result<(), NoMemory>
    ensures room { OnOk result (vec_len changes.new + count + more ≤ vec_capacity changes.new) }
    ensures capacity { vec_capacity changes.old ≤ vec_capacity changes.new }
    ensures items { changes.new.items ≡ changes.old.items }
{
    let Some(room) = count.checked_add(more) else {
        return Err(NoMemory);
    };
    changes.reserve(room)?;
    Ok(())
}

impl Trail {
    ghost use Rattle.fact_trail.specs.Rows.{properties_of};
    ghost use Rattle.fact_trail.specs.Room.{KeepsRoom};
    ghost use Rattle.fact_trail.specs.declared.trail.Change.TheVariants.{At, Variables as all_variables, Properties as all_properties};
    ghost use Rattle.fact_trail.specs.Moments.{map_of, before, KeepsMoments, IsNew, IsQuiet, Adds, Drops, TakesBack, IsSame};

    /// No facts and no changes. It takes no memory.
    pub fn new(alloc: Global) -> Trail
        ensures facts { (s : Slot) → map_of result s ≡ None }
        ensures changes { result.changes.items ≡ [] }
    {
        Trail {
            alloc,
            variables: Variables::new(alloc),
            properties: Properties::new(alloc),
            changes: Vec::new(alloc),
        }
    }

    /// The facts on variables.
    pub fn variables(&self) -> &Variables
        ensures { result.now ≡ self.now.variables }
    {
        &self.variables
    }

    /// The facts on properties.
    pub fn properties(&self) -> &Properties
        ensures { result.now ≡ self.now.properties }
    {
        &self.properties
    }

    /// The fact at a slot.
    pub fn get(&self, slot: Slot) -> Option<&Fact>
        ensures { option_copied result ≡ map_of self.now slot }
    {
        match slot {
            Slot::Variable(binding) => self.variables.get(binding),
            Slot::Property(key) => self.properties.get(&key),
        }
    }

    /// The number of changes.
    pub fn len(&self) -> usize
        ensures { result ≡ length self.now.changes.items }
    {
        self.changes.len()
    }

    /// The changes from a number on.
    pub fn since(&self, number: usize) -> &[Change]
        requires { number ≤ length self.now.changes.items }
        ensures { result.now ≡ drop number self.now.changes.items }
    {
        &self.changes[number..]
    }

    // The number of facts.
    pub(crate) fn rows(&self) -> usize
        ensures { result ≡ facts_count self.now.variables + btree_map_len self.now.properties.rows }
    {
        let _most = self.changes.capacity();
        self.variables.len() + self.properties.len()
    }

    // Sets a fact, and gives the one before it, without a change on the trail. Memory is refused only
    // where there was none, or for a rough one.
    pub(crate) fn set(&mut self, slot: Slot, fact: Fact) -> Result<Option<Fact>, Fact>
        requires room { vec_len self.old.changes + (facts_count self.old.variables + btree_map_len self.old.properties.rows) < vec_capacity self.old.changes }
        ensures facts { OnOk result (map_of self.new ≡ at_slot slot (Some fact) (map_of self.old)) }
        ensures was { IfOk result (λ was. was ≡ map_of self.old slot) }
        ensures err { OnErr result (map_of self.new ≡ map_of self.old) }
        ensures back { IfErr result (λ back. back ≡ fact) }
        ensures kept { OnErr result (fact.rough ≡ false → map_of self.old slot ≡ None) }
        ensures changes { self.new.changes ≡ self.old.changes }
        ensures rows { IfOk result (λ was. facts_count self.new.variables + btree_map_len self.new.properties.rows ≡ facts_count self.old.variables + btree_map_len self.old.properties.rows + (if is_some was then 0 else 1)) }
        ensures err_rows { OnErr result (facts_count self.new.variables + btree_map_len self.new.properties.rows ≡ facts_count self.old.variables + btree_map_len self.old.properties.rows) }
    {
        match slot {
            Slot::Variable(binding) => self.variables.insert(binding, fact),
            Slot::Property(key) => self.properties.insert(key, fact),
        }
    }

    // Drops a fact, and gives it, without a change on the trail.
    fn unset(&mut self, slot: Slot) -> Option<Fact>
        ensures facts { map_of self.new ≡ at_slot slot None (map_of self.old) }
        ensures was { result ≡ map_of self.old slot }
        ensures changes { self.new.changes ≡ self.old.changes }
        ensures rows { facts_count self.new.variables + btree_map_len self.new.properties.rows + (if is_some result then 1 else 0) ≡ facts_count self.old.variables + btree_map_len self.old.properties.rows }
    {
        match slot {
            Slot::Variable(binding) => self.variables.remove(binding),
            Slot::Property(key) => self.properties.remove(key),
        }
    }

    /// Sets the fact at a slot.
    ///
    /// # Errors
    ///
    /// `NoMemory` where memory is refused. The facts then stay.
    pub fn put(&mut self, slot: Slot, fact: Fact) -> Result<(), NoMemory>
        ensures facts { OnOk result (map_of self.new ≡ at_slot slot (Some fact) (map_of self.old)) }
        ensures err { OnErr result (map_of self.new ≡ map_of self.old) }
        ensures adds { Adds slot self.old self.new }
    {
        let rows = self.rows();
        make_room(&mut self.changes, rows, 2)?;
        match self.set(slot, fact) {
            Ok(before) => {
                self.changes.push_reserved(Change::At(slot, before));
                Ok(())
            }
            Err(refused) => {
                drop(refused);
                Err(NoMemory)
            }
        }
    }

    /// Drops the fact at a slot.
    pub fn remove(&mut self, slot: Slot)
        ensures drops { Drops (is_slot slot) self.old self.new }
        ensures room { KeepsRoom self.old self.new }
    {
        match slot {
            Slot::Variable(binding) => self.drop_variable(binding),
            Slot::Property(key) => self.drop_property(key),
        }
    }

    // Drops the fact on a variable.
    fn drop_variable(&mut self, binding: u32)
        ensures drops { Drops (is_slot (Variable binding)) self.old self.new }
        ensures room { KeepsRoom self.old self.new }
    {
        if let Some(fact) = self.variables.remove(binding) {
            let slot = Slot::Variable(binding);
            self.changes.push_reserved(Change::At(slot, Some(fact)));
        }
    }

    // Drops the fact on a property.
    fn drop_property(&mut self, key: Key)
        ensures drops { Drops (is_slot (Property key)) self.old self.new }
        ensures fewer { is_some (properties_of self.old.properties key) ≡ true → btree_map_len self.new.properties.rows < btree_map_len self.old.properties.rows }
        ensures turned { contains turned_cmp self.old.properties.turned (turn key) ≡ true → btree_set_len self.new.properties.turned < btree_set_len self.old.properties.turned }
        ensures room { KeepsRoom self.old self.new }
    {
        if let Some(fact) = self.properties.remove(key) {
            let slot = Slot::Property(key);
            self.changes.push_reserved(Change::At(slot, Some(fact)));
        }
    }

    /// Drops the facts on all variables of a class, those that are constant (true) or the others, as
    /// one change.
    pub fn drop_variables(&mut self, constant: bool)
        ensures { Drops (is_variable constant) self.old self.new }
    {
        let none = ClassFacts::new(self.alloc, constant);
        let facts = self.variables.replace(none);
        if facts.is_empty() {
            return;
        }
        self.changes.push_reserved(Change::Variables(facts));
    }

    /// Drops the facts on all properties, as one change.
    pub fn drop_properties(&mut self)
        ensures { Drops is_property self.old self.new }
    {
        if self.properties.is_empty() {
            return;
        }
        let properties = mem::replace(&mut self.properties, Properties::new(self.alloc));
        self.changes.push_reserved(Change::Properties(properties));
    }

    /// Drops the facts on the properties of a name. It looks at no other facts.
    pub fn drop_named(&mut self, name: usize)
        ensures { Drops (is_named name) self.old self.new }
    {
        while let Some(key) = self.properties.named(name) {
            self.drop_property(key);
        }
    }

    /// Drops the facts on the other properties of a property's name. It looks at no other facts.
    pub fn drop_other_named(&mut self, key: Key)
        ensures { Drops (is_other_named key) self.old self.new }
    {
        while let Some(other) = self.properties.other(key) {
            self.drop_property(other);
        }
    }

    /// Drops the facts on the properties of a variable. It looks at no other facts.
    pub fn drop_of(&mut self, binding: u32)
        ensures { Drops (is_of binding) self.old self.new }
    {
        while let Some(key) = self.properties.of(binding) {
            self.drop_property(key);
        }
    }

    /// The first variable with a fact from a number on.
    pub fn variable_from(&self, binding: u32) -> Option<u32>
        ensures { MatchOption result ((b : ℕ) → binding ≤ b → map_of self.now (Variable b) ≡ None)
            (λ next. (binding ≤ next) × ((b : ℕ) → binding ≤ b → b < next → map_of self.now (Variable b) ≡ None)) }
    {
        self.variables.from(binding)
    }

    /// The first variable with a fact after a number.
    pub fn variable_after(&self, binding: u32) -> Option<u32>
        ensures { MatchOption result ((b : ℕ) → binding < b → map_of self.now (Variable b) ≡ None)
            (λ next. (binding < next) × ((b : ℕ) → binding < b → b < next → map_of self.now (Variable b) ≡ None)) }
    {
        self.variables.after(binding)
    }

    /// Takes the last change back, and gives it as it is after that: with what there was before.
    ///
    /// # Errors
    ///
    /// `NoMemory` where memory is refused. The facts and the changes then stay.
    pub fn undo(&mut self) -> Result<Option<Change>, NoMemory>
        ensures after { IfOk result (λ change. MatchOption change (self.old.changes.items ≡ []) (λ change. map_of self.old ≡ before change (map_of self.new))) }
        ensures shorter { IfOk result (λ change. length self.old.changes.items ≡ length self.new.changes.items + (if is_some change then 1 else 0)) }
        ensures moments { OnOk result (KeepsMoments (length self.new.changes.items) self.old self.new) }
        ensures quiet { IfOk result (λ change. (s : Slot) → IsNew s self.old → MatchOption change ⊤ (λ change. IsQuiet s change)) }
        ensures fresh { (s : Slot) → IsNew s self.old → IsNew s self.new }
        ensures err { OnErr result (IsSame self.old self.new) }
        ensures capacity { vec_capacity self.old.changes ≤ vec_capacity self.new.changes }
    {
        match self.changes.pop() {
            Some(change) => Ok(Some(self.take_back(change)?)),
            None => Ok(None),
        }
    }

    // Takes a change back that was taken off the trail, and gives the opposite one. Where memory is
    // refused, the change is put on the trail again.
    fn take_back(&mut self, change: Change) -> Result<Change, NoMemory>
        requires room { vec_len self.old.changes + (facts_count self.old.variables + btree_map_len self.old.properties.rows) < vec_capacity self.old.changes }
        ensures back { IfOk result (λ opposite. TakesBack change opposite self.old self.new) }
        ensures err { OnErr result ((map_of self.new ≡ map_of self.old) × (self.new.changes.items ≡ self.old.changes.items ++ change ∷ [])) }
        ensures capacity { vec_capacity self.old.changes ≤ vec_capacity self.new.changes }
    {
        match change {
            Change::At(slot, fact) => self.put_back(slot, fact),
            Change::Variables(facts) => self.put_variables_back(facts),
            Change::Properties(properties) => self.put_properties_back(properties),
        }
    }

    // Gives a slot again what it had.
    fn put_back(&mut self, slot: Slot, fact: Option<Fact>) -> Result<Change, NoMemory>
        requires room { vec_len self.old.changes + (facts_count self.old.variables + btree_map_len self.old.properties.rows) < vec_capacity self.old.changes }
        ensures back { IfOk result (λ opposite. TakesBack (At slot fact) opposite self.old self.new) }
        ensures err { OnErr result ((map_of self.new ≡ map_of self.old) × (self.new.changes.items ≡ self.old.changes.items ++ At slot fact ∷ [])) }
        ensures capacity { vec_capacity self.old.changes ≤ vec_capacity self.new.changes }
    {
        let Some(fact) = fact else {
            let before = self.unset(slot);
            return Ok(Change::At(slot, before));
        };
        match self.set(slot, fact) {
            Ok(before) => Ok(Change::At(slot, before)),
            Err(fact) => {
                self.changes.push_reserved(Change::At(slot, Some(fact)));
                Err(NoMemory)
            }
        }
    }

    // Gives the variables of a class again what they had.
    #[tactic(auto, using(crate::proofs::Changes::class_taken_back))]
    fn put_variables_back(&mut self, facts: ClassFacts) -> Result<Change, NoMemory>
        requires room { vec_len self.old.changes + (facts_count self.old.variables + btree_map_len self.old.properties.rows) < vec_capacity self.old.changes }
        ensures back { IfOk result (λ opposite. TakesBack (all_variables facts) opposite self.old self.new) }
        ensures err { OnErr result ((map_of self.new ≡ map_of self.old) × (self.new.changes.items ≡ self.old.changes.items ++ all_variables facts ∷ [])) }
        ensures capacity { vec_capacity self.old.changes ≤ vec_capacity self.new.changes }
    {
        let rows = self.rows();
        if make_room(&mut self.changes, rows, facts.len()).is_err() {
            self.changes.push_reserved(Change::Variables(facts));
            return Err(NoMemory);
        }
        let before = self.variables.replace(facts);
        Ok(Change::Variables(before))
    }

    // Gives all properties again what they had.
    fn put_properties_back(&mut self, properties: Properties) -> Result<Change, NoMemory>
        requires room { vec_len self.old.changes + (facts_count self.old.variables + btree_map_len self.old.properties.rows) < vec_capacity self.old.changes }
        ensures back { IfOk result (λ opposite. TakesBack (all_properties properties) opposite self.old self.new) }
        ensures err { OnErr result ((map_of self.new ≡ map_of self.old) × (self.new.changes.items ≡ self.old.changes.items ++ all_properties properties ∷ [])) }
        ensures capacity { vec_capacity self.old.changes ≤ vec_capacity self.new.changes }
    {
        let rows = self.rows();
        if make_room(&mut self.changes, rows, properties.len()).is_err() {
            self.changes.push_reserved(Change::Properties(properties));
            return Err(NoMemory);
        }
        let before = mem::replace(&mut self.properties, properties);
        Ok(Change::Properties(before))
    }

    /// Forgets what was replaced. The facts stay.
    pub fn forget(&mut self)
        ensures facts { map_of self.new ≡ map_of self.old }
        ensures changes { self.new.changes.items ≡ [] }
    {
        self.changes.clear();
    }
}
