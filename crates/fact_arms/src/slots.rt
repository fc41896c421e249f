//! Lists of slots.
ghost use Rattle.std.specs.Prelude.{◌≡◌, ℕ, true, OnOk};
ghost use Rattle.std.specs.Option.{is_some};
ghost use Rattle.std.specs.Ordering.{nat_cmp};
ghost use Rattle.std.specs.BTreeMap.{get};
ghost use Rattle.std.specs.BTreeSet.{contains};
ghost use Rattle.fact_trail.specs.declared.slot.Slot.TheVariants.{Variable, Property};
ghost use Rattle.fact_trail.specs.declared.slot.Key.{Key};
ghost use Rattle.fact_trail.specs.declared.slot.Slot.{Slot};
ghost use Rattle.fact_trail.specs.Slots.{key_cmp, is_rough_at};
ghost use Rattle.fact_trail.specs.Moments.{map_of};
ghost use Rattle.fact_arms.specs.Differences.{is_listed, is_said};

use crate::Difference;
use fact_trail::{Fact, Key, Slot, Trail};
use flow_values::NoMemory;
use std::collections::{BTreeMap, BTreeSet};

/// Adds variables of which something is said.
pub(crate) fn add_said_variables(
    rows: &BTreeMap<u32, Option<Fact>>,
    slots: &mut Vec<Slot>,
) -> Result<(), NoMemory>
    ensures adds { OnOk result ((b : ℕ) → is_some (get nat_cmp rows.now b) ≡ true → is_listed slots.new.items (Variable b) ≡ true) }
    ensures keeps { OnOk result ((s : Slot) → is_listed slots.old.items s ≡ true → is_listed slots.new.items s ≡ true) }
{
    for binding in rows.keys() {
        slots.push(Slot::Variable(*binding))?;
    }
    Ok(())
}

/// Adds properties of which something is said.
pub(crate) fn add_said_properties(
    rows: &BTreeMap<Key, Option<Fact>>,
    slots: &mut Vec<Slot>,
) -> Result<(), NoMemory>
    ensures adds { OnOk result ((k : Key) → is_some (get key_cmp rows.now k) ≡ true → is_listed slots.new.items (Property k) ≡ true) }
    ensures keeps { OnOk result ((s : Slot) → is_listed slots.old.items s ≡ true → is_listed slots.new.items s ≡ true) }
{
    for key in rows.keys() {
        slots.push(Slot::Property(*key))?;
    }
    Ok(())
}

/// Adds the variables of a set.
pub(crate) fn add_variables(set: &BTreeSet<u32>, slots: &mut Vec<Slot>) -> Result<(), NoMemory>
    ensures adds { OnOk result ((b : ℕ) → contains nat_cmp set.now b ≡ true → is_listed slots.new.items (Variable b) ≡ true) }
    ensures keeps { OnOk result ((s : Slot) → is_listed slots.old.items s ≡ true → is_listed slots.new.items s ≡ true) }
{
    for binding in set {
        slots.push(Slot::Variable(*binding))?;
    }
    Ok(())
}

/// Adds the properties of a set.
pub(crate) fn add_properties(set: &BTreeSet<Key>, slots: &mut Vec<Slot>) -> Result<(), NoMemory>
    ensures adds { OnOk result ((k : Key) → contains key_cmp set.now k ≡ true → is_listed slots.new.items (Property k) ≡ true) }
    ensures keeps { OnOk result ((s : Slot) → is_listed slots.old.items s ≡ true → is_listed slots.new.items s ≡ true) }
{
    for key in set {
        slots.push(Slot::Property(*key))?;
    }
    Ok(())
}

/// Adds the slots of which a difference says something.
pub(crate) fn add_said(difference: &Difference, slots: &mut Vec<Slot>) -> Result<(), NoMemory>
    ensures adds { OnOk result ((s : Slot) → is_said difference.now s ≡ true → is_listed slots.new.items s ≡ true) }
    ensures keeps { OnOk result ((s : Slot) → is_listed slots.old.items s ≡ true → is_listed slots.new.items s ≡ true) }
{
    add_said_variables(&difference.variables, slots)?;
    add_said_properties(&difference.properties, slots)?;
    Ok(())
}

/// Adds the slots whose facts may change where they are joined with themselves.
pub(crate) fn add_rough(trail: &Trail, slots: &mut Vec<Slot>) -> Result<(), NoMemory>
    ensures adds { OnOk result ((s : Slot) → is_rough_at (map_of trail.now s) ≡ true → is_listed slots.new.items s ≡ true) }
    ensures keeps { OnOk result ((s : Slot) → is_listed slots.old.items s ≡ true → is_listed slots.new.items s ≡ true) }
{
    add_variables(trail.variables().constants().rough(), slots)?;
    add_variables(trail.variables().changing().rough(), slots)?;
    add_properties(trail.properties().rough(), slots)?;
    Ok(())
}
