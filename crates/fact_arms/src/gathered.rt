//! What ways made of facts that meet in one another, gathered before it is put on the trail.
ghost use Rattle.std.specs.Prelude.{◌≡◌, ◌||◌, ◌&&◌, ◌<◌, ◌≤◌, ◌+◌, not, true, false, None, length, OnOk, IfOk, if◌then◌else◌};
ghost use Rattle.fact_trail.specs.declared.slot.Slot.{Slot};
ghost use Rattle.fact_trail.specs.Slots.{Map, is_slot, is_property};
ghost use Rattle.fact_trail.specs.Moments.{map_of, map_at, before, IsNew};
ghost use Rattle.fact_arms.specs.Differences.{over, type_of, said_of, is_said, is_gone, is_listed, SameTypes, Leaves, Goes, GoesBack, TakesLast};
ghost use Rattle.fact_arms.specs.Joining.{joined_type};
ghost use Rattle.fact_arms.specs.Gathering.{is_fresh, stays_said, Settled, AreJoined};

use crate::Difference;
use crate::fresh::Fresh;
use crate::gone::Gone;
use crate::joining::{Joins, join_at};
use crate::slots::{add_rough, add_said};
use fact_trail::{Change, Fact, Slot, Trail};
use flow_values::NoMemory;
use std::alloc::Global;
use std::mem;

/// What ways made of the facts of a trail where they met, kept apart from it. Joining it with the facts
/// as they stand changes its fresh slots alone, so that one way more is joined by looking at those and
/// at what that way changed.
#[derive(Drop)]
pub struct Gathered {
    pub(crate) difference: Difference,
    pub(crate) fresh: Fresh,
}

impl Difference {
    // Whether what is said of a slot stays where this is joined.
    fn lets_stay(&self, slot: Slot) -> bool
        ensures { result ≡ stays_said self.now slot }
    {
        self.says(slot) || !self.drops(slot)
    }

    // Says what a slot has, which is not said so far, unless it has nothing as others of its class.
    fn say_anew(&mut self, slot: Slot, fact: Option<Fact>) -> Result<(), NoMemory>
        requires { said_of self.old slot ≡ None }
        ensures here { OnOk result ((m : Map) → over self.new m slot ≡ fact) }
        ensures settles { OnOk result ((is_said self.new slot || is_gone self.new slot) ≡ true) }
        ensures others { OnOk result ((s : Slot) → is_slot slot s ≡ false → said_of self.new s ≡ said_of self.old s) }
        ensures gone { self.new.gone ≡ self.old.gone }
    {
        match fact {
            Some(fact) => self.say(slot, Some(fact)),
            None => self.say_none(slot),
        }
    }

    // The same where it has nothing.
    fn say_none(&mut self, slot: Slot) -> Result<(), NoMemory>
        requires { said_of self.old slot ≡ None }
        ensures here { OnOk result ((m : Map) → over self.new m slot ≡ None) }
        ensures settles { OnOk result ((is_said self.new slot || is_gone self.new slot) ≡ true) }
        ensures others { OnOk result ((s : Slot) → is_slot slot s ≡ false → said_of self.new s ≡ said_of self.old s) }
        ensures gone { self.new.gone ≡ self.old.gone }
    {
        if self.drops(slot) {
            return Ok(());
        }
        self.say(slot, None)
    }

    // Joins what an arm makes of a slot with what this makes of it.
    fn join_slot(
        &mut self,
        trail: &Trail,
        slot: Slot,
        arm: &Difference,
        joins: Joins,
    ) -> Result<(), NoMemory>
        ensures here { OnOk result (type_of (over self.new (map_of trail.now) slot) ≡ joined_type arm.now self.old (map_of trail.now) slot) }
        ensures settles { OnOk result ((is_said self.new slot || is_gone self.new slot) ≡ true) }
        ensures others { OnOk result ((s : Slot) → is_slot slot s ≡ false → said_of self.new s ≡ said_of self.old s) }
        ensures gone { self.new.gone ≡ self.old.gone }
    {
        let fact = join_at(self.alloc, trail, slot, arm, self, joins)?;
        self.say_anew(slot, fact)
    }

    // Joins what an arm makes of slots with what this makes of them.
    fn join_slots(
        &mut self,
        trail: &Trail,
        slots: Vec<Slot>,
        arm: &Difference,
        joins: Joins,
    ) -> Result<(), NoMemory>
        ensures { OnOk result (AreJoined arm.now self.old (map_of trail.now) slots.items self.new) }
    {
        let mut slots = slots;
        while let Some(slot) = slots.pop() {
            self.join_slot(trail, slot, arm, joins)?;
        }
        Ok(())
    }

    // Says what another one said of those slots that stay where an arm is joined.
    fn say_again(&mut self, rest: Difference, arm: &Difference) -> Result<(), NoMemory>
        ensures said { OnOk result ((s : Slot) → said_of self.new s ≡ (if is_said rest s && stays_said arm.now s then said_of rest s else said_of self.old s)) }
        ensures gone { self.new.gone ≡ self.old.gone }
    {
        let mut rest = rest;
        while let Some((slot, fact)) = rest.pop() {
            if !arm.lets_stay(slot) {
                continue;
            }
            self.say(slot, fact)?;
        }
        Ok(())
    }

    // Drops what is said of properties, unless it stays where an arm is joined.
    fn drop_properties(&mut self, arm: &Difference) -> Result<(), NoMemory>
        ensures said { OnOk result ((s : Slot) → said_of self.new s ≡ (if is_property s && not (stays_said arm.now s) then None else said_of self.old s)) }
        ensures gone { self.new.gone ≡ self.old.gone }
    {
        if !arm.gone.properties {
            return Ok(());
        }
        let mut rest = Difference::new(self.alloc, Gone::none());
        mem::swap(&mut rest.properties, &mut self.properties);
        self.say_again(rest, arm)
    }

    // Drops what is said of variables, unless it stays where an arm is joined.
    fn drop_variables(&mut self, arm: &Difference) -> Result<(), NoMemory>
        ensures said { OnOk result ((s : Slot) → said_of self.new s ≡ (if not (is_property s) && not (stays_said arm.now s) then None else said_of self.old s)) }
        ensures gone { self.new.gone ≡ self.old.gone }
    {
        if !arm.gone.has_some_variables() {
            return Ok(());
        }
        let mut rest = Difference::new(self.alloc, Gone::none());
        mem::swap(&mut rest.variables, &mut self.variables);
        self.say_again(rest, arm)
    }

    // Drops what is said of slots of which an arm says alone that their classes have no facts.
    fn drop_with(&mut self, arm: &Difference) -> Result<(), NoMemory>
        ensures said { OnOk result ((s : Slot) → said_of self.new s ≡ (if stays_said arm.now s then said_of self.old s else None)) }
        ensures gone { OnOk result ((s : Slot) → is_gone self.new s ≡ (is_gone arm.now s || is_gone self.old s)) }
    {
        self.drop_variables(arm)?;
        self.drop_properties(arm)?;
        self.gone = arm.gone.or(self.gone);
        Ok(())
    }
}

impl Gathered {
    /// What a difference makes of the facts of a trail.
    ///
    /// # Errors
    ///
    /// `NoMemory` where memory is refused.
    pub fn of(alloc: Global, trail: &Trail, difference: Difference) -> Result<Gathered, NoMemory>
        ensures difference { IfOk result (λ g. g.difference ≡ difference) }
        ensures settled { IfOk result (λ g. Settled g (map_of trail.now)) }
    {
        let mut slots = Vec::new(alloc);
        add_said(&difference, &mut slots)?;
        add_rough(trail, &mut slots)?;
        let fresh = Fresh::of(alloc, slots)?;
        Ok(Gathered { difference, fresh })
    }

    /// The facts of a trail as they stand.
    ///
    /// # Errors
    ///
    /// `NoMemory` where memory is refused.
    pub fn nothing(alloc: Global, trail: &Trail) -> Result<Gathered, NoMemory>
        ensures made { IfOk result (λ g. (m : Map) → over g.difference m ≡ m) }
        ensures leaves { IfOk result (λ g. (s : Slot) → Leaves s g.difference) }
        ensures settled { IfOk result (λ g. Settled g (map_of trail.now)) }
    {
        Gathered::of(alloc, trail, Difference::new(alloc, Gone::none()))
    }

    // Puts a change, which was taken back, before what is gathered.
    fn add_change(&mut self, change: Change) -> Result<(), NoMemory>
        ensures made { OnOk result ((m : Map) → over self.new.difference m ≡ over self.old.difference (before change m)) }
        ensures settled { OnOk result ((m : Map) → Settled self.old (before change m) → Settled self.new m) }
    {
        self.fresh.stir(&change)?;
        self.difference.add_change(change)
    }

    // Takes the last change of a trail back, and puts it before what is gathered.
    fn take_last(&mut self, trail: &mut Trail) -> Result<(), NoMemory>
        requires more { 0 < length trail.old.changes.items }
        requires settled { Settled self.old (map_of trail.old) }
        ensures back { OnOk result (TakesLast self.old.difference self.new.difference trail.old trail.new) }
        ensures settled { OnOk result (Settled self.new (map_of trail.new)) }
        ensures one { length trail.old.changes.items ≤ length trail.new.changes.items + 1 }
        ensures goes { GoesBack trail.old trail.new }
    {
        match trail.undo()? {
            Some(change) => self.add_change(change),
            None => Ok(()),
        }
    }

    /// Takes the changes of a trail back, down to this number of them, and puts them before what is
    /// gathered.
    ///
    /// # Errors
    ///
    /// `NoMemory` where memory is refused. Some changes may be taken back then.
    pub fn take(&mut self, trail: &mut Trail, number: usize) -> Result<(), NoMemory>
        requires within { number ≤ length trail.old.changes.items }
        requires settled { Settled self.old (map_of trail.old) }
        ensures back { OnOk result (map_of trail.new ≡ map_at number trail.old) }
        ensures count { OnOk result (length trail.new.changes.items ≡ number) }
        ensures made { OnOk result (over self.new.difference (map_of trail.new) ≡ over self.old.difference (map_of trail.old)) }
        ensures leaves { OnOk result ((s : Slot) → IsNew s trail.old → Leaves s self.old.difference → Leaves s self.new.difference) }
        ensures settled { OnOk result (Settled self.new (map_of trail.new)) }
        ensures within { number ≤ length trail.new.changes.items }
        ensures goes { GoesBack trail.old trail.new }
    {
        while trail.len() > number {
            self.take_last(trail)?;
        }
        Ok(())
    }

    // The slots whose facts may not be left as they are where an arm is joined.
    fn slots_with(&self, arm: &Difference) -> Result<Vec<Slot>, NoMemory>
        ensures said { IfOk result (λ slots. (s : Slot) → is_said arm.now s ≡ true → is_listed slots.items s ≡ true) }
        ensures fresh { IfOk result (λ slots. (s : Slot) → is_fresh self.now.fresh self.now.difference s ≡ true → is_listed slots.items s ≡ true) }
    {
        let mut slots = Vec::new(self.difference.alloc);
        add_said(arm, &mut slots)?;
        self.fresh.list(&self.difference, &mut slots)?;
        Ok(slots)
    }

    /// Joins what an arm makes of the facts of a trail with what is gathered, the arm's types first. It
    /// looks at the slots of which the arm says something and at the fresh ones, and where the arm drops
    /// a class of slots, at all those of the class of which something is said.
    ///
    /// # Errors
    ///
    /// `NoMemory` where memory is refused. Some slots may be joined then.
    pub fn meet(&mut self, trail: &Trail, arm: &Difference, joins: Joins) -> Result<(), NoMemory>
        requires { Settled self.old (map_of trail.now) }
        ensures joined { OnOk result ((s : Slot) → type_of (over self.new.difference (map_of trail.now) s) ≡ joined_type arm.now self.old.difference (map_of trail.now) s) }
        ensures settled { OnOk result (Settled self.new (map_of trail.now)) }
    {
        let slots = self.slots_with(arm)?;
        let mut said = Vec::new(self.difference.alloc);
        add_said(arm, &mut said)?;
        self.difference.join_slots(trail, slots, arm, joins)?;
        self.difference.drop_with(arm)?;
        self.fresh = Fresh::of(self.difference.alloc, said)?;
        Ok(())
    }

    /// Makes what is gathered on the trail, with the joins that wait.
    ///
    /// # Errors
    ///
    /// `NoMemory` where memory is refused. Some changes may be made then.
    pub fn make(&self, trail: &mut Trail) -> Result<(), NoMemory>
        ensures made { OnOk result (SameTypes (map_of trail.new) (over self.now.difference (map_of trail.old))) }
        ensures goes { Goes self.now.difference trail.old trail.new }
    {
        self.difference.make(trail)
    }
}
