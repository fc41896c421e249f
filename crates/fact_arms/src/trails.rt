//! Differences and trails: taking one off a trail, and making it again.
ghost use Rattle.std.specs.Prelude.{◌≡◌, ◌&&◌, ◌<◌, ◌≤◌, ◌+◌, false, true, length, vec_capacity, OnOk, OnErr, IfOk, Some, None, if◌then◌else◌};
ghost use Rattle.std.specs.Option.{is_some};
ghost use Rattle.fact_trail.specs.declared.slot.Slot.{Slot};
ghost use Rattle.fact_trail.specs.Slots.{at_slot, is_slot, is_variable, is_property};
ghost use Rattle.fact_trail.specs.Moments.{map_of, map_at, KeepsMoments, IsNew, Adds};
ghost use Rattle.fact_trail.specs.Spares.{spare_map, CanTake};
ghost use Rattle.fact_arms.specs.Differences.{SameTypes, GoesBack, KeepsUpTo, class_gone, is_gone};
ghost use Rattle.fact_arms.specs.Joining.{said_at};

use crate::Difference;
use crate::gone::Gone;
use crate::slots::add_said;
use fact_trail::{Fact, Slot, Spare, Trail};
use flow_values::NoMemory;
use std::alloc::Global;

// Gives a slot a fact that equals this one.
#[tactic(auto, using(crate::proofs::Making::adds_nothing))]
fn put_shared(alloc: Global, trail: &mut Trail, slot: Slot, fact: &Fact) -> Result<(), NoMemory>
    ensures made { OnOk result (SameTypes (map_of trail.new) (at_slot slot (Some fact.now) (map_of trail.old))) }
    ensures adds { Adds slot trail.old trail.new }
{
    let own = fact.share(alloc)?;
    trail.put(slot, own)
}

// Gives a slot a fact that equals this one, or none.
fn give(alloc: Global, trail: &mut Trail, slot: Slot, fact: &Option<Fact>) -> Result<(), NoMemory>
    ensures made { OnOk result (SameTypes (map_of trail.new) (at_slot slot fact.now (map_of trail.old))) }
    ensures longer { length trail.old.changes.items ≤ length trail.new.changes.items }
    ensures moments { KeepsMoments (length trail.old.changes.items) trail.old trail.new }
    ensures fresh { (s : Slot) → (is_slot slot s ≡ true → is_some fact.now ≡ false) → IsNew s trail.old → IsNew s trail.new }
{
    match fact {
        Some(fact) => put_shared(alloc, trail, slot, fact),
        None => {
            trail.remove(slot);
            Ok(())
        }
    }
}

// Gives a slot this fact, or none.
fn give_own(trail: &mut Trail, slot: Slot, fact: Option<Fact>) -> Result<(), NoMemory>
    ensures made { OnOk result (map_of trail.new ≡ at_slot slot fact (map_of trail.old)) }
    ensures longer { length trail.old.changes.items ≤ length trail.new.changes.items }
    ensures moments { KeepsMoments (length trail.old.changes.items) trail.old trail.new }
    ensures fresh { (s : Slot) → (is_slot slot s ≡ true → is_some fact ≡ false) → IsNew s trail.old → IsNew s trail.new }
{
    match fact {
        Some(fact) => trail.put(slot, fact),
        None => {
            trail.remove(slot);
            Ok(())
        }
    }
}

/// Takes the changes of a trail back, down to this number of them, and hands out nothing of them.
///
/// # Errors
///
/// `NoMemory` where memory is refused. Some changes may be taken back then.
pub fn go_back(trail: &mut Trail, number: usize) -> Result<(), NoMemory>
    requires { number ≤ length trail.old.changes.items }
    ensures back { OnOk result (map_of trail.new ≡ map_at number trail.old) }
    ensures within { number ≤ length trail.new.changes.items }
    ensures goes { GoesBack trail.old trail.new }
    ensures capacity { vec_capacity trail.old.changes ≤ vec_capacity trail.new.changes }
{
    while trail.len() > number {
        let change = trail.undo()?;
        drop(change);
    }
    Ok(())
}

// Takes the changes of a trail back, or takes over a copy of its facts.
fn go_back_over(trail: &mut Trail, number: usize, spare: Spare) -> Result<(), NoMemory>
    requires within { number ≤ length trail.old.changes.items }
    requires room { CanTake spare trail.old }
    requires copy { spare_map spare ≡ map_of trail.old }
    ensures back { OnOk result (map_of trail.new ≡ map_at number trail.old) }
    ensures stays { OnErr result (map_of trail.new ≡ map_of trail.old) }
    ensures keeps { KeepsUpTo number trail.old trail.new }
{
    match go_back(trail, number) {
        Ok(()) => Ok(()),
        Err(refused) => {
            trail.take_over(spare);
            Err(refused)
        }
    }
}

/// Takes the changes of a trail back, down to this number of them, or leaves the facts as they are. It
/// copies all facts before, so that they can be left.
///
/// # Errors
///
/// `NoMemory` where memory is refused, or a part of a type has 2^63 - 1 owners. The facts then stay,
/// and those of the moments up to this number.
pub fn go_back_or_stay(trail: &mut Trail, number: usize) -> Result<(), NoMemory>
    requires { number ≤ length trail.old.changes.items }
    ensures back { OnOk result (map_of trail.new ≡ map_at number trail.old) }
    ensures stays { OnErr result (map_of trail.new ≡ map_of trail.old) }
    ensures keeps { KeepsUpTo number trail.old trail.new }
{
    let spare = trail.spare()?;
    go_back_over(trail, number, spare)
}

impl Difference {
    ghost use Rattle.fact_arms.specs.Differences.{over, TakesLast, Leaves, Goes};

    // Takes the last change of a trail back, and puts it before what is said.
    #[tactic(auto, using(crate::proofs::Moving::took_one, crate::proofs::Moving::goes_last, crate::proofs::Moving::one_last, crate::proofs::Moving::one_same, crate::proofs::Moving::goes_same))]
    fn take_last(&mut self, trail: &mut Trail) -> Result<(), NoMemory>
        requires { 0 < length trail.old.changes.items }
        ensures back { OnOk result (TakesLast self.old self.new trail.old trail.new) }
        ensures one { length trail.old.changes.items ≤ length trail.new.changes.items + 1 }
        ensures goes { GoesBack trail.old trail.new }
    {
        let change = trail.undo()?;
        self.add_last(change)
    }

    /// Takes the changes of a trail back, down to this number of them, and gives what they made.
    ///
    /// # Errors
    ///
    /// `NoMemory` where memory is refused. Some changes may be taken back then.
    pub fn take(alloc: Global, trail: &mut Trail, number: usize) -> Result<Difference, NoMemory>
        requires { number ≤ length trail.old.changes.items }
        ensures back { OnOk result (map_of trail.new ≡ map_at number trail.old) }
        ensures count { OnOk result (length trail.new.changes.items ≡ number) }
        ensures made { IfOk result (λ d. over d (map_of trail.new) ≡ map_of trail.old) }
        ensures leaves { IfOk result (λ d. (s : Slot) → IsNew s trail.old → Leaves s d) }
        ensures within { number ≤ length trail.new.changes.items }
        ensures goes { GoesBack trail.old trail.new }
    {
        let mut difference = Difference::new(alloc, Gone::none());
        while trail.len() > number {
            difference.take_last(trail)?;
        }
        Ok(difference)
    }

    // Makes what is said of a slot.
    fn make_at(&self, slot: Slot, trail: &mut Trail) -> Result<(), NoMemory>
        ensures made { OnOk result (SameTypes (map_of trail.new) (said_at self.now slot (map_of trail.old))) }
        ensures goes { Goes self.now trail.old trail.new }
    {
        match self.said(slot) {
            Some(fact) => give(self.alloc, trail, slot, fact),
            None => Ok(()),
        }
    }

    // Drops the facts on the variables of a class where it says that none has one.
    fn make_class_gone(&self, constant: bool, trail: &mut Trail)
        ensures made { (s : Slot) → map_of trail.new s ≡ (if is_variable constant s && class_gone self.now.gone constant then None else map_of trail.old s) }
        ensures goes { Goes self.now trail.old trail.new }
    {
        if self.gone.has_variables(constant) {
            trail.drop_variables(constant);
        }
    }

    // Drops the facts on properties where it says that none has one.
    fn make_properties_gone(&self, trail: &mut Trail)
        ensures made { (s : Slot) → map_of trail.new s ≡ (if is_property s && self.now.gone.properties then None else map_of trail.old s) }
        ensures goes { Goes self.now trail.old trail.new }
    {
        if self.gone.properties {
            trail.drop_properties();
        }
    }

    // Drops the facts of each class of which it says that no slot has one.
    fn make_gone(&self, trail: &mut Trail)
        ensures made { (s : Slot) → map_of trail.new s ≡ (if is_gone self.now s then None else map_of trail.old s) }
        ensures goes { Goes self.now trail.old trail.new }
    {
        self.make_class_gone(true, trail);
        self.make_class_gone(false, trail);
        self.make_properties_gone(trail);
    }

    /// Makes these changes on a trail again.
    ///
    /// # Errors
    ///
    /// `NoMemory` where memory is refused. Some changes may be made then.
    #[tactic(auto, using(crate::proofs::Making::goes_itself, crate::proofs::Making::goes_then))]
    pub fn make(&self, trail: &mut Trail) -> Result<(), NoMemory>
        ensures made { OnOk result (SameTypes (map_of trail.new) (over self.now (map_of trail.old))) }
        ensures goes { Goes self.now trail.old trail.new }
    {
        let mut slots = Vec::new(self.alloc);
        add_said(self, &mut slots)?;
        self.make_gone(trail);
        while let Some(slot) = slots.pop() {
            self.make_at(slot, trail)?;
        }
        Ok(())
    }

    /// Makes these changes on a trail, each fact moved to it.
    ///
    /// # Errors
    ///
    /// `NoMemory` where memory is refused. Some changes may be made then.
    pub fn move_to(self, trail: &mut Trail) -> Result<(), NoMemory>
        ensures made { OnOk result ((s : Slot) → map_of trail.new s ≡ over self (map_of trail.old) s) }
        ensures goes { Goes self trail.old trail.new }
    {
        let mut rest = self;
        rest.make_gone(trail);
        while let Some((slot, fact)) = rest.pop() {
            give_own(trail, slot, fact)?;
        }
        Ok(())
    }

    /// What the facts of a trail became from one number of changes to a later one. The facts have the
    /// same types afterwards.
    ///
    /// # Errors
    ///
    /// `NoMemory` where memory is refused. Some changes behind the first number may be taken back
    /// then.
    pub fn between(
        alloc: Global,
        trail: &mut Trail,
        first: usize,
        second: usize,
    ) -> Result<Difference, NoMemory>
        requires first { first ≤ second }
        requires second { second ≤ length trail.old.changes.items }
        ensures types { OnOk result (SameTypes (map_of trail.new) (map_of trail.old)) }
        ensures moments { OnOk result (KeepsMoments first trail.old trail.new) }
        ensures within { OnOk result (first ≤ length trail.new.changes.items) }
        ensures between { IfOk result (λ d. over d (map_at first trail.old) ≡ map_at second trail.old) }
        ensures leaves { IfOk result (λ d. (s : Slot) → IsNew s trail.old → Leaves s d) }
        ensures fresh { (s : Slot) → IsNew s trail.old → IsNew s trail.new }
    {
        let since = Difference::take(alloc, trail, second)?;
        let between = Difference::take(alloc, trail, first)?;
        between.make(trail)?;
        since.move_to(trail)?;
        Ok(between)
    }
}
