//! Joining what two differences make of facts.
ghost use Rattle.std.specs.Prelude.{◌≡◌, ◌∷◌, [], true, None, IfOk, if◌then◌else◌};
ghost use Rattle.std.specs.Option.{option_copied};
ghost use Rattle.fact_trail.specs.declared.slot.Slot.{Slot};
ghost use Rattle.fact_trail.specs.Types.{ty_of};
ghost use Rattle.fact_trail.specs.Slots.{Map, is_rough_at, is_slot};
ghost use Rattle.fact_trail.specs.Moments.{map_of};
ghost use Rattle.type_terms.specs.Join.{join_of};
ghost use Rattle.flow_facts.specs.Known.{both};
ghost use Rattle.fact_arms.specs.declared.joining.Joins.TheVariants.{Made, Waiting};
ghost use Rattle.fact_arms.specs.Differences.{over, type_of, said_of, is_said, is_gone, is_listed};
ghost use Rattle.fact_arms.specs.Joining.{joined_type};

use crate::Difference;
use crate::slots::{add_rough, add_said};
use fact_trail::{Fact, Slot, Trail};
use flow_values::{List, NoMemory};
use std::alloc::Global;
use type_joins::join_settled;
use type_terms::join;
use type_values::FlowType;

/// When joins are made.
#[derive(Debug, Clone, Copy, PartialEq, Eq)]
pub enum Joins {
    /// At once.
    Made,
    /// When they are asked for, which is once for all joins of a slot.
    Waiting,
}

impl Joins {
    /// Joins that wait, or not.
    pub fn waiting_if(wait: bool) -> Joins
        ensures { result ≡ (if wait then Waiting else Made) }
    {
        if wait {
            return Joins::Waiting;
        }
        Joins::Made
    }
}

// The join of the types of two facts.
#[tactic(auto, using(crate::proofs::Meeting::settled_smooth))]
fn join_of_types(alloc: Global, first: &Fact, second: &Fact) -> Result<FlowType, NoMemory>
    ensures { IfOk result (λ ty. ty ≡ join_of (ty_of first.now ∷ ty_of second.now ∷ [])) }
{
    let one = first.ty(alloc)?;
    let two = second.ty(alloc)?;
    if !first.is_rough() && !second.is_rough() {
        return join_settled(alloc, &one, &two);
    }
    let mut all = List::new(alloc);
    all.push(one)?;
    all.push(two)?;
    join(alloc, all.as_slice())
}

// The join of two facts.
#[tactic(auto, using(crate::proofs::Meeting::settled_as))]
fn join_of_two(alloc: Global, first: &Fact, second: Fact, joins: Joins) -> Result<Fact, NoMemory>
    ensures { IfOk result (λ fact. ty_of fact ≡ join_of (ty_of first.now ∷ ty_of second ∷ [])) }
{
    match joins {
        Joins::Made => {
            let ty = join_of_types(alloc, first, &second)?;
            Ok(Fact::settled(alloc, ty))
        }
        Joins::Waiting => {
            let ty = first.ty(alloc)?;
            Fact::waiting(ty, second)
        }
    }
}

// The join of two facts, and none where one of them lacks.
fn join_of_facts(
    alloc: Global,
    first: Option<&Fact>,
    second: Option<Fact>,
    joins: Joins,
) -> Result<Option<Fact>, NoMemory>
    ensures { IfOk result (λ fact. type_of fact ≡ both (type_of (option_copied first.entry)) (type_of second)) }
{
    let Some(first) = first else {
        return Ok(None);
    };
    let Some(second) = second else {
        return Ok(None);
    };
    Ok(Some(join_of_two(alloc, first, second, joins)?))
}

// A fact that equals this one, if there is one.
fn share_if(alloc: Global, fact: Option<&Fact>) -> Result<Option<Fact>, NoMemory>
    ensures { IfOk result (λ own. type_of own ≡ type_of (option_copied fact.entry)) }
{
    match fact {
        Some(fact) => Ok(Some(fact.share(alloc)?)),
        None => Ok(None),
    }
}

impl Difference {
    // What a slot has by it, over a fact.
    fn look<'a>(&'a self, slot: Slot, other: Option<&'a Fact>) -> Option<&'a Fact>
        ensures { (m : Map) → m slot ≡ option_copied other.entry → option_copied result ≡ over self.now m slot }
    {
        match self.said(slot) {
            Some(fact) => fact.as_ref(),
            None => self.leave(slot, other),
        }
    }

    // A fact, unless it is gone.
    fn leave<'a>(&self, slot: Slot, other: Option<&'a Fact>) -> Option<&'a Fact>
        ensures { option_copied result ≡ (if is_gone self.now slot then None else option_copied other.entry) }
    {
        if self.drops(slot) {
            return None;
        }
        other
    }

    // Takes out what a slot has by it, over the fact of a trail.
    fn take_look(
        &mut self,
        alloc: Global,
        trail: &Trail,
        slot: Slot,
    ) -> Result<Option<Fact>, NoMemory>
        ensures fact { IfOk result (λ fact. type_of fact ≡ type_of (over self.old (map_of trail.now) slot)) }
        ensures said { (s : Slot) → said_of self.new s ≡ (if is_slot slot s then None else said_of self.old s) }
        ensures gone { self.new.gone ≡ self.old.gone }
    {
        match self.take_said(slot) {
            Some(fact) => Ok(fact),
            None => share_if(alloc, self.leave(slot, trail.get(slot))),
        }
    }
}

/// The join of what two differences make of a slot. The second one says nothing of it any more.
pub(crate) fn join_at(
    alloc: Global,
    trail: &Trail,
    slot: Slot,
    first: &Difference,
    second: &mut Difference,
    joins: Joins,
) -> Result<Option<Fact>, NoMemory>
    ensures fact { IfOk result (λ fact. type_of fact ≡ joined_type first.now second.old (map_of trail.now) slot) }
    ensures said { (s : Slot) → said_of second.new s ≡ (if is_slot slot s then None else said_of second.old s) }
    ensures gone { second.new.gone ≡ second.old.gone }
{
    let other = second.take_look(alloc, trail, slot)?;
    join_of_facts(alloc, first.look(slot, trail.get(slot)), other, joins)
}

// The slots whose facts may not be left as they are where two differences are joined.
fn slots_of(
    alloc: Global,
    trail: &Trail,
    first: &Difference,
    second: &Difference,
) -> Result<Vec<Slot>, NoMemory>
    ensures first { IfOk result (λ slots. (s : Slot) → is_said first.now s ≡ true → is_listed slots.items s ≡ true) }
    ensures second { IfOk result (λ slots. (s : Slot) → is_said second.now s ≡ true → is_listed slots.items s ≡ true) }
    ensures rough { IfOk result (λ slots. (s : Slot) → is_rough_at (map_of trail.now s) ≡ true → is_listed slots.items s ≡ true) }
{
    let mut slots = Vec::new(alloc);
    add_said(first, &mut slots)?;
    add_said(second, &mut slots)?;
    add_rough(trail, &mut slots)?;
    Ok(slots)
}

/// Joins what two differences make of the facts of a trail, slot by slot, the first one's types
/// first. It looks at the slots of which they say something, and at those other facts alone whose
/// types their own join may change. The trail stays. What the second one says moves: a join that
/// waits in it takes one step more.
///
/// # Errors
///
/// `NoMemory` where memory is refused.
pub fn meet(
    alloc: Global,
    trail: &Trail,
    first: &Difference,
    second: Difference,
    joins: Joins,
) -> Result<Difference, NoMemory>
    ensures { IfOk result (λ d. (s : Slot) → type_of (over d (map_of trail.now) s) ≡ joined_type first.now second (map_of trail.now) s) }
{
    let gone = first.gone.or(second.gone);
    let mut slots = slots_of(alloc, trail, first, &second)?;
    let mut rest = second;
    let mut difference = Difference::new(alloc, gone);
    while let Some(slot) = slots.pop() {
        if difference.says(slot) {
            continue;
        }
        let fact = join_at(alloc, trail, slot, first, &mut rest, joins)?;
        difference.say(slot, fact)?;
    }
    Ok(difference)
}
