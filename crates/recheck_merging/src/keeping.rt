//! Old signatures that are kept, and all signatures in the end.
ghost use Rattle.std.specs.Prelude.{◌≡◌, ◌<◌, All, IfOk, length, map, Some};
ghost use Rattle.recheck_merging.specs.Keeping.{kept_in, AreKept};
ghost use Rattle.recheck_merging.specs.Merging.{IsFilled};
ghost use Rattle.recheck_merging.specs.Clearing.{AreCleared};

use crate::planning::MergePlan;
use check_values::Sig;
use flow_values::{NoMemory, Shared};
use std::alloc::Global;

/// The merged signature of each module, where it is known.
pub type Slots = Vec<Option<Shared<Sig>>>;

/// The old signature of a number, if one is given.
pub(crate) fn kept(
    was: &[Shared<Sig>],
    number: Option<u32>,
) -> Result<Option<Shared<Sig>>, NoMemory>
    ensures { IfOk result (λ slot. slot ≡ kept_in was.now number) }
{
    let Some(number) = number else {
        return Ok(None);
    };
    match was.get(number as usize) {
        Some(signature) => Ok(Some(signature.share()?)),
        None => Ok(None),
    }
}

// For each module its old signature, if it has one.
#[tactic(auto, using(crate::proofs::Loops::olds_more))]
fn old_signatures(
    alloc: Global,
    was: &[Shared<Sig>],
    from: &[Option<u32>],
) -> Result<Slots, NoMemory>
    ensures { IfOk result (λ slots. slots.items ≡ map (kept_in was.now) from.now) }
{
    let mut slots = Vec::new(alloc);
    for i in 0..from.len() {
        let slot = kept(was, from[i])?;
        slots.push(slot)?;
    }
    Ok(slots)
}

// Empties the slots of these numbers.
#[tactic(auto, using(crate::proofs::Clears::none_cleared))]
fn clear_all(slots: &mut Slots, numbers: &[u32])
    requires { All (λ x. x < length slots.old.items) numbers.now }
    ensures { AreCleared numbers.now slots.old.items slots.new.items }
{
    for i in 0..numbers.len() {
        slots[numbers[i] as usize] = None;
    }
}

/// The old signatures of the modules outside of a plan: `from` has for each module the number that it had, if it had one, and `was`
/// the signature of each old number. There is none for a module of the plan, nor for one that had no number. It takes time in
/// proportion to the modules.
///
/// # Errors
///
/// `NoMemory` where memory is refused.
#[tactic(auto, using(crate::proofs::Clears::kept_outside))]
pub fn kept_signatures(
    alloc: Global,
    was: &[Shared<Sig>],
    from: &[Option<u32>],
    plan: &MergePlan,
) -> Result<Slots, NoMemory>
    requires within { All (λ x. x < length from.now) plan.now.merged }
    ensures { IfOk result (λ slots. AreKept was.now from.now plan.now.merged slots.items) }
{
    let mut slots = old_signatures(alloc, was, from)?;
    clear_all(&mut slots, plan.merged.as_slice());
    Ok(slots)
}

/// What the slots hold, where all are filled: so it is behind the last wave.
///
/// # Errors
///
/// `NoMemory` where memory is refused.
pub fn whole_signatures(alloc: Global, slots: Slots) -> Result<Vec<Shared<Sig>>, NoMemory>
    requires filled { IsFilled slots.items }
    ensures { IfOk result (λ all. map Some all.items ≡ slots.items) }
{
    let mut all = Vec::with_capacity(alloc, slots.len())?;
    for slot in slots {
        match slot {
            Some(signature) => all.push(signature)?,
            None => unreachable!(),
        }
    }
    Ok(all)
}
