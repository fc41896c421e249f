//! Old errors that are kept, and all errors in the end.
ghost use Rattle.std.specs.Prelude.{◌≡◌, ◌<◌, All, IfOk, length, map, Some};
ghost use Rattle.recheck_checking.specs.Keeping.{kept_in, AreKept, AreCleared, AreFilled};

use check_values::Errs;
use flow_values::{NoMemory, Shared};
use std::alloc::Global;

/// The errors of each module, where they are known.
pub type ErrorSlots = Vec<Option<Shared<Errs>>>;

// The old errors of a number, if one is given.
fn kept(was: &[Shared<Errs>], number: Option<u32>) -> Result<Option<Shared<Errs>>, NoMemory>
    ensures { IfOk result (λ slot. slot ≡ kept_in was.now number) }
{
    let Some(number) = number else {
        return Ok(None);
    };
    match was.get(number as usize) {
        Some(errors) => Ok(Some(errors.share()?)),
        None => Ok(None),
    }
}

// For each module its old errors, if it has some.
#[tactic(auto, using(crate::proofs::Keeps::olds_more))]
fn old_errors(
    alloc: Global,
    was: &[Shared<Errs>],
    from: &[Option<u32>],
) -> Result<ErrorSlots, NoMemory>
    ensures { IfOk result (λ slots. slots.items ≡ map (kept_in was.now) from.now) }
{
    let mut slots = Vec::new(alloc);
    for i in 0..from.len() {
        let slot = kept(was, from[i])?;
        slots.push(slot)?;
    }
    Ok(slots)
}

// Empties the slots of these numbers.
#[tactic(auto, using(crate::proofs::Clears::none_cleared))]
fn clear_all(slots: &mut ErrorSlots, numbers: &[u32])
    requires { All (λ x. x < length slots.old.items) numbers.now }
    ensures { AreCleared numbers.now slots.old.items slots.new.items }
{
    for i in 0..numbers.len() {
        slots[numbers[i] as usize] = None;
    }
}

/// The old errors of the modules that are not checked: `from` has for each module the number that it had, if it had one, `was` the
/// errors of each old number, and `checked` the numbers of the modules that are to be checked. There are none for these, nor for a
/// module that had no number. It takes time in proportion to the modules.
///
/// # Errors
///
/// `NoMemory` where memory is refused.
#[tactic(auto, using(crate::proofs::Clears::kept_outside))]
pub fn kept_errors(
    alloc: Global,
    was: &[Shared<Errs>],
    from: &[Option<u32>],
    checked: &[u32],
) -> Result<ErrorSlots, NoMemory>
    requires within { All (λ x. x < length from.now) checked.now }
    ensures { IfOk result (λ slots. AreKept was.now from.now checked.now slots.items) }
{
    let mut slots = old_errors(alloc, was, from)?;
    clear_all(&mut slots, checked);
    Ok(slots)
}

/// What the slots hold, where all are filled: so it is behind the last batch.
///
/// # Errors
///
/// `NoMemory` where memory is refused.
pub fn whole_errors(alloc: Global, slots: ErrorSlots) -> Result<Vec<Shared<Errs>>, NoMemory>
    requires filled { AreFilled slots.items }
    ensures { IfOk result (λ all. map Some all.items ≡ slots.items) }
{
    let mut all = Vec::with_capacity(alloc, slots.len())?;
    for slot in slots {
        match slot {
            Some(errors) => all.push(errors)?,
            None => unreachable!(),
        }
    }
    Ok(all)
}
