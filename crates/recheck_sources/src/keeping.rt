//! What serves on of old modules.
ghost use Rattle.std.specs.Prelude.{◌≡◌, ◌+◌, ◌<◌, ◌↔◌, IfOk, OnOk, IsTrue, None, Some, length, slice_get};
ghost use Rattle.recheck_sources.specs.Keeping.{kept_in, made_for, IsInPlace, StandStill};

use flow_values::{NoMemory, Shared};

/// The part of the old module of a number, where the module that it is now is not fresh.
///
/// # Errors
///
/// `NoMemory` where a part has too many owners.
pub(crate) fn kept_part<T>(
    was: &[Shared<T>],
    number: Option<u32>,
    fresh: bool,
) -> Result<Option<Shared<T>>, NoMemory>
    ensures { IfOk result (λ part. part ≡ kept_in was.now number fresh) }
{
    let Some(number) = number else {
        return Ok(None);
    };
    if fresh {
        return Ok(None);
    }
    match was.get(number as usize) {
        Some(part) => Ok(Some(part.share()?)),
        None => Ok(None),
    }
}

/// The part that is kept, or else the next one of those that were made; then the one behind it is the next.
///
/// # Errors
///
/// `NoMemory` where a part has too many owners.
pub(crate) fn kept_or_next<T>(
    kept: Option<Shared<T>>,
    made: &[Shared<T>],
    next: &mut usize,
) -> Result<Shared<T>, NoMemory>
    requires { kept ≡ None → next.old < length made.now }
    ensures kept { IfOk result (IsInPlace kept) }
    ensures made { kept ≡ None → IfOk result (λ part. slice_get made.now next.old ≡ Some part) }
    ensures next { OnOk result (next.new ≡ next.old + made_for kept) }
{
    match kept {
        Some(part) => Ok(part),
        None => {
            let part = made[*next].share()?;
            *next += 1;
            Ok(part)
        }
    }
}

// Whether a number is given, and is this one.
fn is_number(number: Option<u32>, x: usize) -> bool
    ensures { IsTrue result ↔ (number ≡ Some x) }
{
    match number {
        Some(number) => number as usize == x,
        None => false,
    }
}

/// Whether each module was the one of its own number, of so many: then no path came or went.
pub(crate) fn stand_still(from: &[Option<u32>], many: usize) -> bool
    ensures { IsTrue result ↔ StandStill from.now many }
{
    if from.len() != many {
        return false;
    }
    for x in 0..from.len() {
        if !is_number(from[x], x) {
            return false;
        }
    }
    true
}
