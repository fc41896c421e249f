//! How many errors there are.
ghost use Rattle.std.specs.Prelude.{◌≡◌, IfOk, length, sum_by};

use check_values::Errs;
use flow_values::{NoMemory, Shared};

/// How many errors there are.
///
/// # Errors
///
/// `NoMemory` where there are more than 2^64 - 1, which is more than memory held at any time.
#[tactic(auto, using(crate::proofs::Sums::more_errors, crate::proofs::Sums::all_errors))]
pub fn count_errors(errors: &[Shared<Errs>]) -> Result<u64, NoMemory>
    ensures { IfOk result (λ count. count ≡ sum_by (λ errs. length errs.faults) errors.now) }
{
    let mut count = 0u64;
    for i in 0..errors.len() {
        let errs = errors[i].get();
        let more = errs.faults.len() as u64;
        count = count.checked_add(more).ok_or(NoMemory)?;
    }
    Ok(count)
}
