//! Numbers as flags.
ghost use Rattle.std.specs.Prelude.{◌<◌, All, IfOk, length};
ghost use Rattle.graph_search.specs.Searching.{Marks};
ghost use Rattle.recheck_plan.specs.Marks.{AreMarksOf};

use flow_values::NoMemory;
use std::alloc::Global;

// Turns the flags of these numbers on.
fn flag_all(flags: &mut [bool], numbers: &[u32])
    requires { All (λ x. x < length flags.old) numbers.now }
    ensures { Marks numbers.now flags.old flags.new }
{
    for number in numbers {
        flags[*number as usize] = true;
    }
}

/// So many flags, on at exactly these numbers.
///
/// # Errors
///
/// `NoMemory` where memory is refused.
pub(crate) fn flags_of(alloc: Global, count: usize, numbers: &[u32]) -> Result<Vec<bool>, NoMemory>
    requires { All (λ x. x < count) numbers.now }
    ensures { IfOk result (λ flags. AreMarksOf count numbers.now flags.items) }
{
    let mut flags = vec![in alloc; false; count]?;
    flag_all(flags.as_mut_slice(), numbers);
    Ok(flags)
}
