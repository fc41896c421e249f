ghost use Rattle.std.specs.Prelude.{◌≡◌, IfOk};

use flow_values::{List, NoMemory};
use std::alloc::Global;

/// The same numbers, as places.
pub(crate) fn widened_list(alloc: Global, numbers: &[u32]) -> Result<List<usize>, NoMemory>
    ensures { IfOk result (λ wide. wide ≡ numbers.now) }
{
    let mut wide = List::new(alloc);
    for number in numbers {
        wide.push(*number as usize)?;
    }
    Ok(wide)
}

/// The same lists of numbers, as places.
pub(crate) fn widened(alloc: Global, lists: &[List<u32>]) -> Result<Vec<List<usize>>, NoMemory>
    ensures { IfOk result (λ wide. wide.items ≡ lists.now) }
{
    let mut wide = Vec::new(alloc);
    for list in lists {
        wide.push(widened_list(alloc, list.as_slice())?)?;
    }
    Ok(wide)
}
