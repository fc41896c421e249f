//! The numbers of which a flag is on.
ghost use Rattle.std.specs.Prelude.{◌<◌, ◌+◌, ◌^◌, IfOk, OnOk, length};
ghost use Rattle.graph_search.specs.Cycles.{IsOn};
ghost use Rattle.recheck_plan.specs.Affected.{AreExactly};
ghost use Rattle.recheck_plan.specs.Marks.{AreBelow};

use flow_values::{List, NoMemory};
use std::alloc::Global;

// Lists one more number, where its flag is on.
fn list_on(flags: &[bool], x: usize, numbers: &mut List<u32>) -> Result<(), NoMemory>
    requires few { length flags.now < 2 ^ 32 }
    requires low { x < length flags.now }
    requires listed { AreBelow (IsOn flags.now) x numbers.old }
    ensures { OnOk result (AreBelow (IsOn flags.now) (x + 1) numbers.new) }
{
    if !flags[x] {
        return Ok(());
    }
    numbers.push(x as u32)?;
    Ok(())
}

/// The numbers of which the flag is on, rising.
#[tactic(auto, using(crate::proofs::Listed::all_on))]
pub(crate) fn numbers_on(alloc: Global, flags: &[bool]) -> Result<List<u32>, NoMemory>
    requires few { length flags.now < 2 ^ 32 }
    ensures { IfOk result (AreExactly (IsOn flags.now)) }
{
    let mut numbers = List::new(alloc);
    for x in 0..flags.len() {
        list_on(flags, x, &mut numbers)?;
    }
    Ok(numbers)
}
