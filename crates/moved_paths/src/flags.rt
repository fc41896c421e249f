//! Which old modules are modules still.
ghost use Rattle.std.specs.Prelude.{◌≡◌, ◌<◌, ◌+◌, true, map, IfOk, length, replicate, slice_get};
ghost use Rattle.std.specs.Option.{is_some};
ghost use Rattle.moved_paths.specs.Flags.{AreMet};

use flow_values::NoMemory;
use std::alloc::Global;

/// Whether each module has a number.
pub(crate) fn are_numbered(alloc: Global, from: &[Option<u32>]) -> Result<Vec<bool>, NoMemory>
    ensures { IfOk result (λ flags. flags.items ≡ map is_some from.now) }
{
    let mut flags = Vec::new(alloc);
    for i in 0..from.len() {
        flags.push(from[i].is_some())?;
    }
    Ok(flags)
}

// Turns on the flag of one more number.
#[tactic(auto, using(crate::proofs::Turned::none_more, crate::proofs::Turned::one_more, crate::proofs::Turned::past_more))]
fn meet(from: &[Option<u32>], i: usize, flags: &mut Vec<bool>)
    requires low { i < length from.now }
    requires met { AreMet from.now (length flags.old.items) i flags.old.items }
    ensures { AreMet from.now (length flags.old.items) (i + 1) flags.new.items }
{
    let Some(number) = from[i] else {
        return;
    };
    let place = number as usize;
    if place < flags.len() {
        flags[place] = true;
    }
}

/// Whether each of so many numbers is the number of a module.
#[tactic(auto, using(crate::proofs::Turned::none_met))]
pub(crate) fn are_met(
    alloc: Global,
    from: &[Option<u32>],
    many: usize,
) -> Result<Vec<bool>, NoMemory>
    ensures { IfOk result (λ flags. AreMet from.now many (length from.now) flags.items) }
{
    let mut flags = vec![in alloc; false; many]?;
    for i in 0..from.len() {
        meet(from, i, &mut flags);
    }
    Ok(flags)
}
