//! Lists that a world's next state is made of.
ghost use Rattle.std.specs.Prelude.{◌≡◌, ◌<◌, ◌≤◌, ◌^◌, ℕ, Bool, false, List, length, slice_get, slice_set, map, replicate, Some, unwrap_or, Option, None, IfOk};
ghost use Rattle.std.specs.Option.{option_map};
ghost use Rattle.std.specs.Arc.{arc_value};
ghost use Rattle.heap_world.specs.World.{replaced, renewed, emptied};

use flow_values::{List, NoMemory};
use std::alloc::Global;
use std::sync::Arc;

/// The row, with this value at `e`.
pub(super) fn row_with(
    alloc: Global,
    row: &[bool],
    e: u32,
    value: bool,
) -> Result<List<bool>, NoMemory>
    requires { e < length row.now }
    ensures { IfOk result (λ list. list ≡ slice_set row.now e value) }
{
    let mut list = List::from_slice(alloc, row)?;
    list.set(e as usize, value);
    Ok(list)
}

/// The rows, each with false at `e`.
pub(super) fn emptied_rows(
    alloc: Global,
    rows: &[List<bool>],
    e: u32,
) -> Result<List<List<bool>>, NoMemory>
    requires { (n : ℕ) (row : List Bool) → slice_get rows.now n ≡ Some row → e < length row }
    ensures { IfOk result (λ list. list ≡ emptied rows.now e) }
{
    let mut list = List::new(alloc);
    for row in rows {
        list.push(row_with(alloc, row.as_slice(), e, false)?)?;
    }
    Ok(list)
}

/// The pending payload where there is one, and else the other one.
fn latest<P: Drop>(payload: &Arc<P>, next: &Option<Arc<P>>) -> Result<Arc<P>, NoMemory>
    ensures { IfOk result (λ shared. arc_value shared ≡ unwrap_or (option_map arc_value next.now) (arc_value payload.now)) }
{
    match next {
        Some(next) => Ok(Arc::try_clone(next)?),
        None => Ok(Arc::try_clone(payload)?),
    }
}

/// The state, with the pending payloads in place.
pub(super) fn next_state<P: Drop>(
    alloc: Global,
    state: &[Arc<P>],
    pending: &[Option<Arc<P>>],
) -> Result<List<Arc<P>>, NoMemory>
    requires { length state.now ≡ length pending.now }
    ensures { IfOk result (λ list. map arc_value list ≡ replaced (map arc_value state.now) (map (option_map arc_value) pending.now)) }
{
    let mut list = List::new(alloc);
    for e in 0..state.len() {
        list.push(latest(&state[e], &pending[e])?)?;
    }
    Ok(list)
}

/// `version` where a payload pends, and else the entity's own.
pub(super) fn next_versions<P: Drop>(
    alloc: Global,
    version: u32,
    versions: &[u32],
    pending: &[Option<Arc<P>>],
) -> Result<List<u32>, NoMemory>
    requires { length versions.now ≡ length pending.now }
    ensures { IfOk result (λ list. list ≡ renewed version (map (option_map arc_value) pending.now) versions.now) }
{
    let mut list = List::new(alloc);
    for e in 0..versions.len() {
        list.push(if pending[e].is_some() {
            version
        } else {
            versions[e]
        })?;
    }
    Ok(list)
}

/// So many times that nothing pends.
pub(super) fn none_pending<P: Drop>(
    alloc: Global,
    count: u32,
) -> Result<List<Option<Arc<P>>>, NoMemory>
    ensures { IfOk result (λ list. list ≡ replicate count None) }
{
    let mut list = List::new(alloc);
    for _i in 0..count {
        list.push(None)?;
    }
    Ok(list)
}

/// So many times false.
pub(super) fn all_false(alloc: Global, count: u32) -> Result<List<bool>, NoMemory>
    ensures { IfOk result (λ list. list ≡ replicate count false) }
{
    Ok(List::from_vec(Vec::from_elem(alloc, false, count as usize)?))
}

/// So many rows of so many times false.
pub(super) fn empty_rows(
    alloc: Global,
    lanes: u32,
    count: u32,
) -> Result<List<List<bool>>, NoMemory>
    ensures { IfOk result (λ list. list ≡ replicate lanes (replicate count false)) }
{
    let mut list = List::new(alloc);
    for _i in 0..lanes {
        list.push(all_false(alloc, count)?)?;
    }
    Ok(list)
}
