//! Parts of a type, of which those that stay as they are are shared.
ghost use Rattle.std.specs.Prelude.{◌≡◌, ◌<◌, ◌≤◌, ◌+◌, ◌∷◌, ◌++◌, [], take, length, IfOk, unwrap_or, List};
ghost use Rattle.std.specs.List.{slice_index_or};

use flow_values::{List, NoMemory, Shared};
use std::alloc::Global;
use type_values::{FlowProp, FlowType, Param};

// What stands in a list in a type.
pub(crate) trait Part: Drop {
    // An equal part that shares all that it holds.
    fn shared(&self) -> Result<Self, NoMemory>
        ensures { IfOk result (λ copy. copy ≡ self.now) };
}

impl Part for FlowType {
    fn shared(&self) -> Result<FlowType, NoMemory> {
        self.share()
    }
}

impl Part for FlowProp {
    fn shared(&self) -> Result<FlowProp, NoMemory> {
        self.share()
    }
}

impl Part for Param {
    fn shared(&self) -> Result<Param, NoMemory> {
        self.share()
    }
}

/// The new value, or the old one shared where there is none.
///
/// # Errors
///
/// `NoMemory` where memory is refused.
pub(crate) fn or_shared<T: Drop>(
    alloc: Global,
    old: &Shared<T>,
    new: Option<T>,
) -> Result<Shared<T>, NoMemory>
    ensures { IfOk result (λ shared. shared ≡ unwrap_or new old.now) }
{
    match new {
        Some(new) => Shared::new(alloc, new),
        None => old.share(),
    }
}

// The first `count` parts, shared.
fn front_of<T: Part>(alloc: Global, all: &[T], count: usize) -> Result<List<T>, NoMemory>
    requires { count ≤ length all.now }
    ensures { IfOk result (λ front. front ≡ take count all.now) }
{
    let mut front = List::new(alloc);
    for i in 0..count {
        front.push(all[i].shared()?)?;
    }
    Ok(front)
}

// A list that is begun, with the new part behind it, or the old one shared where there is none.
fn more<T: Part>(list: List<T>, old: &T, new: Option<T>) -> Result<List<T>, NoMemory>
    ensures { IfOk result (λ all. all ≡ list ++ unwrap_or new old.now ∷ []) }
{
    let mut list = list;
    match new {
        Some(new) => list.push(new)?,
        None => list.push(old.shared()?)?,
    }
    Ok(list)
}

/// The first parts with the one at `i` behind them. No list is begun before the first part that is new.
///
/// # Errors
///
/// `NoMemory` where memory is refused.
pub(crate) fn one_more<T: Part>(
    alloc: Global,
    all: &[T],
    i: usize,
    so_far: Option<List<T>>,
    new: Option<T>,
) -> Result<Option<List<T>>, NoMemory>
    requires { i < length all.now }
    ensures { IfOk result (λ now. (old : T) → unwrap_or now (take (i + 1) all.now) ≡ unwrap_or so_far (take i all.now) ++ unwrap_or new (slice_index_or all.now i old) ∷ []) }
{
    match so_far {
        Some(list) => Ok(Some(more(list, &all[i], new)?)),
        None => match new {
            Some(new) => {
                let mut front = front_of(alloc, all, i)?;
                front.push(new)?;
                Ok(Some(front))
            }
            None => Ok(None),
        },
    }
}
