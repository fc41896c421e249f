ghost use Rattle.std.specs.Prelude.{◌≡◌, ℕ, ◌≤◌, ◌<◌, IfOk, List, length, sum_by, replicate, None};
ghost use Rattle.number_draws.specs.Below.{below};
ghost use Rattle.number_draws.specs.Places.{IsPlaced, AreThere, somes};

use std::alloc::{AllocError, Global};

// So many empty places.
fn empty<X: Drop>(alloc: Global, count: usize) -> Result<Vec<Option<X>>, AllocError>
    ensures { IfOk result (λ slots. length slots.items ≡ count) }
{
    let mut slots = Vec::new(alloc);
    for _i in 0..count {
        slots.push(None)?;
    }
    Ok(slots)
}

// Puts the answers at their places.
fn fill<X: Drop>(slots: &mut Vec<Option<X>>, mut kept: Vec<(usize, X)>)
    requires { (h : ℕ → ℕ) → sum_by (λ r. h r.0) kept.items ≡ sum_by h (below (length slots.old.items)) }
    ensures long { length slots.new.items ≡ length slots.old.items }
    ensures placed { IsPlaced kept.items slots.new.items }
{
    'places: while let Some((number, answer)) = kept.pop() {
        slots[number] = Some(answer);
    }
}

// What stands at the places that are filled.
fn collect<X: Drop>(alloc: Global, slots: Vec<Option<X>>) -> Result<Vec<X>, AllocError>
    ensures { IfOk result (λ all. all.items ≡ somes slots.items) }
{
    let mut all = Vec::new(alloc);
    for slot in slots {
        match slot {
            Some(answer) => all.push(answer)?,
            None => {}
        }
    }
    Ok(all)
}

/// The answers, in the order of their numbers.
///
/// # Errors
///
/// `AllocError` where memory is refused.
pub fn in_order<X: Drop>(
    alloc: Global,
    count: usize,
    kept: Vec<(usize, X)>,
) -> Result<Vec<X>, AllocError>
    requires { (h : ℕ → ℕ) → sum_by (λ r. h r.0) kept.items ≡ sum_by h (below count) }
    ensures { IfOk result (λ all. AreThere kept.items count all.items) }
{
    let mut slots = empty(alloc, count)?;
    fill(&mut slots, kept);
    collect(alloc, slots)
}
