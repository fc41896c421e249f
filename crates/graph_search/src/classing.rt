ghost use Rattle.std.specs.Prelude.{◌≡◌, ◌<◌, ℕ, All, length, [], ◌∷◌, IfOk, OnOk};
ghost use Rattle.graph_search.specs.Cycles.{AreWithin, IsOn};
ghost use Rattle.graph_search.specs.Searching.{AreReversed, Marks, Writes, PutsBack, AreClasses, IsHalfClassed, IsBlank};

use crate::ordering::likely_order;
use crate::reversing::reversed;
use crate::searching::search;
use flow_values::{List, NoMemory};
use std::alloc::Global;

// Turns these marks on.
fn mark_all(marks: &mut [bool], xs: &[usize])
    requires { All (λ x. x < length marks.old) xs.now }
    ensures { Marks xs.now marks.old marks.new }
{
    for x in xs {
        marks[*x] = true;
    }
}

/// Writes p at these places.
pub(crate) fn write_all(numbers: &mut [usize], xs: &[usize], p: usize)
    requires { All (λ x. x < length numbers.old) xs.now }
    ensures { Writes xs.now p numbers.old numbers.new }
{
    for x in xs {
        numbers[*x] = p;
    }
}

// Clears x where it is inside, and leaves it for later.
fn put_one(left: &mut [bool], inside: &mut [bool], x: usize)
    requires left { x < length left.old }
    requires inside { x < length inside.old }
    ensures { PutsBack (x ∷ []) left.old inside.old left.new inside.new }
{
    if inside[x] {
        inside[x] = false;
        left[x] = true;
    }
}

// Clears what is still inside, and leaves it for later.
fn put_back(left: &mut [bool], inside: &mut [bool], xs: &[usize])
    requires left { All (λ x. x < length left.old) xs.now }
    requires inside { All (λ x. x < length inside.old) xs.now }
    ensures { PutsBack xs.now left.old inside.old left.new inside.new }
{
    for x in xs {
        put_one(left, inside, *x);
    }
}

// Gives the component of p its class, where it has none.
fn finish(
    alloc: Global,
    edges: &[List<usize>],
    back: &[List<usize>],
    p: usize,
    left: &mut [bool],
    inside: &mut [bool],
    classes: &mut [usize],
) -> Result<(), NoMemory>
    requires within { AreWithin edges.now }
    requires reversed { AreReversed edges.now back.now }
    requires half { IsHalfClassed edges.now left.old classes.old }
    requires blank { IsBlank (length edges.now) inside.old }
    ensures half { OnOk result (IsHalfClassed edges.now left.new classes.new) }
    ensures blank { OnOk result (IsBlank (length edges.now) inside.new) }
    ensures gone { OnOk result (¬ (IsOn left.new p)) }
    ensures less { OnOk result ((x : ℕ) → IsOn left.new x → IsOn left.old x) }
{
    if p >= edges.len() {
        return Ok(());
    }
    if !left[p] {
        return Ok(());
    }
    let around = search(alloc, back, &[p], left)?;
    mark_all(inside, around.as_slice());
    let component = search(alloc, edges, &[p], inside)?;
    write_all(classes, component.as_slice(), p);
    put_back(left, inside, around.as_slice());
    Ok(())
}

// Gives all components their classes, those of the last numbers in `order` first.
fn finish_all(
    alloc: Global,
    edges: &[List<usize>],
    back: &[List<usize>],
    order: &[usize],
    left: &mut [bool],
    inside: &mut [bool],
    classes: &mut [usize],
) -> Result<(), NoMemory>
    requires within { AreWithin edges.now }
    requires reversed { AreReversed edges.now back.now }
    requires half { IsHalfClassed edges.now left.old classes.old }
    requires blank { IsBlank (length edges.now) inside.old }
    ensures { OnOk result (AreClasses edges.now classes.new) }
{
    for p in order.iter().rev() {
        finish(alloc, edges, back, *p, left, inside, classes)?;
    }
    for p in 0..edges.len() {
        finish(alloc, edges, back, p, left, inside, classes)?;
    }
    Ok(())
}

/// The class of each number: one number of its component, the same for all of it.
pub(crate) fn classes(alloc: Global, edges: &[List<usize>]) -> Result<Vec<usize>, NoMemory>
    requires { AreWithin edges.now }
    ensures { IfOk result (λ classes. AreClasses edges.now classes.items) }
{
    let order = likely_order(alloc, edges)?;
    let back = reversed(alloc, edges)?;
    let mut left = vec![in alloc; true; edges.len()]?;
    let mut inside = vec![in alloc; false; edges.len()]?;
    let mut classes = vec![in alloc; 0; edges.len()]?;
    finish_all(
        alloc,
        edges,
        back.as_slice(),
        order.as_slice(),
        left.as_mut_slice(),
        inside.as_mut_slice(),
        classes.as_mut_slice(),
    )?;
    Ok(classes)
}
