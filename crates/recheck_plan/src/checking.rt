ghost use Rattle.std.specs.Prelude.{◌≡◌, ◌<◌, ◌↔◌, ◌^◌, ◌+◌, All, length, IfOk, OnOk, IsTrue};
ghost use Rattle.graph_search.specs.Cycles.{AreWithin};
ghost use Rattle.recheck_plan.specs.Affected.{AreExactly, IsToCheck};
ghost use Rattle.recheck_plan.specs.Marks.{HasMarked, IsMarked, AreBelow};

use crate::marking::marks_of;
use flow_values::{List, NoMemory};
use std::alloc::Global;

// Whether one of the numbers is marked.
fn has_marked(marks: &[bool], numbers: &[u32]) -> bool
    requires { All (λ x. x < length marks.now) numbers.now }
    ensures { IsTrue result ↔ HasMarked marks.now numbers.now }
{
    for number in numbers {
        if marks[*number as usize] {
            return true;
        }
    }
    false
}

// Whether x is marked as touched, or its list has a number that is marked as moved.
fn is_marked(reach: &[List<u32>], touched: &[bool], moved: &[bool], x: usize) -> bool
    requires small { x < length reach.now }
    requires within { AreWithin reach.now }
    requires touched { length touched.now ≡ length reach.now }
    requires moved { length moved.now ≡ length reach.now }
    ensures { IsTrue result ↔ IsMarked reach.now touched.now moved.now x }
{
    touched[x] || has_marked(moved, reach[x].as_slice())
}

// Lists x where it is marked, or its list has a marked number.
fn list_marked(
    reach: &[List<u32>],
    touched: &[bool],
    moved: &[bool],
    x: usize,
    all: &mut List<u32>,
) -> Result<(), NoMemory>
    requires few { length reach.now < 2 ^ 32 }
    requires small { x < length reach.now }
    requires within { AreWithin reach.now }
    requires touched { length touched.now ≡ length reach.now }
    requires moved { length moved.now ≡ length reach.now }
    requires listed { AreBelow (IsMarked reach.now touched.now moved.now) x all.old }
    ensures { OnOk result (AreBelow (IsMarked reach.now touched.now moved.now) (x + 1) all.new) }
{
    if !is_marked(reach, touched, moved, x) {
        return Ok(());
    }
    all.push(x as u32)?;
    Ok(())
}

// The numbers that are marked as touched, and those whose list has one that is marked as moved, rising.
fn all_marked(
    alloc: Global,
    reach: &[List<u32>],
    touched: &[bool],
    moved: &[bool],
) -> Result<List<u32>, NoMemory>
    requires few { length reach.now < 2 ^ 32 }
    requires within { AreWithin reach.now }
    requires touched { length touched.now ≡ length reach.now }
    requires moved { length moved.now ≡ length reach.now }
    ensures { IfOk result (AreBelow (IsMarked reach.now touched.now moved.now) (length reach.now)) }
{
    let mut all = List::new(alloc);
    for x in 0..reach.len() {
        list_marked(reach, touched, moved, x, &mut all)?;
    }
    Ok(all)
}

/// Exactly the touched numbers and those whose list in `reach` has a moved one, rising: what is to be
/// checked again, where number x reaches the numbers in `reach[x]`. It takes time in proportion to the
/// lists with all that stands in them and the touched and moved numbers.
///
/// # Errors
///
/// `NoMemory` where memory is refused.
pub fn check_set(
    alloc: Global,
    reach: &[List<u32>],
    touched: &[u32],
    moved: &[u32],
) -> Result<List<u32>, NoMemory>
    requires few { length reach.now < 2 ^ 32 }
    requires within { AreWithin reach.now }
    requires touched { All (λ t. t < length reach.now) touched.now }
    requires moved { All (λ m. m < length reach.now) moved.now }
    ensures { IfOk result (AreExactly (IsToCheck reach.now touched.now moved.now)) }
{
    let touched_marks = marks_of(alloc, reach.len(), touched)?;
    let moved_marks = marks_of(alloc, reach.len(), moved)?;
    let all = all_marked(
        alloc,
        reach,
        touched_marks.as_slice(),
        moved_marks.as_slice(),
    )?;
    Ok(all)
}
