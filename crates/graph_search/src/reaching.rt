ghost use Rattle.std.specs.Prelude.{◌≡◌, ◌<◌, ◌^◌, ◌+◌, ℕ, true, replicate, All, length, IfOk, OnOk};
ghost use Rattle.graph_search.specs.Cycles.{AreWithin};
ghost use Rattle.graph_search.specs.Reach.{AreReached};
ghost use Rattle.graph_search.specs.Grouping.{AreUnmarked};

use crate::searching::search;
use crate::widening::{widened, widened_list};
use flow_values::{List, NoMemory};
use std::alloc::Global;

// Lists x where its mark is off.
fn list_unmarked(marks: &[bool], x: usize, all: &mut List<u32>) -> Result<(), NoMemory>
    requires few { length marks.now < 2 ^ 32 }
    requires small { x < length marks.now }
    requires listed { AreUnmarked marks.now x all.old }
    ensures { OnOk result (AreUnmarked marks.now (x + 1) all.new) }
{
    if marks[x] {
        return Ok(());
    }
    all.push(x as u32)?;
    Ok(())
}

// The numbers whose mark is off, rising.
fn unmarked(alloc: Global, marks: &[bool]) -> Result<List<u32>, NoMemory>
    requires { length marks.now < 2 ^ 32 }
    ensures { IfOk result (λ all. AreUnmarked marks.now (length marks.now) all) }
{
    let mut all = List::new(alloc);
    for x in 0..marks.len() {
        list_unmarked(marks, x, &mut all)?;
    }
    Ok(all)
}

// The numbers that a search from the starts closes, rising.
fn closed(
    alloc: Global,
    edges: &[List<usize>],
    starts: &[usize],
    opened: &mut [bool],
) -> Result<List<u32>, NoMemory>
    requires few { length edges.now < 2 ^ 32 }
    requires within { AreWithin edges.now }
    requires starts { All (λ s. s < length edges.now) starts.now }
    requires opened { opened.old ≡ replicate (length edges.now) true }
    ensures { IfOk result (λ all. AreReached edges.now starts.now all) }
{
    search(alloc, edges, starts, opened)?;
    let all = unmarked(alloc, opened)?;
    Ok(all)
}

/// Exactly the numbers that one of `starts` reaches along edges, in no step or in some, rising.
/// Number x has an edge to each number in `edges[x]`.
///
/// # Errors
///
/// `NoMemory` where memory is refused.
pub fn reach(alloc: Global, edges: &[List<u32>], starts: &[u32]) -> Result<List<u32>, NoMemory>
    requires few { length edges.now < 2 ^ 32 }
    requires within { AreWithin edges.now }
    requires starts { All (λ s. s < length edges.now) starts.now }
    ensures { IfOk result (λ all. AreReached edges.now starts.now all) }
{
    let wide = widened(alloc, edges)?;
    let first = widened_list(alloc, starts)?;
    let mut opened = vec![in alloc; true; edges.len()]?;
    let all = closed(
        alloc,
        wide.as_slice(),
        first.as_slice(),
        opened.as_mut_slice(),
    )?;
    Ok(all)
}
