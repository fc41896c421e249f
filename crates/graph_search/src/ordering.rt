ghost use Rattle.std.specs.Prelude.{◌∷◌, ◌++◌, [], ◌<◌, ◌≤◌, ℕ, OnOk};
ghost use Rattle.graph_search.specs.Visiting.{still_to_do};

use flow_values::{List, NoMemory};
use std::alloc::Global;

// Takes note of a number, where it is new.
#[tactic(auto, using(crate::proofs::Visits::noted))]
fn take_note(
    edges: &[List<usize>],
    seen: &mut [bool],
    path: &mut Vec<(usize, usize)>,
    y: usize,
) -> Result<(), NoMemory>
    ensures { OnOk result (still_to_do edges.now seen.new path.new.items ≤ still_to_do edges.now seen.old path.old.items) }
{
    if y >= seen.len() {
        return Ok(());
    }
    if seen[y] {
        return Ok(());
    }
    seen[y] = true;
    path.push((y, 0))?;
    Ok(())
}

// Goes on from the last number of the path, to its next edge or back.
fn go_on(
    edges: &[List<usize>],
    seen: &mut [bool],
    path: &mut Vec<(usize, usize)>,
    order: &mut Vec<usize>,
    at: (usize, usize),
) -> Result<(), NoMemory>
    ensures { OnOk result (still_to_do edges.now seen.new path.new.items < still_to_do edges.now seen.old (path.old.items ++ at ∷ [])) }
{
    let (x, next) = at;
    if x >= edges.len() {
        return Ok(());
    }
    let ys = edges[x].as_slice();
    if next < ys.len() {
        path.push((x, next + 1))?;
        take_note(edges, seen, path, ys[next])?;
        return Ok(());
    }
    order.push(x)?;
    Ok(())
}

// Goes depth first from a number, and lists each number behind those to which it leads.
fn visit(
    alloc: Global,
    edges: &[List<usize>],
    start: usize,
    seen: &mut [bool],
    order: &mut Vec<usize>,
) -> Result<(), NoMemory> {
    let mut path = Vec::new(alloc);
    take_note(edges, seen, &mut path, start)?;
    while let Some(at) = path.pop() {
        go_on(edges, seen, &mut path, order, at)?;
    }
    Ok(())
}

/// An order of the numbers in which a number comes behind those to which it leads, but for cycles.
/// It is a hint alone, for what is right in any order.
pub(crate) fn likely_order(alloc: Global, edges: &[List<usize>]) -> Result<Vec<usize>, NoMemory> {
    let mut seen = vec![in alloc; false; edges.len()]?;
    let mut order = Vec::new(alloc);
    for start in 0..edges.len() {
        visit(alloc, edges, start, seen.as_mut_slice(), &mut order)?;
    }
    Ok(order)
}
