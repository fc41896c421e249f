ghost use Rattle.std.specs.Prelude.{◌≡◌, ◌<◌, ◌^◌, ◌∷◌, All, length, replicate, [], IfOk, OnOk};
ghost use Rattle.graph_search.specs.Cycles.{AreWithin};
ghost use Rattle.graph_search.specs.Searching.{AreReversed, Adds};

use flow_values::{List, NoMemory};
use std::alloc::Global;

// Adds an edge from y to x.
fn add(back: &mut [List<u32>], x: u32, y: u32) -> Result<(), NoMemory>
    requires { y < length back.old }
    ensures { OnOk result (Adds x (y ∷ []) back.old back.new) }
{
    back[y as usize].push(x)?;
    Ok(())
}

// Adds an edge from each of these numbers to x.
fn add_all(back: &mut [List<u32>], x: u32, ys: &[u32]) -> Result<(), NoMemory>
    requires { All (λ y. y < length back.old) ys.now }
    ensures { OnOk result (Adds x ys.now back.old back.new) }
{
    for y in ys {
        add(back, x, *y)?;
    }
    Ok(())
}

fn empty_lists(alloc: Global, count: usize) -> Result<Vec<List<u32>>, NoMemory>
    ensures { IfOk result (λ lists. lists.items ≡ replicate count []) }
{
    let mut lists = Vec::new(alloc);
    while lists.len() < count {
        lists.push(List::new(alloc))?;
    }
    Ok(lists)
}

// Adds each edge the other way round to lists that are empty.
fn add_reversed(edges: &[List<u32>], back: &mut [List<u32>]) -> Result<(), NoMemory>
    requires few { length edges.now < 2 ^ 32 }
    requires within { AreWithin edges.now }
    requires empty { back.old ≡ replicate (length edges.now) [] }
    ensures { OnOk result (AreReversed edges.now back.new) }
{
    for x in 0..edges.len() {
        add_all(back, x as u32, edges[x].as_slice())?;
    }
    Ok(())
}

/// Each edge the other way round.
pub(crate) fn reversed(alloc: Global, edges: &[List<u32>]) -> Result<Vec<List<u32>>, NoMemory>
    requires few { length edges.now < 2 ^ 32 }
    requires within { AreWithin edges.now }
    ensures { IfOk result (λ back. AreReversed edges.now back.items) }
{
    let mut back = empty_lists(alloc, edges.len())?;
    add_reversed(edges, back.as_mut_slice())?;
    Ok(back)
}
