ghost use Rattle.std.specs.Prelude.{◌≡◌, ◌∷◌, [], ◌<◌, All, length, slice_get, IfOk, OnOk};
ghost use Rattle.graph_search.specs.Cycles.{AreWithin};
ghost use Rattle.graph_search.specs.Searching.{Closes, HasFound};

use flow_values::{List, NoMemory};
use std::alloc::Global;

// Closes one number, and lists it where it was open.
fn close(opened: &mut [bool], found: &mut List<usize>, y: usize) -> Result<(), NoMemory>
    requires { y < length opened.old }
    ensures { OnOk result (Closes (y ∷ []) opened.old found.old opened.new found.new) }
{
    if opened[y] {
        opened[y] = false;
        found.push(y)?;
    }
    Ok(())
}

fn close_all(opened: &mut [bool], found: &mut List<usize>, ys: &[usize]) -> Result<(), NoMemory>
    requires { All (λ y. y < length opened.old) ys.now }
    ensures { OnOk result (Closes ys.now opened.old found.old opened.new found.new) }
{
    for y in ys {
        close(opened, found, *y)?;
    }
    Ok(())
}

/// The numbers to which x has an edge.
pub(crate) fn ends(edges: &[List<usize>], x: usize) -> &[usize]
    requires { x < length edges.now }
    ensures { slice_get edges.now x ≡ Some result.now }
{
    edges[x].as_slice()
}

/// Lists what open numbers reach from the starts, and closes it.
pub(crate) fn search(
    alloc: Global,
    edges: &[List<usize>],
    starts: &[usize],
    opened: &mut [bool],
) -> Result<List<usize>, NoMemory>
    requires starts { All (λ s. s < length edges.now) starts.now }
    requires edges { AreWithin edges.now }
    requires size { length opened.old ≡ length edges.now }
    ensures { IfOk result (λ found. HasFound edges.now starts.now opened.old opened.new found) }
{
    let mut found = List::new(alloc);
    close_all(opened, &mut found, starts)?;
    let mut at = 0;
    while at < found.len() {
        let x = found.as_slice()[at];
        close_all(opened, &mut found, ends(edges, x))?;
        at += 1;
    }
    Ok(found)
}
