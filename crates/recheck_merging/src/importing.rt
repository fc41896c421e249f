//! The import edges between the numbers of modules.
ghost use Rattle.std.specs.Prelude.{◌<◌, ◌^◌, IfOk, OnOk, length};
ghost use Rattle.flow_values.specs.Path.{IsRising};
ghost use Rattle.check_values.specs.Roots.{paths_of};
ghost use Rattle.path_numbers.specs.affected_sizes.specs.Polls.{AreImports};
ghost use Rattle.check_phases.specs.Sourced.{AreSources, paths_in, view_in};
ghost use Rattle.recheck_merging.specs.Rows.{AddsFound, FollowRows, FollowLists};

use crate::hints::{Hints, place_by};
use check_phases::Sources;
use check_values::{Deps, Root};
use flow_values::{List, NoMemory, Path, Shared};
use std::alloc::Global;

// Adds the number of the module that was found, if one was.
#[tactic(auto, using(crate::proofs::Finds::finds_none, crate::proofs::Finds::finds_missing, crate::proofs::Finds::finds_one))]
fn add_found(
    hints: &Hints,
    root: &Root,
    found: &Option<Path>,
    edges: &mut List<u32>,
) -> Result<(), NoMemory>
    requires rising { IsRising (paths_of root.now) }
    requires few { length root.now.modules < 2 ^ 32 }
    ensures { OnOk result (AddsFound (paths_of root.now) found.now edges.old edges.new) }
{
    let Some(path) = found else {
        return Ok(());
    };
    match place_by(hints, root.modules.as_slice(), path) {
        Some(number) => edges.push(number as u32),
        None => Ok(()),
    }
}

// The numbers of the modules that the rows of a dependency list find.
#[tactic(auto, using(crate::proofs::Finds::no_rows, crate::proofs::Finds::more_rows))]
fn edges_from(alloc: Global, hints: &Hints, root: &Root, deps: &Deps) -> Result<List<u32>, NoMemory>
    requires rising { IsRising (paths_of root.now) }
    requires few { length root.now.modules < 2 ^ 32 }
    ensures { IfOk result (FollowRows (paths_of root.now) deps.now.rows (length deps.now.rows)) }
{
    let rows = deps.rows.as_slice();
    let mut edges = List::new(alloc);
    for i in 0..rows.len() {
        add_found(hints, root, &rows[i].found, &mut edges)?;
    }
    Ok(edges)
}

// The numbers of the modules that each dependency list finds.
#[tactic(auto, using(crate::proofs::Imported::more_lists, crate::proofs::Imported::whole_lists))]
fn edges_by(alloc: Global, root: &Root, lists: &[Shared<Deps>]) -> Result<Vec<List<u32>>, NoMemory>
    requires rising { IsRising (paths_of root.now) }
    requires few { length root.now.modules < 2 ^ 32 }
    ensures { IfOk result (λ edges. FollowLists (paths_of root.now) lists.now edges.items) }
{
    let hints = Hints::of(alloc, root.modules.as_slice())?;
    let mut edges = Vec::new(alloc);
    for i in 0..lists.len() {
        edges.push(edges_from(alloc, &hints, root, lists[i].get())?)?;
    }
    Ok(edges)
}

/// For each module the numbers of the modules that it imports. It takes time in proportion to the modules and what their dependency
/// lists find, with one look for most of these and a search by halving for the others.
///
/// # Errors
///
/// `NoMemory` where memory is refused.
#[tactic(auto, using(crate::proofs::Imported::are_imports))]
pub fn edges_of(alloc: Global, sources: &Sources) -> Result<Vec<List<u32>>, NoMemory>
    requires sources { AreSources sources.now }
    requires few { length sources.now.root.modules < 2 ^ 32 }
    ensures { IfOk result (λ edges. AreImports (view_in sources.now) (paths_in sources.now) edges.items) }
{
    let edges = edges_by(alloc, sources.root.get(), sources.lists.as_slice())?;
    Ok(edges)
}
