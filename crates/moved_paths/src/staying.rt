//! Which lists stay.
ghost use Rattle.std.specs.Prelude.{◌≡◌, ◌↔◌, IfOk, IsTrue, None};
ghost use Rattle.flow_values.specs.Path.{IsRising};
ghost use Rattle.check_values.specs.Roots.{paths_of};
ghost use Rattle.module_resolution.specs.Resolution.{resolved};
ghost use Rattle.moved_paths.specs.Moved.{IsRowUnmoved, IsUnmoved};

use crate::moving::Moved;
use check_values::{DepRow, Deps, Root};
use dep_lists::resolve;
use flow_values::{NoMemory, Path};
use std::alloc::Global;

// Whether a specifier finds none of these modules.
#[tactic(auto, using(crate::proofs::Stays::none_there))]
fn finds_none(alloc: Global, root: &Root, from: &Path, row: &DepRow) -> Result<bool, NoMemory>
    requires { IsRising (paths_of root.now) }
    ensures { IfOk result (λ none. IsTrue none ↔ (resolved (paths_of root.now) from.now row.now.spec ≡ None)) }
{
    if root.modules.is_empty() {
        return Ok(true);
    }
    let found = resolve(alloc, root, from, row.spec.as_bytes())?;
    Ok(found.is_none())
}

// Whether the specifier of a row can find no path that came, and could find none that went.
fn is_row_unmoved(alloc: Global, moved: &Moved, from: &Path, row: &DepRow) -> Result<bool, NoMemory>
    requires came { IsRising (paths_of moved.now.came) }
    requires went { IsRising (paths_of moved.now.went) }
    ensures { IfOk result (λ unmoved. IsTrue unmoved ↔ IsRowUnmoved moved.now from.now row.now) }
{
    if !finds_none(alloc, &moved.came, from, row)? {
        return Ok(false);
    }
    finds_none(alloc, &moved.went, from, row)
}

/// Whether no specifier of the module at `from` with this dependency list can find a path that came, or could find one that went.
///
/// # Errors
///
/// `NoMemory` where memory is refused.
pub fn is_unmoved(alloc: Global, moved: &Moved, from: &Path, deps: &Deps) -> Result<bool, NoMemory>
    requires came { IsRising (paths_of moved.now.came) }
    requires went { IsRising (paths_of moved.now.went) }
    ensures { IfOk result (λ unmoved. IsTrue unmoved ↔ IsUnmoved moved.now from.now deps.now) }
{
    let rows = deps.rows.as_slice();
    for i in 0..rows.len() {
        if !is_row_unmoved(alloc, moved, from, &rows[i])? {
            return Ok(false);
        }
    }
    Ok(true)
}
