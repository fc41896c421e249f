//! Which modules are to be checked.
ghost use Rattle.std.specs.Prelude.{◌≡◌, ◌<◌, ◌^◌, All, IfOk, length};
ghost use Rattle.recheck_merging.specs.affected_sizes.specs.Polls.{AreImports};
ghost use Rattle.recheck_plan.specs.Affected.{AreExactly};
ghost use Rattle.recheck_merging.specs.check_phases.specs.Phases.{AreMerged};
ghost use Rattle.recheck_merging.specs.check_phases.specs.Sourced.{AreSources, program_in, paths_in, view_in};
ghost use Rattle.recheck_reach.specs.Checked.{AreLeading, IsStirred, IsToCheckIn};

use crate::laws::names_are_imported;
use crate::listing::numbers_on;
use crate::naming::names_of;
use check_values::Sig;
use flow_values::{List, NoMemory, Shared};
use recheck_merging::check_phases::Sources;
use recheck_plan::{check_set, merge_set};
use std::alloc::Global;

// The numbers of the modules that lead by names to one whose signature moved, rising. A module leads by imports wherever it does by names,
// so names are looked up of `leading` alone, which has each module from which imports lead to one whose signature moved.
#[tactic(auto, using(crate::proofs::Leads::few_steps))]
fn stirred_modules(
    alloc: Global,
    sources: &Sources,
    signatures: &[Shared<Sig>],
    moved: &[bool],
    leading: &[u32],
) -> Result<List<u32>, NoMemory>
    requires sources { AreSources sources.now }
    requires few { length sources.now.root.modules < 2 ^ 32 }
    requires merged { AreMerged (view_in sources.now) (program_in sources.now) signatures.now }
    requires moved { length moved.now ≡ length sources.now.root.modules }
    requires leading { AreLeading sources.now moved.now leading.now }
    requires low { All (λ x. x < length sources.now.root.modules) leading.now }
    ensures { IfOk result (AreExactly (IsStirred sources.now signatures.now moved.now)) }
{
    names_are_imported();
    let moved_ones = numbers_on(alloc, moved)?;
    let ones = moved_ones.as_slice();
    let named = names_of(alloc, sources, signatures, leading)?;
    let stirred = merge_set(alloc, named.as_slice(), ones)?;
    Ok(stirred)
}

/// The numbers of the modules that are to be checked, rising: the changed ones, and those that find one which leads by names to one
/// whose signature moved. `moved` has a flag for each module, and `edges` what it imports. `leading` has at least each module from which
/// imports lead to one whose signature moved: what leads by names to such a one is among these. It takes time in proportion to the
/// modules, the edges, the changed numbers and the signatures of `leading`, with a search by halving for each name in these. Where nothing
/// moved (`any_moved`), the changed ones are all, and need no edges.
///
/// # Errors
///
/// `NoMemory` where memory is refused.
#[tactic(auto, using(crate::proofs::Leads::few_imports, crate::proofs::Leads::within_imports, crate::proofs::Leads::changed_low, crate::proofs::Leads::stirred_low, crate::proofs::Leads::checked_all))]
pub fn checked_modules(
    alloc: Global,
    sources: &Sources,
    signatures: &[Shared<Sig>],
    moved: &[bool],
    leading: &[u32],
    edges: &[List<u32>],
    changed: &[u32],
) -> Result<List<u32>, NoMemory>
    requires sources { AreSources sources.now }
    requires few { length sources.now.root.modules < 2 ^ 32 }
    requires merged { AreMerged (view_in sources.now) (program_in sources.now) signatures.now }
    requires moved { length moved.now ≡ length sources.now.root.modules }
    requires leading { AreLeading sources.now moved.now leading.now }
    requires low { All (λ x. x < length sources.now.root.modules) leading.now }
    requires edges { AreImports (view_in sources.now) (paths_in sources.now) edges.now }
    requires within { All (λ x. x < length sources.now.root.modules) changed.now }
    ensures { IfOk result (AreExactly (IsToCheckIn sources.now signatures.now moved.now changed.now)) }
{
    let stirred = stirred_modules(alloc, sources, signatures, moved, leading)?;
    let all = check_set(alloc, edges, changed, stirred.as_slice())?;
    Ok(all)
}
