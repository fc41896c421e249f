//! From the merged signatures to the modules that are checked.
ghost use Rattle.std.specs.Prelude.{◌≡◌, ◌<◌, ◌≤◌, ◌^◌, ℕ, All, IfOk, length};
ghost use Rattle.graph_search.specs.Cycles.{IsOn};
ghost use Rattle.recheck_plan.specs.Affected.{AreExactly};
ghost use Rattle.recheck_reach.specs.Checked.{AreLeading, IsToCheckIn};
ghost use Rattle.graph_search.specs.Reach.{IsRising};
ghost use Rattle.recheck_reach.specs.affected_sizes.specs.Polls.{AreImports};
ghost use Rattle.recheck_reach.specs.check_phases.specs.Phases.{AreMerged};
ghost use Rattle.recheck_reach.specs.check_phases.specs.Sourced.{AreSources, program_in, paths_in, view_in};
ghost use Rattle.recheck_run.specs.Stages.{IsBase, IsMerging, IsChecking};
ghost use Rattle.recheck_run.specs.Steps.{IsAlso};
ghost use Rattle.recheck_run.specs.declared.stages.Stage.TheVariants as stage;

use crate::laws::{error_laws, reach_laws};
use crate::stages::{Base, Checking, Merging};
use check_values::Sig;
use flow_values::{List, NoMemory, Shared};
use recheck_checking::{kept_errors, table_for};
use recheck_reach::recheck_merging::whole_signatures;
use recheck_reach::recheck_sources::Listed;
use recheck_reach::{any_moved, checked_modules, moved_signatures};
use std::alloc::Global;

// Which modules are to be checked: those that changed, and where any signature moved, those that reach it. These are found among `leading`,
// which has each module from which imports lead to one whose signature moved. Where all changed, as in a load, none is looked for.
fn to_check(
    alloc: Global,
    listed: &Listed,
    signatures: &[Shared<Sig>],
    moved: &[bool],
    leading: &[u32],
    edges: &[List<u32>],
) -> Result<List<u32>, NoMemory>
    requires sources { AreSources listed.now.sources }
    requires few { length listed.now.sources.root.modules < 2 ^ 32 }
    requires merged { AreMerged (view_in listed.now.sources) (program_in listed.now.sources) signatures.now }
    requires moved { length moved.now ≡ length listed.now.sources.root.modules }
    requires leading { AreLeading listed.now.sources moved.now leading.now }
    requires low { All (λ x. x < length listed.now.sources.root.modules) leading.now }
    requires edges { (x : ℕ) → IsOn moved.now x → AreImports (view_in listed.now.sources) (paths_in listed.now.sources) edges.now }
    requires rising { IsRising listed.now.changed }
    requires within { All (λ x. x < length listed.now.sources.root.modules) listed.now.changed }
    ensures { IfOk result (AreExactly (IsToCheckIn listed.now.sources signatures.now moved.now listed.now.changed)) }
{
    reach_laws();
    let changed = listed.changed.as_slice();
    if changed.len() == moved.len() {
        let all = List::from_slice(alloc, changed)?;
        return Ok(all);
    }
    if any_moved(moved) {
        let sources = &listed.sources;
        return checked_modules(alloc, sources, signatures, moved, leading, edges, changed);
    }
    let all = List::from_slice(alloc, changed)?;
    Ok(all)
}

/// All signatures are merged, it is told what is to be checked, and those that the checks read are put into one table.
///
/// # Errors
///
/// `NoMemory` where memory is refused.
pub(crate) fn begin_checks(
    alloc: Global,
    base: &Base,
    merging: Merging,
) -> Result<Checking, NoMemory>
    requires base { IsBase base.now }
    requires merging { IsMerging base.now merging }
    requires all { length merging.plan.waves ≤ merging.wave }
    ensures checking { IfOk result (IsChecking base.now) }
    ensures also { IfOk result (λ c. IsAlso base.now (stage.Merges merging) (stage.Checks c)) }
{
    reach_laws();
    error_laws();
    recheck_reach::recheck_merging::waves_make_all();
    recheck_reach::recheck_merging::members_add_up();
    committed_results::full_law::each_full();
    let Merging {
        listed,
        edges,
        touched: _,
        plan,
        wave: _,
        slots,
        same,
    } = merging;
    let was = base.was.signatures.as_slice();
    let from = base.from.as_slice();
    let signatures = whole_signatures(alloc, slots)?;
    let all = signatures.as_slice();
    let merged = plan.merged.as_slice();
    let known = same.as_slice();
    let moved = moved_signatures(alloc, was, from, merged, all, known)?;
    let flags = moved.as_slice();
    let imports = edges.as_slice();
    let checked = to_check(alloc, &listed, all, flags, merged, imports)?;
    let old = base.was.errors.as_slice();
    let numbers = checked.as_slice();
    let errors = kept_errors(alloc, old, from, numbers)?;
    let table = table_for(alloc, &listed.sources, all, numbers)?;
    let Listed {
        sources,
        relisted,
        touched: _,
        changed: _,
    } = listed;
    Ok(Checking {
        sources,
        relisted,
        signatures,
        moved,
        table,
        checked,
        done: 0,
        errors,
    })
}
