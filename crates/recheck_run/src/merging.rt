//! From the sources to the plan of what is merged.
ghost use Rattle.std.specs.Prelude.{◌≡◌, ◌⊎◌, ◌<◌, ◌^◌, [], All, IfOk, length};
ghost use Rattle.recheck_reach.specs.affected_sizes.specs.Polls.{AreImports};
ghost use Rattle.recheck_reach.specs.check_phases.specs.Sourced.{AreSources, paths_in, view_in};
ghost use Rattle.recheck_reach.specs.recheck_merging.specs.Plans.{IsPlanOf};
ghost use Rattle.recheck_run.specs.Stages.{Holds, IsBase, IsMerging};
ghost use Rattle.recheck_run.specs.declared.stages.Stage.TheVariants as stage;

use crate::flags::flags_of;
use crate::laws::reach_laws;
use crate::stages::{Base, Merging};
use committed_results::source_front::Parse;
use flow_values::{List, NoMemory, Shared};
use recheck_reach::check_phases::Sources;
use recheck_reach::recheck_merging::{
    MergePlan, edges_of, kept_signatures, nothing_to_merge, plan_of,
};
use recheck_reach::recheck_sources::listed_sources;
use std::alloc::Global;

// Which modules are merged, and the import edges, where any is touched.
#[derive(Drop)]
struct Planned {
    edges: Vec<List<u32>>,
    plan: MergePlan,
}

// The plan of the touched modules. Where none is, no edges are made.
fn plan_touched(alloc: Global, sources: &Sources, touched: &[u32]) -> Result<Planned, NoMemory>
    requires sources { AreSources sources.now }
    requires few { length sources.now.root.modules < 2 ^ 32 }
    requires touched { All (λ t. t < length sources.now.root.modules) touched.now }
    ensures plan { IfOk result (λ p. IsPlanOf sources.now touched.now p.plan) }
    ensures edges { IfOk result (λ p. (touched.now ≡ []) ⊎ AreImports (view_in sources.now) (paths_in sources.now) p.edges.items) }
{
    if touched.is_empty() {
        return Ok(Planned {
            edges: Vec::new(alloc),
            plan: nothing_to_merge(alloc),
        });
    }
    let edges = edges_of(alloc, sources)?;
    let all = edges.as_slice();
    let plan = plan_of(alloc, sources, all, touched)?;
    Ok(Planned { edges, plan })
}

/// The dependency lists are made, and it is planned what is merged.
///
/// # Errors
///
/// `NoMemory` where memory is refused.
pub(crate) fn list_all(
    alloc: Global,
    base: &Base,
    parses: Vec<Shared<Parse>>,
) -> Result<Merging, NoMemory>
    requires base { IsBase base.now }
    requires holds { Holds base.now (stage.Lists parses) }
    ensures merging { IfOk result (IsMerging base.now) }
    ensures wave { IfOk result (λ m. m.wave ≡ 0) }
{
    reach_laws();
    recheck_reach::recheck_merging::kept_are_right();
    let root = base.root.share()?;
    let from = base.from.as_slice();
    let fresh = base.fresh.as_slice();
    let listed = listed_sources(alloc, &base.was.sources, root, parses, from, fresh)?;
    let touched = listed.touched.as_slice();
    let planned = plan_touched(alloc, &listed.sources, touched)?;
    let Planned { edges, plan } = planned;
    let was = base.was.signatures.as_slice();
    let slots = kept_signatures(alloc, was, from, &plan)?;
    let flags = flags_of(alloc, from.len(), touched)?;
    let same = vec![in alloc; true; from.len()]?;
    Ok(Merging {
        listed,
        edges,
        touched: flags,
        plan,
        wave: 0,
        slots,
        same,
    })
}
