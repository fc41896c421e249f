ghost use Rattle.std.specs.Prelude.{◌<◌, ◌^◌, All, length, IfOk};
ghost use Rattle.graph_search.specs.Cycles.{AreWithin};
ghost use Rattle.recheck_plan.specs.Affected.{AreExactly, LeadsToTouched};

use crate::reversing::reversed;
use flow_values::{List, NoMemory};
use graph_search::reach;
use std::alloc::Global;

/// Exactly the numbers that lead to a touched one along edges, in no step or in some, rising: so each
/// touched number is among them. Number x has an edge to each number in `edges[x]`. It takes time in
/// proportion to the numbers, edges and touched numbers.
///
/// # Errors
///
/// `NoMemory` where memory is refused.
#[tactic(auto, using(crate::proofs::Backwards::within_reversed))]
pub fn merge_set(alloc: Global, edges: &[List<u32>], touched: &[u32]) -> Result<List<u32>, NoMemory>
    requires few { length edges.now < 2 ^ 32 }
    requires within { AreWithin edges.now }
    requires touched { All (λ t. t < length edges.now) touched.now }
    ensures { IfOk result (AreExactly (LeadsToTouched edges.now touched.now)) }
{
    let back = reversed(alloc, edges)?;
    let all = reach(alloc, back.as_slice(), touched)?;
    Ok(all)
}
