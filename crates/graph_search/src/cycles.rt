ghost use Rattle.std.specs.Prelude.{◌≡◌, ◌<◌, ◌↔◌, ℕ, length, IsTrue, IfOk};
ghost use Rattle.graph_search.specs.Cycles.{AreWithin, AreCycleMarks, IsOnCycle};
ghost use Rattle.graph_search.specs.Searching.{AreClasses};

use crate::classing::classes;
use crate::searching::ends;
use flow_values::{List, NoMemory};
use std::alloc::Global;

// Whether an edge of x stays in its class.
fn leads_back(edges: &[List<usize>], classes: &[usize], x: usize) -> bool
    requires small { x < length edges.now }
    requires within { AreWithin edges.now }
    requires classes { AreClasses edges.now classes.now }
    ensures { IsTrue result ↔ IsOnCycle edges.now x }
{
    let class = classes[x];
    for y in ends(edges, x) {
        if classes[*y] == class {
            return true;
        }
    }
    false
}

/// Marks exactly the numbers that lie on a cycle: those from which one edge or more lead back.
/// Number x has an edge to each number in `edges[x]`. `bench/aliases.sh` measures its time.
///
/// # Errors
///
/// `NoMemory` where memory is refused.
pub fn mark_cycles(alloc: Global, edges: &[List<usize>]) -> Result<Vec<bool>, NoMemory>
    requires { AreWithin edges.now }
    ensures { IfOk result (λ marks. AreCycleMarks edges.now marks.items) }
{
    let classes = classes(alloc, edges)?;
    let mut marks = Vec::new(alloc);
    for x in 0..edges.len() {
        marks.push(leads_back(edges, classes.as_slice(), x))?;
    }
    Ok(marks)
}
