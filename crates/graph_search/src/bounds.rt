ghost use Rattle.std.specs.Prelude.{◌≡◌, ◌<◌, ◌↔◌, All, length, IsTrue};
ghost use Rattle.graph_search.specs.Cycles.{AreWithin};

use flow_values::List;

fn all_below(numbers: &[u32], count: usize) -> bool
    ensures { IsTrue result ↔ All (λ y. y < count) numbers.now }
{
    for number in numbers {
        if *number as usize >= count {
            return false;
        }
    }
    true
}

/// Whether each edge ends at a number that has a list.
pub fn are_within(edges: &[List<u32>]) -> bool
    ensures { IsTrue result ↔ AreWithin edges.now }
{
    for x in 0..edges.len() {
        if !all_below(edges[x].as_slice(), edges.len()) {
            return false;
        }
    }
    true
}
