ghost use Rattle.std.specs.Prelude.{◌≡◌, ◌<◌, ◌^◌, ◌+◌, ◌↔◌, ℕ, All, length, slice_get, [], replicate, IsTrue, IfOk, OnOk};
ghost use Rattle.graph_search.specs.Cycles.{AreWithin};
ghost use Rattle.graph_search.specs.Components.{AreComponents};
ghost use Rattle.graph_search.specs.Searching.{AreClasses};
ghost use Rattle.graph_search.specs.Grouping.{HasPut, AreSorted, AreTaken};

use crate::classing::classes;
use crate::widening::widened;
use flow_values::{List, NoMemory};
use std::alloc::Global;

fn empty_lists(alloc: Global, count: usize) -> Result<Vec<List<u32>>, NoMemory>
    ensures { IfOk result (λ lists. lists.items ≡ replicate count []) }
{
    let mut lists = Vec::new(alloc);
    while lists.len() < count {
        lists.push(List::new(alloc))?;
    }
    Ok(lists)
}

// Puts x behind the last of list k.
fn put(lists: &mut [List<u32>], k: usize, x: u32) -> Result<(), NoMemory>
    requires { k < length lists.old }
    ensures { OnOk result (HasPut k x lists.old lists.new) }
{
    lists[k].push(x)?;
    Ok(())
}

// Puts each place behind the last of the list of its key.
fn fill(keys: &[usize], lists: &mut [List<u32>]) -> Result<(), NoMemory>
    requires few { length keys.now < 2 ^ 32 }
    requires below { All (λ k. k < length lists.old) keys.now }
    requires empty { lists.old ≡ replicate (length lists.old) [] }
    ensures { OnOk result (AreSorted keys.now (length lists.old) lists.new) }
{
    for x in 0..keys.len() {
        put(lists, keys[x], x as u32)?;
    }
    Ok(())
}

/// For each number below `count` the places at which it stands among `keys`, rising.
pub(crate) fn sorted(
    alloc: Global,
    keys: &[usize],
    count: usize,
) -> Result<Vec<List<u32>>, NoMemory>
    requires few { length keys.now < 2 ^ 32 }
    requires below { All (λ k. k < count) keys.now }
    ensures { IfOk result (λ lists. AreSorted keys.now count lists.items) }
{
    let mut lists = empty_lists(alloc, count)?;
    fill(keys, lists.as_mut_slice())?;
    Ok(lists)
}

fn begins_with(members: &[u32], x: usize) -> bool
    ensures { IsTrue result ↔ (slice_get members.now 0 ≡ Some x) }
{
    match members.first() {
        Some(first) => *first as usize == x,
        None => false,
    }
}

// Takes the list of x, where x is its first.
fn take_list(
    alloc: Global,
    classes: &[usize],
    lists: &[List<u32>],
    x: usize,
    all: &mut List<List<u32>>,
) -> Result<(), NoMemory>
    requires within { All (λ c. c < length lists.now) classes.now }
    requires small { x < length classes.now }
    requires taken { AreTaken classes.now lists.now x all.old }
    ensures { OnOk result (AreTaken classes.now lists.now (x + 1) all.new) }
{
    let members = lists[classes[x]].as_slice();
    if !begins_with(members, x) {
        return Ok(());
    }
    all.push(List::from_slice(alloc, members)?)?;
    Ok(())
}

// The list of each class, in order of their first numbers.
fn take_lists(
    alloc: Global,
    classes: &[usize],
    lists: &[List<u32>],
) -> Result<List<List<u32>>, NoMemory>
    requires { All (λ c. c < length lists.now) classes.now }
    ensures { IfOk result (λ all. AreTaken classes.now lists.now (length classes.now) all) }
{
    let mut all = List::new(alloc);
    for x in 0..classes.len() {
        take_list(alloc, classes, lists, x, &mut all)?;
    }
    Ok(all)
}

/// The strongly connected components, each rising, in order of their least members.
/// Number x has an edge to each number in `edges[x]`. `bench/graphs.py` measures its time.
///
/// # Errors
///
/// `NoMemory` where memory is refused.
pub fn components(alloc: Global, edges: &[List<u32>]) -> Result<List<List<u32>>, NoMemory>
    requires few { length edges.now < 2 ^ 32 }
    requires within { AreWithin edges.now }
    ensures { IfOk result (λ all. AreComponents edges.now all) }
{
    let wide = widened(alloc, edges)?;
    let classes = classes(alloc, wide.as_slice())?;
    let lists = sorted(alloc, classes.as_slice(), edges.len())?;
    let all = take_lists(alloc, classes.as_slice(), lists.as_slice())?;
    Ok(all)
}
