ghost use Rattle.std.specs.Prelude.{◌≡◌, ◌<◌, ◌^◌, ◌+◌, ℕ, All, length, slice_get, IfOk};
ghost use Rattle.graph_search.specs.Cycles.{AreWithin, Has};
ghost use Rattle.graph_search.specs.Components.{AreComponents};
ghost use Rattle.graph_search.specs.Waves.{AreWaves};
ghost use Rattle.graph_search.specs.Leveling.{AreOwners, IsOwned, AreLow, IsRaised, IsRaisedOver, HasRisen, HaveRisen, AreLevels};

use crate::classing::write_all;
use crate::grouping::sorted;
use crate::ordering::likely_order;
use crate::searching::ends;
use crate::widening::widened;
use flow_values::{List, NoMemory};
use std::alloc::Global;

// Writes the number of its component for each number.
fn give_owners(edges: &[List<usize>], components: &[List<usize>], owners: &mut [usize])
    requires components { AreComponents edges.now components.now }
    requires size { length owners.old ≡ length edges.now }
    ensures { AreOwners edges.now components.now owners.new }
{
    for k in 0..components.len() {
        write_all(owners, ends(components, k), k);
    }
}

// The number of the component of each number.
fn owners(
    alloc: Global,
    edges: &[List<usize>],
    components: &[List<usize>],
) -> Result<Vec<usize>, NoMemory>
    requires { AreComponents edges.now components.now }
    ensures { IfOk result (λ owners. AreOwners edges.now components.now owners.items) }
{
    let mut owners = vec![in alloc; 0; edges.len()]?;
    give_owners(edges, components, owners.as_mut_slice());
    Ok(owners)
}

// Raises the level of k above that of j, where it isn't, and tells so.
fn raise_above(levels: &mut [usize], k: usize, j: usize) -> bool
    requires k { k < length levels.old }
    requires j { j < length levels.old }
    requires room { (v : ℕ) → slice_get levels.old j ≡ Some v → v < length levels.old }
    ensures { IsRaised k j levels.old levels.new result }
{
    if levels[j] < levels[k] {
        return false;
    }
    levels[k] = levels[j] + 1;
    true
}

// Raises the level of k above that of the owner of y, where it is another, and tells whether it rose.
fn raise_over(owners: &[usize], levels: &mut [usize], k: usize, y: usize) -> bool
    requires y { y < length owners.now }
    requires k { k < length levels.old }
    requires small { (j : ℕ) → slice_get owners.now y ≡ Some j → j < length levels.old }
    requires room { (j v : ℕ) → slice_get levels.old j ≡ Some v → v < length levels.old }
    ensures { IsRaisedOver owners.now k y levels.old levels.new result }
{
    let j = owners[y];
    if j == k {
        return false;
    }
    raise_above(levels, k, j)
}

// Raises the owner of x above the others to which x has an edge, and tells whether it rose.
fn raise(edges: &[List<usize>], owners: &[usize], levels: &mut [usize], x: usize) -> bool
    requires small { x < length edges.now }
    requires within { AreWithin edges.now }
    requires owned { IsOwned edges.now owners.now (length levels.old) }
    requires low { AreLow edges.now owners.now (length levels.old) levels.old }
    ensures { HasRisen edges.now owners.now x levels.old levels.new result }
{
    let k = owners[x];
    let mut rose = false;
    for y in ends(edges, x) {
        if raise_over(owners, levels, k, *y) {
            rose = true;
        }
    }
    rose
}

// Raises each level where an edge asks for it, and tells whether one rose.
fn raise_all(edges: &[List<usize>], owners: &[usize], levels: &mut [usize]) -> bool
    requires within { AreWithin edges.now }
    requires owned { IsOwned edges.now owners.now (length levels.old) }
    requires low { AreLow edges.now owners.now (length levels.old) levels.old }
    ensures { HaveRisen edges.now owners.now (length edges.now) levels.old levels.new result }
{
    let mut rose = false;
    for x in 0..edges.len() {
        if raise(edges, owners, levels, x) {
            rose = true;
        }
    }
    rose
}

// Raises levels, those of the owners of `order` first, until they stand still.
fn settle(edges: &[List<usize>], owners: &[usize], order: &[usize], levels: &mut [usize])
    requires within { AreWithin edges.now }
    requires owned { IsOwned edges.now owners.now (length levels.old) }
    requires low { AreLow edges.now owners.now (length levels.old) levels.old }
    ensures { AreLevels edges.now owners.now (length levels.old) levels.new }
{
    for x in order {
        if *x < edges.len() {
            raise(edges, owners, levels, *x);
        }
    }
    while raise_all(edges, owners, levels) {}
}

// The level of each of so many components.
fn levels(
    alloc: Global,
    edges: &[List<usize>],
    owners: &[usize],
    count: usize,
) -> Result<Vec<usize>, NoMemory>
    requires within { AreWithin edges.now }
    requires owned { IsOwned edges.now owners.now count }
    ensures { IfOk result (λ levels. AreLevels edges.now owners.now count levels.items) }
{
    let order = likely_order(alloc, edges)?;
    let mut levels = vec![in alloc; 0; count]?;
    settle(edges, owners, order.as_slice(), levels.as_mut_slice());
    Ok(levels)
}

// One more than the highest level, and 0 where there is none.
fn height(levels: &[usize]) -> usize
    requires { All (λ w. w < length levels.now) levels.now }
    ensures below { All (λ w. w < result) levels.now }
    ensures there { (w : ℕ) → w + 1 ≡ result → Has levels.now w }
{
    let mut height = 0;
    for level in levels {
        if *level >= height {
            height = *level + 1;
        }
    }
    height
}

/// The numbers of the components by wave, those of a wave rising. The wave of a component comes one
/// behind the last of those of other components on which it depends, and is the first where there
/// are none. `components` is what the call of this name gives for these edges.
/// `bench/graphs.py` measures its time.
///
/// # Errors
///
/// `NoMemory` where memory is refused.
pub fn waves(
    alloc: Global,
    components: &List<List<u32>>,
    edges: &[List<u32>],
) -> Result<List<List<u32>>, NoMemory>
    requires few { length edges.now < 2 ^ 32 }
    requires within { AreWithin edges.now }
    requires components { AreComponents edges.now components.now }
    ensures { IfOk result (λ all. AreWaves edges.now components.now all) }
{
    let wide = widened(alloc, edges)?;
    let members = widened(alloc, components.as_slice())?;
    let owners = owners(alloc, wide.as_slice(), members.as_slice())?;
    let levels = levels(alloc, wide.as_slice(), owners.as_slice(), components.len())?;
    let lists = sorted(alloc, levels.as_slice(), height(levels.as_slice()))?;
    Ok(List::from_vec(lists))
}
