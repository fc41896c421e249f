//! Which modules are merged anew, and in which order.
ghost use Rattle.std.specs.Prelude.{◌≡◌, ◌<◌, ◌+◌, ◌^◌, ◌++◌, All, IfOk, OnOk, length, map, option_to_list, get_or, None};
ghost use Rattle.graph_search.specs.Reach.{IsRising};
ghost use Rattle.path_numbers.specs.affected_sizes.specs.Polls.{AreImports};
ghost use Rattle.check_phases.specs.Sourced.{AreSources, paths_in, view_in};
ghost use Rattle.recheck_merging.specs.Inner.{ArePlacesTo, placed, lists_of};
ghost use Rattle.path_numbers.specs.Sets.{paths_at};
ghost use Rattle.recheck_merging.specs.Plans.{IsPlan, IsPlanOf, AreEdgesOf, IsPlanOfNothing};

use check_phases::Sources;
use dep_lists::{components, waves};
use flow_values::{List, NoMemory};
use recheck_plan::merge_set;
use std::alloc::Global;

/// Which modules are merged anew, and in which order.
#[derive(Drop)]
pub struct MergePlan {
    /// Their numbers, rising.
    pub merged: List<u32>,
    /// For each of them the numbers of the modules that it imports.
    pub(crate) edges: Vec<List<u32>>,
    /// The components of the edges among them, by their places in `merged`.
    pub(crate) components: List<List<u32>>,
    /// The numbers of the components by waves: those of a wave lead to components of earlier waves alone.
    pub(crate) waves: List<List<u32>>,
}

impl MergePlan {
    /// How many waves there are.
    pub fn wave_count(&self) -> usize
        ensures { result ≡ length self.now.waves }
    {
        self.waves.len()
    }
}

// Puts the place of one more number.
#[tactic(auto, using(crate::proofs::Places::place_put))]
fn put_place(places: &mut Vec<Option<u32>>, numbers: &[u32], i: usize)
    requires few { length numbers.now < 2 ^ 32 }
    requires rising { IsRising numbers.now }
    requires within { All (λ x. x < length places.old.items) numbers.now }
    requires low { i < length numbers.now }
    requires places { ArePlacesTo numbers.now i places.old.items }
    ensures places { ArePlacesTo numbers.now (i + 1) places.new.items }
    ensures many { length places.new.items ≡ length places.old.items }
{
    places[numbers[i] as usize] = Some(i as u32);
}

// For each number below `count` its place among these, if it has one.
#[tactic(auto, using(crate::proofs::Places::no_places, crate::proofs::Places::low_places, crate::proofs::Places::all_places))]
fn places_of(alloc: Global, count: usize, numbers: &[u32]) -> Result<Vec<Option<u32>>, NoMemory>
    requires few { length numbers.now < 2 ^ 32 }
    requires rising { IsRising numbers.now }
    requires within { All (λ x. x < count) numbers.now }
    ensures places { IfOk result (λ places. ArePlacesTo numbers.now (length numbers.now) places.items) }
    ensures many { IfOk result (λ places. length places.items ≡ count) }
{
    let mut places = vec![in alloc; None; count]?;
    for i in 0..numbers.len() {
        put_place(&mut places, numbers, i);
    }
    Ok(places)
}

// The edges of these numbers.
#[tactic(auto, using(crate::proofs::Loops::lists_more))]
fn edges_at(alloc: Global, edges: &[List<u32>], numbers: &[u32]) -> Result<Vec<List<u32>>, NoMemory>
    requires within { All (λ x. x < length edges.now) numbers.now }
    ensures { IfOk result (λ lists. lists.items ≡ lists_of edges.now numbers.now) }
{
    let mut lists = Vec::new(alloc);
    for i in 0..numbers.len() {
        let list = List::from_slice(alloc, edges[numbers[i] as usize].as_slice())?;
        lists.push(list)?;
    }
    Ok(lists)
}

// Puts the place of a number behind others, if it has one.
fn add_place(places: &[Option<u32>], x: usize, list: &mut List<u32>) -> Result<(), NoMemory>
    requires { x < length places.now }
    ensures { OnOk result (list.new ≡ list.old ++ option_to_list (get_or places.now x None)) }
{
    match places[x] {
        Some(place) => list.push(place),
        None => Ok(()),
    }
}

// The places of some numbers, where they have one.
#[tactic(auto, using(crate::proofs::Places::placed_more))]
fn places_among(
    alloc: Global,
    places: &[Option<u32>],
    numbers: &[u32],
) -> Result<List<u32>, NoMemory>
    requires within { All (λ x. x < length places.now) numbers.now }
    ensures { IfOk result (λ list. list ≡ placed places.now numbers.now) }
{
    let mut list = List::new(alloc);
    for i in 0..numbers.len() {
        add_place(places, numbers[i] as usize, &mut list)?;
    }
    Ok(list)
}

// The edges by places, where they lead to one.
#[tactic(auto, using(crate::proofs::Loops::inner_more))]
fn placed_edges(
    alloc: Global,
    places: &[Option<u32>],
    edges: &[List<u32>],
) -> Result<Vec<List<u32>>, NoMemory>
    requires within { All (λ ys. All (λ y. y < length places.now) ys) edges.now }
    ensures { IfOk result (λ inner. inner.items ≡ map (placed places.now) edges.now) }
{
    let mut inner = Vec::new(alloc);
    for i in 0..edges.len() {
        let list = places_among(alloc, places, edges[i].as_slice())?;
        inner.push(list)?;
    }
    Ok(inner)
}

// The import edges among some modules, by places: `edges` has their edges.
#[tactic(auto, using(crate::proofs::Among::low_slots, crate::proofs::Among::few_numbers, crate::proofs::Among::among_by))]
fn edges_among(
    alloc: Global,
    sources: &Sources,
    numbers: &[u32],
    edges: &[List<u32>],
) -> Result<Vec<List<u32>>, NoMemory>
    requires few { length sources.now.root.modules < 2 ^ 32 }
    requires rising { IsRising numbers.now }
    requires within { All (λ x. x < length sources.now.root.modules) numbers.now }
    requires edges { AreEdgesOf sources.now numbers.now edges.now }
    ensures { IfOk result (λ inner. AreImports (view_in sources.now) (paths_at (paths_in sources.now) numbers.now) inner.items) }
{
    let count = sources.root.get().modules.len();
    let places = places_of(alloc, count, numbers)?;
    let slots = places.as_slice();
    let inner = placed_edges(alloc, slots, edges)?;
    Ok(inner)
}

// The plan of some modules.
#[tactic(auto, using(crate::proofs::Among::low_numbers, crate::proofs::Among::own_edges, crate::proofs::Among::few_among, crate::proofs::Among::within_among))]
fn plan_for(
    alloc: Global,
    sources: &Sources,
    edges: &[List<u32>],
    merged: List<u32>,
) -> Result<MergePlan, NoMemory>
    requires few { length sources.now.root.modules < 2 ^ 32 }
    requires edges { AreImports (view_in sources.now) (paths_in sources.now) edges.now }
    requires rising { IsRising merged }
    requires within { All (λ x. x < length sources.now.root.modules) merged }
    ensures plan { IfOk result (IsPlan sources.now) }
    ensures merged { IfOk result (λ plan. plan.merged ≡ merged) }
{
    let numbers = merged.as_slice();
    let own = edges_at(alloc, edges, numbers)?;
    let lists = own.as_slice();
    let inner = edges_among(alloc, sources, numbers, lists)?;
    let among = inner.as_slice();
    let components = components(alloc, among)?;
    let waves = waves(alloc, &components, among)?;
    Ok(MergePlan {
        merged,
        edges: own,
        components,
        waves,
    })
}

/// The plan of the modules that lead by imports to touched ones: `edges` is what `edges_of` gives for these sources. It takes time in
/// proportion to the modules, the edges and the touched numbers.
///
/// # Errors
///
/// `NoMemory` where memory is refused.
#[tactic(auto, using(crate::proofs::Among::few_imports, crate::proofs::Among::within_imports, crate::proofs::Plans::touched_low, crate::proofs::Plans::merge_rising, crate::proofs::Plans::merge_low, crate::proofs::Plans::plan_of_touched))]
pub fn plan_of(
    alloc: Global,
    sources: &Sources,
    edges: &[List<u32>],
    touched: &[u32],
) -> Result<MergePlan, NoMemory>
    requires sources { AreSources sources.now }
    requires few { length sources.now.root.modules < 2 ^ 32 }
    requires edges { AreImports (view_in sources.now) (paths_in sources.now) edges.now }
    requires touched { All (λ t. t < length sources.now.root.modules) touched.now }
    ensures { IfOk result (IsPlanOf sources.now touched.now) }
{
    let merged = merge_set(alloc, edges, touched)?;
    let plan = plan_for(alloc, sources, edges, merged)?;
    Ok(plan)
}

/// The plan where nothing is touched.
#[tactic(auto, using(crate::proofs::Plans::nothing))]
pub fn nothing_to_merge(alloc: Global) -> MergePlan
    ensures { IsPlanOfNothing result }
{
    MergePlan {
        merged: List::new(alloc),
        edges: Vec::new(alloc),
        components: List::new(alloc),
        waves: List::new(alloc),
    }
}
