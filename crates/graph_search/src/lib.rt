//! Searches of graphs over numbers: number x has an edge to each number in `edges[x]`.
#![tactic(auto)]

mod bounds;
mod classing;
mod cycles;
mod grouping;
mod laws;
mod leveling;
mod ordering;
mod reaching;
mod reversing;
mod searching;
mod widening;

pub use bounds::are_within;
pub use cycles::mark_cycles;
pub use grouping::components;
pub use laws::{one_list_of_components, one_list_of_waves};
pub use leveling::waves;
pub use reaching::reach;
