//! Who tells the type at a place of a module, and what such a type depends on.
#![tactic(auto)]

ghost use Rattle.place_analyst.specs.Law.{TypesAreRight};

mod analyst;

pub use analyst::{AnalystMaker, PlaceAnalyst};
pub use check_job;
pub use check_job::source_front;

/// The type at a place depends on the merged signatures of other modules where its module reaches alone. It is a law, and does
/// nothing.
#[tactic(auto, using(crate::proofs::Right::types_right))]
pub fn types_are_right()
    ensures { TypesAreRight }
{}
