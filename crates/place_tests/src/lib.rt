//! Literals, places, and the tests that a comparison makes of a place.
#![tactic(auto)]

mod comparison;
mod literal;
mod place;
mod sides;

pub use comparison::Comparison;
pub use literal::{literal_type, number_type};
pub use place::{place_in, property_place, step_place, variable_in, variable_place};
pub use sides::compared;
