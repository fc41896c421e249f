//! What expressions and targets give once their parts were read: operators, properties, elements and calls, and what is assigned.
//! Nothing here looks at facts.
#![tactic(auto)]

mod goals;
mod members;
mod operators;
mod tokens;

pub use goals::{Goal, Target, ask_each, element_goal, property_goal, variable_goal};
pub use members::{Given, called, element, property};
pub use operators::{ask_number, operator_type};
pub use tokens::{is_const, next};
