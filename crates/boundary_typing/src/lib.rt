//! The types that a module's boundary tells: those of annotations, and those that an initialiser has
//! by its form alone.
#![tactic(auto)]

mod signing;
mod telling;

pub use signing::function_type;
pub use telling::{declared_type, value_type};
