//! What the loops and blocks of code may change, found by one walk and kept in a tree that stands beside the code's.
#![tactic(auto)]

mod distinct;
mod leaves;
mod own_names;
mod plan;
mod plans;

pub use plan::{Plan, part};
pub use plans::{plan_of_loop, plan_of_statements};
