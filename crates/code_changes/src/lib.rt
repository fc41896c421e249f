//! What code may change: the variables and properties that are assigned in it, and its calls.
#![tactic(auto)]

mod change;
mod changes;
mod expressions;
mod names;
mod statements;
mod walk;

pub use change::{Change, inner_names, killed_by};
pub use changes::{changes_of_expr, changes_of_function, changes_of_simple};
