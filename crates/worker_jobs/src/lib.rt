//! The jobs of a check, each done by one of several analysts in threads of their own: sources that are read, modules that are merged
//! together, modules that are checked.
#![tactic(auto)]

mod calls;
mod kinds;

pub use calls::{run_checks, run_fronts, run_merges};
