//! The dependency list of a module.
#![tactic(auto)]

mod listing;

pub use listing::deps_of;
