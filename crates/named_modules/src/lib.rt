//! The modules that a signature names.
#![tactic(auto)]

mod naming;

pub use naming::add_named;
