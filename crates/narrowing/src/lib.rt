//! Narrowing a type by a test, as `flow_facts` says it.
#![tactic(auto)]

mod cells;
mod rules;

pub use rules::narrow;
