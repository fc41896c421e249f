//! The analyst of the language: it reads, merges and checks by the crates that do each, and tells types at places.
#![tactic(auto)]

mod answering;
mod making;
mod placing;

pub use answering::FlowAnalyst;
pub use making::FlowAnalysts;
