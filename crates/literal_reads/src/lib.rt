//! What object and array literals are read against, and their types.
#![tactic(auto)]

mod candidate;
mod choosing;
mod elements;
mod entries;
mod types;

pub use candidate::Candidate;
pub use choosing::candidate_for;
pub use elements::{Elements, elements_for};
pub use entries::{Entries, Entry};
pub use types::{array_type, object_type};
