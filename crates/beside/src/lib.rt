//! A recheck over the running heap, with what is asked of it answered beside: each lane on a thread of its own, from the version that it
//! has pinned. A server is such a heap with its writer and its lanes. It hands on what rechecks and asks are said by.
#![tactic(auto)]

mod asking;
mod rechecking;
mod serving;
mod together;

pub use asking::Told;
pub use entity_heap::{Heap, Lane, Writer, open};
pub use recheck_run::{Outcome, affected_sizes};
pub use request_core::{answers_law, place_analyst};
pub use serving::Server;
pub use together::beside;
