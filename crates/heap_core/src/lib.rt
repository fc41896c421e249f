//! The two-version heap: what its writer and its readers promise, and the heap of one thread.
#![tactic(auto)]

pub mod laws;
mod plain;
mod traits;
pub mod transactions;

pub use plain::{PlainHeap, PlainReader};
pub use traits::{HeapReader, HeapWriter, Program};
