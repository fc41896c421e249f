//! The running heap: a writer commits whole states while lanes read, each of them one version, and no lock stands
//! between them. All of it is steps on one table of words and slots, under one rule that holds between any two steps.
#![tactic(auto)]

mod board;
mod heap;
pub mod laws;
mod plays;
mod steps;

pub use board::{
    Board, Entry, Fill, Gate, Hold, Note, Place, Plan, Reach, Role, Terms, Top, Visit,
};
pub use heap::{Core, Heap, Lane, Pinned, Snapshot, Writer, Writing, open};
