//! The pure world that every heap is a picture of: whole states, the events that lead from one to the next, and the
//! laws that a heap's calls are such events.
#![tactic(auto)]

pub mod laws;
mod world;

pub use world::{Event, World};
