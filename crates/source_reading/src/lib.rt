//! From a source's bytes to what it says by itself: its tree or its fault, its local signature, and the faults of that.
#![tactic(auto)]

mod reading;

pub use reading::front;
