//! What a module says to others by itself: its local signature, and the faults of it.
#![tactic(auto)]

mod binding;
mod exporting;
mod extracting;
mod scope;
mod telling;

pub use extracting::{broken_signature, extract};
