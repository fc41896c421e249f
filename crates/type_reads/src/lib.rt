//! The names in the trees of types, and their faults.
#![tactic(auto)]

mod reading;

pub use reading::{read_annotation, read_type};
