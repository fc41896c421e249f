//! The names in a type, and types with their names replaced.
#![tactic(auto)]

pub fn nothing() {}
