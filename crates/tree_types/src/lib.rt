//! The type that a tree of a type stands for.
#![tactic(auto)]

pub fn nothing() {}
