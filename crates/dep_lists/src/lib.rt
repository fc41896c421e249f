//! Which modules the specifiers of a module find; and of modules that lead to others by their numbers, the components and their
//! waves.
#![tactic(auto)]

mod folder;
mod resolving;

pub use graph_search::{components, waves};
pub use resolving::resolve;
