//! A folder that is made up: modules that import each other, and ten edits.
#![tactic(auto)]

mod draws;
mod generating;
mod modules;

pub use generating::{Generated, generate};
