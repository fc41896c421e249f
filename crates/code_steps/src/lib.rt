//! The steps of reading expressions and statements, token by token: each says the same as the machine's of `code_law`.
#![tactic(auto)]

mod parens;
mod steps;
mod types;

pub use steps::step;
pub use types::{after_type, takes_function};
