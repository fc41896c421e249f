//! Chains of operators: what joins a whole expression to a further operand or branch, and what the forms become that end with it. Each
//! says the same as the ladder of `code_law`.
#![tactic(auto)]

mod asks;
mod chains;
mod ends;

pub use asks::ask;
pub use chains::join;
pub use ends::{end_chain, end_operator, end_tail};
