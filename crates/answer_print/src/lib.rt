//! What is printed of an answer.
#![tactic(auto)]

mod lines;
mod printing;
mod rows;

pub use printing::print_answer;
