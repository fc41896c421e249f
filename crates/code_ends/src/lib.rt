//! What is whole: statements, blocks, declarations, functions and values, each given to the form that waits for it. Each call says the same
//! as the machine of `code_law`.
#![tactic(auto)]

mod bodies;
mod items;
mod simples;
mod statements;
mod values;

pub use bodies::give_block;
pub use simples::end_simple;
pub use statements::push_statement;
pub use values::{close_bottom, close_branch, close_declared, close_if_test, close_loop_test};
