//! How expressions, statements and function bodies are read: their types, the facts between them, and their faults. What each
//! call does is the definition of `typing`.
#![tactic(auto)]

mod bodies;
mod changes;
mod expressions;
mod functions;
mod literals;
mod operands;
mod postfixes;
mod statements;

pub use bodies::{read_block, read_function};
pub use expressions::read;
pub use statements::{read_declaration, read_simple};
