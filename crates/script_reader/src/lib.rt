//! The lines of a script, from a source that gives its bytes in pieces of any size.
#![tactic(auto)]

mod reader;
mod window;

pub use reader::{LineReader, ReadFault};
