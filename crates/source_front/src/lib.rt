//! What a source says by itself: its tree or its fault, its local signature, and the faults of that. Here stand its values and what they
//! mean; `source_reading` reads it.
#![tactic(auto)]

mod law;
mod parse;

pub use law::one_parse;
pub use parse::{Parse, ParseTree, SourceFault};
