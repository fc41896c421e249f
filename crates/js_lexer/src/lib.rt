//! The tokens of a source: the cut into the longest pieces, or the first byte where no piece begins.
#![tactic(auto)]

mod fault;
mod law;
mod lexing;

pub use fault::LexFault;
pub use law::one_answer;
pub use lexing::lex;

/// The largest number of bytes of a source.
pub const SOURCE_LIMIT: usize = 1_048_576;
