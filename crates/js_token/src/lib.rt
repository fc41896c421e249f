//! The tokens of a source, the marks and the reserved words.
#![tactic(auto)]

mod punct;
mod token;
mod words;

pub use punct::Punct;
pub use token::{Token, TokenKind};
pub use words::{is_reserved, is_whole};
