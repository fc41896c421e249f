//! The pieces of a source: blanks, words, numbers, strings and marks, each read where it begins.
#![tactic(auto)]

mod bytes;
mod characters;
mod comments;
mod escapes;
mod marks;
mod numbers;
mod piece;
mod start;
mod strings;
mod texts;
mod words;

pub use bytes::read_bytes;
pub use piece::{Piece, read_piece};
pub use texts::Texts;
