//! The characters of a source: which may stand in a word, and which bytes begin one.
#![tactic(auto)]

mod bytes;
mod words;

pub use bytes::{begins_char, char_count};
pub use words::{continues_word, starts_word};
