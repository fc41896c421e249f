ghost use Rattle.std.specs.Prelude.{◌≡◌};
ghost use Rattle.lex_pieces.specs.Starts.{start_of};

use crate::characters::{is_blank, is_quote};
use source_characters::starts_word;

/// What a piece that begins with a character can be.
#[derive(Clone, Copy, Debug, PartialEq, Eq)]
pub enum Start {
    /// A blank character.
    Blank,
    /// A word.
    Word,
    /// A number.
    Digit,
    /// A string.
    Quote,
    /// A number or a mark.
    Dot,
    /// A comment or a mark.
    Slash,
    /// A mark, or nothing.
    Mark,
}

#[tactic(auto, unfolding(crate::specs::Starts::start_of))]
pub fn start_of(c: char) -> Start
    ensures { result ≡ start_of c }
{
    if is_blank(c) {
        Start::Blank
    } else if starts_word(c) {
        Start::Word
    } else if c.is_ascii_digit() {
        Start::Digit
    } else if is_quote(c) {
        Start::Quote
    } else if c == '.' {
        Start::Dot
    } else if c == '/' {
        Start::Slash
    } else {
        Start::Mark
    }
}
