ghost use Rattle.std.specs.Prelude.{◌≡◌, ◌≤◌, length, IfOk};
ghost use Rattle.lex_pieces.specs.Starts.{Starts};
ghost use Rattle.lex_pieces.specs.Read.{IsRead, number_piece, mark_piece};

use crate::comments::comment_len;
use crate::marks::mark_at;
use crate::numbers::number_len;
use crate::start::{Start, start_of};
use crate::strings::read_string;
use crate::words::{spelled, word_len};
use flow_values::NoMemory;
use js_token::TokenKind;
use std::alloc::Global;

/// A piece of a source.
#[derive(Debug, PartialEq, Eq, Drop)]
pub struct Piece {
    /// The token that the piece is, or `None` for a blank.
    pub kind: Option<TokenKind>,
    /// The number of its characters.
    pub len: usize,
}

/// Reads the longest piece at the front of a text, or `None` where no front of it is a piece.
///
/// # Errors
///
/// `NoMemory` where memory is refused.
#[tactic(auto, using(crate::proofs::Fronts::at_front))]
pub fn read_piece(alloc: Global, text: &[char]) -> Result<Option<Piece>, NoMemory>
    ensures { IfOk result (IsRead text.now) }
{
    match text {
        [] => Ok(None),
        [first, ..] => match start_of(*first) {
            Start::Blank => Ok(read_blank(text)),
            Start::Word => read_word(alloc, text),
            Start::Digit => read_digit(alloc, text),
            Start::Quote => read_quote(alloc, text),
            Start::Dot => read_dot(alloc, text),
            Start::Slash => Ok(read_slash(text)),
            Start::Mark => Ok(read_mark(text)),
        },
    }
}

#[tactic(auto, using(crate::proofs::Fronts::blank_read))]
fn read_blank(text: &[char]) -> Option<Piece>
    requires { Starts Start.Blank text.now }
    ensures { IsRead text.now result }
{
    Some(Piece { kind: None, len: 1 })
}

#[tactic(auto, using(crate::proofs::Fronts::word_read))]
fn read_word(alloc: Global, text: &[char]) -> Result<Option<Piece>, NoMemory>
    requires { Starts Start.Word text.now }
    ensures { IfOk result (IsRead text.now) }
{
    let len = word_len(text);
    let name = spelled(alloc, &text[..len])?;
    Ok(Some(Piece {
        kind: Some(TokenKind::Name(name)),
        len,
    }))
}

#[tactic(auto, using(crate::proofs::Fronts::digit_read))]
fn read_digit(alloc: Global, text: &[char]) -> Result<Option<Piece>, NoMemory>
    requires { Starts Start.Digit text.now }
    ensures { IfOk result (IsRead text.now) }
{
    let len = number_len(text);
    if len == 0 {
        Ok(None)
    } else {
        Ok(Some(number_piece(alloc, text, len)?))
    }
}

#[tactic(auto, using(crate::proofs::Fronts::quote_read))]
fn read_quote(alloc: Global, text: &[char]) -> Result<Option<Piece>, NoMemory>
    requires { Starts Start.Quote text.now }
    ensures { IfOk result (IsRead text.now) }
{
    match read_string(alloc, text)? {
        None => Ok(None),
        Some((value, len)) => Ok(Some(Piece {
            kind: Some(TokenKind::Str(value)),
            len,
        })),
    }
}

// A number, and a mark where there is none.
#[tactic(auto, using(crate::proofs::Fronts::dot_read))]
fn read_dot(alloc: Global, text: &[char]) -> Result<Option<Piece>, NoMemory>
    requires { Starts Start.Dot text.now }
    ensures { IfOk result (IsRead text.now) }
{
    let len = number_len(text);
    if len == 0 {
        Ok(mark_piece(text))
    } else {
        Ok(Some(number_piece(alloc, text, len)?))
    }
}

// A comment, and a mark where there is none.
#[tactic(auto, using(crate::proofs::Fronts::slash_read))]
fn read_slash(text: &[char]) -> Option<Piece>
    requires { Starts Start.Slash text.now }
    ensures { IsRead text.now result }
{
    match comment_len(text) {
        Some(len) => Some(Piece { kind: None, len }),
        None => mark_piece(text),
    }
}

#[tactic(auto, using(crate::proofs::Fronts::mark_read))]
fn read_mark(text: &[char]) -> Option<Piece>
    requires { Starts Start.Mark text.now }
    ensures { IsRead text.now result }
{
    mark_piece(text)
}

fn number_piece(alloc: Global, text: &[char], len: usize) -> Result<Piece, NoMemory>
    requires { len ≤ length text.now }
    ensures { IfOk result (λ piece. piece ≡ number_piece text.now len) }
{
    let number = spelled(alloc, &text[..len])?;
    Ok(Piece {
        kind: Some(TokenKind::Number(number)),
        len,
    })
}

fn mark_piece(text: &[char]) -> Option<Piece>
    ensures { result ≡ mark_piece text.now }
{
    match mark_at(text) {
        Some((mark, len)) => Some(Piece {
            kind: Some(TokenKind::Punct(mark)),
            len,
        }),
        None => None,
    }
}
