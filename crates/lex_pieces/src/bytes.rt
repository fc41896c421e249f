//! Pieces that the bytes of a source tell: each of their characters is ASCII, and so is the byte that shows their end.
ghost use Rattle.std.specs.Prelude.{◌≡◌, ◌≤◌, true, length, drop, IfOk, IfSome, IsTrue};
ghost use Rattle.std.specs.List.{list_all, prefix_len};
ghost use Rattle.std.specs.Char.{is_ascii_digit};
ghost use Rattle.lex_pieces.specs.Bytes.{IsTold, Begins, is_ascii, is_word_byte, ends_told, front_is_ascii, stops_whole, ends_plain, is_plain_byte, is_line_byte, line_ends, mark_alone, mark_told};
ghost use Rattle.lex_pieces.specs.Comments.{closes, closed_len};
ghost use Rattle.lex_pieces.specs.Escapes.{begins_with};
ghost use Rattle.lex_pieces.specs.Strings.{starts_with_digit};
ghost use Rattle.lex_pieces.specs.Marks.{mark_at};

use crate::marks::{longest_of_three, longest_of_two, mark_of};
use crate::piece::Piece;
use crate::start::{Start, start_of};
use crate::texts::Texts;
use flow_values::NoMemory;
use js_token::{Punct, TokenKind, is_whole};
use source_characters::continues_word;

/// Reads the longest piece at the front of a text in UTF-8 where its bytes tell it, and each of its
/// characters is one byte. `None` where the text's characters must be read.
///
/// # Errors
///
/// `NoMemory` where memory is refused.
pub fn read_bytes(texts: &mut Texts, bytes: &[u8]) -> Result<Option<Piece>, NoMemory>
    ensures { IfOk result (IsTold bytes.now) }
{
    match bytes {
        [] => Ok(None),
        [first, ..] => {
            if !first.is_ascii() {
                return Ok(None);
            }
            match start_of(char::from(*first)) {
                Start::Blank => Ok(tell_blank(bytes)),
                Start::Word => tell_word(texts, bytes),
                Start::Digit => tell_whole(texts, bytes),
                Start::Quote => tell_string(texts, bytes),
                Start::Dot => Ok(tell_dot(bytes)),
                Start::Slash => Ok(tell_slash(bytes)),
                Start::Mark => Ok(tell_mark(bytes)),
            }
        }
    }
}

#[tactic(auto, using(crate::proofs::ByteLemmas::blank_told))]
fn tell_blank(bytes: &[u8]) -> Option<Piece>
    requires { Begins Start.Blank bytes.now }
    ensures { IsTold bytes.now result }
{
    Some(Piece { kind: None, len: 1 })
}

#[tactic(auto, using(crate::proofs::ByteLemmas::word_told))]
fn tell_word(texts: &mut Texts, bytes: &[u8]) -> Result<Option<Piece>, NoMemory>
    requires { Begins Start.Word bytes.now }
    ensures { IfOk result (IsTold bytes.now) }
{
    let len = word_bytes(bytes);
    if !ends_told(&bytes[len..]) {
        return Ok(None);
    }
    let name = texts.text(&bytes[..len])?;
    Ok(Some(Piece {
        kind: Some(TokenKind::Name(name)),
        len,
    }))
}

// How many ASCII characters at the front may go on a word.
fn word_bytes(bytes: &[u8]) -> usize
    ensures value { result ≡ prefix_len is_word_byte bytes.now }
    ensures within { result ≤ length bytes.now }
{
    bytes.iter().take_while(|b| is_word_byte(**b)).count()
}

fn is_word_byte(b: u8) -> bool
    ensures { result ≡ is_word_byte b }
{
    b.is_ascii() && continues_word(char::from(b))
}

// Whether ASCII or nothing follows.
fn ends_told(bytes: &[u8]) -> bool
    ensures { result ≡ ends_told bytes.now }
{
    match bytes {
        [] => true,
        [next, ..] => next.is_ascii(),
    }
}

// A whole number that is not longer than its digits.
#[tactic(auto, using(crate::proofs::ByteLemmas::whole_told))]
fn tell_whole(texts: &mut Texts, bytes: &[u8]) -> Result<Option<Piece>, NoMemory>
    requires { Begins Start.Digit bytes.now }
    ensures { IfOk result (IsTold bytes.now) }
{
    let len = digit_bytes(bytes);
    if !is_whole(&bytes[..len]) || !stops_whole(&bytes[len..]) {
        return Ok(None);
    }
    let number = texts.text(&bytes[..len])?;
    Ok(Some(Piece {
        kind: Some(TokenKind::Number(number)),
        len,
    }))
}

fn digit_bytes(bytes: &[u8]) -> usize
    ensures value { result ≡ prefix_len is_ascii_digit bytes.now }
    ensures within { result ≤ length bytes.now }
{
    bytes.iter().take_while(|b| b.is_ascii_digit()).count()
}

// Whether neither a digit, a dot nor what goes on a word follows.
fn stops_whole(bytes: &[u8]) -> bool
    ensures { result ≡ stops_whole bytes.now }
{
    match bytes {
        [] => true,
        [next, ..] => {
            next.is_ascii()
                && *next != b'.'
                && !(next.is_ascii_digit() || continues_word(char::from(*next)))
        }
    }
}

// A string with neither an escape nor a character beyond ASCII.
#[tactic(auto, using(crate::proofs::ByteLemmas::string_told))]
fn tell_string(texts: &mut Texts, bytes: &[u8]) -> Result<Option<Piece>, NoMemory>
    requires { Begins Start.Quote bytes.now }
    ensures { IfOk result (IsTold bytes.now) }
{
    match bytes {
        [] => Ok(None),
        [quote, rest @ ..] => {
            let len = plain_bytes(*quote, rest);
            if !begins_with_byte(*quote, &rest[len..]) {
                return Ok(None);
            }
            let value = texts.text(&rest[..len])?;
            Ok(Some(Piece {
                kind: Some(TokenKind::Str(value)),
                len: len + 2,
            }))
        }
    }
}

// How many ASCII characters at the front stand for themselves in a string.
fn plain_bytes(quote: u8, bytes: &[u8]) -> usize
    ensures value { result ≡ prefix_len (is_plain_byte quote) bytes.now }
    ensures within { result ≤ length bytes.now }
{
    bytes
        .iter()
        .take_while(|b| is_plain_byte(quote, **b))
        .count()
}

fn is_plain_byte(quote: u8, b: u8) -> bool
    ensures { result ≡ is_plain_byte quote b }
{
    b.is_ascii() && !ends_plain(quote, b)
}

fn ends_plain(quote: u8, b: u8) -> bool
    ensures { result ≡ ends_plain quote b }
{
    b == quote || b == b'\\' || b == b'\n' || b == b'\r'
}

fn begins_with_byte(c: u8, bytes: &[u8]) -> bool
    ensures { result ≡ begins_with c bytes.now }
{
    match bytes {
        [] => false,
        [first, ..] => *first == c,
    }
}

// A dot that no digit follows, or three dots.
#[tactic(auto, using(crate::proofs::ByteLemmas::dot_told))]
fn tell_dot(bytes: &[u8]) -> Option<Piece>
    requires { Begins Start.Dot bytes.now }
    ensures { IsTold bytes.now result }
{
    match bytes {
        [] => None,
        [_, rest @ ..] => if starts_with_digit(rest) {
            None
        } else {
            mark_told(bytes)
        },
    }
}

fn starts_with_digit(bytes: &[u8]) -> bool
    ensures { result ≡ starts_with_digit bytes.now }
{
    match bytes {
        [] => false,
        [first, ..] => first.is_ascii_digit(),
    }
}

// A comment, or a mark.
#[tactic(auto, using(crate::proofs::ByteLemmas::slash_tells))]
fn tell_slash(bytes: &[u8]) -> Option<Piece>
    requires { Begins Start.Slash bytes.now }
    ensures { IsTold bytes.now result }
{
    match bytes {
        [] => None,
        [_, rest @ ..] => {
            if begins_with_byte(b'/', rest) {
                let len = line_bytes(&rest[1..]);
                if line_ends(&rest[1..][len..]) {
                    Some(Piece {
                        kind: None,
                        len: len + 2,
                    })
                } else {
                    None
                }
            } else if begins_with_byte(b'*', rest) {
                tell_block(bytes)
            } else {
                mark_told(bytes)
            }
        }
    }
}

// A comment of ASCII that is closed.
#[tactic(auto, using(crate::proofs::ByteLemmas::block_tells))]
fn tell_block(bytes: &[u8]) -> Option<Piece>
    requires slash { Begins Start.Slash bytes.now }
    requires star { begins_with 42 (drop 1 bytes.now) ≡ true }
    ensures { IsTold bytes.now result }
{
    let block = &bytes[2..];
    match closed_bytes(block) {
        None => None,
        Some(len) => {
            if are_ascii(&block[..len]) {
                Some(Piece {
                    kind: None,
                    len: len + 2,
                })
            } else {
                None
            }
        }
    }
}

// Through the first `*/`.
#[tactic(auto, using(crate::proofs::Closing::closing))]
fn closed_bytes(bytes: &[u8]) -> Option<usize>
    ensures value { result ≡ closed_len bytes.now }
    ensures within { IfSome result (λ len. len ≤ length bytes.now) }
{
    for at in 0..bytes.len() {
        if closes(&bytes[at..]) {
            return Some(at + 2);
        }
    }
    None
}

fn closes(bytes: &[u8]) -> bool
    ensures value { result ≡ closes bytes.now }
    ensures within { IsTrue result → 2 ≤ length bytes.now }
{
    match bytes {
        [first, next, ..] => *first == b'*' && *next == b'/',
        _ => false,
    }
}

fn are_ascii(bytes: &[u8]) -> bool
    ensures { result ≡ list_all is_ascii bytes.now }
{
    bytes.iter().all(|b| b.is_ascii())
}

// How many ASCII characters stand before the line's end.
fn line_bytes(bytes: &[u8]) -> usize
    ensures value { result ≡ prefix_len is_line_byte bytes.now }
    ensures within { result ≤ length bytes.now }
{
    bytes
        .iter()
        .take_while(|b| b.is_ascii() && **b != b'\n')
        .count()
}

fn line_ends(bytes: &[u8]) -> bool
    ensures { result ≡ line_ends bytes.now }
{
    match bytes {
        [] => true,
        [first, ..] => *first == b'\n',
    }
}

#[tactic(auto, using(crate::proofs::ByteLemmas::mark_tells))]
fn tell_mark(bytes: &[u8]) -> Option<Piece>
    requires { Begins Start.Mark bytes.now }
    ensures { IsTold bytes.now result }
{
    match bytes {
        [] => None,
        [first, ..] => match mark_alone(*first) {
            Some(mark) => Some(Piece {
                kind: Some(TokenKind::Punct(mark)),
                len: 1,
            }),
            None => mark_told(bytes),
        },
    }
}

// The mark that begins with this character, where no other one does.
#[inline]
fn mark_alone(a: u8) -> Option<Punct>
    ensures { result ≡ mark_alone a }
{
    match a {
        b'{' => Some(Punct::OpenBrace),
        b'}' => Some(Punct::CloseBrace),
        b'(' => Some(Punct::OpenParen),
        b')' => Some(Punct::CloseParen),
        b'[' => Some(Punct::OpenBracket),
        b']' => Some(Punct::CloseBracket),
        b',' => Some(Punct::Comma),
        b';' => Some(Punct::Semicolon),
        b':' => Some(Punct::Colon),
        b'%' => Some(Punct::Percent),
        _ => None,
    }
}

// The mark at the front, where ASCII alone tells it.
#[inline]
fn mark_told(bytes: &[u8]) -> Option<Piece>
    ensures { result ≡ mark_told bytes.now }
{
    if !front_is_ascii(bytes) {
        return None;
    }
    match mark_in(bytes) {
        Some((mark, len)) => Some(Piece {
            kind: Some(TokenKind::Punct(mark)),
            len,
        }),
        None => None,
    }
}

#[inline]
fn front_is_ascii(bytes: &[u8]) -> bool
    ensures { result ≡ front_is_ascii bytes.now }
{
    match bytes {
        [] => true,
        [a] => a.is_ascii(),
        [a, b] => a.is_ascii() && b.is_ascii(),
        [a, b, c, ..] => a.is_ascii() && b.is_ascii() && c.is_ascii(),
    }
}

// The longest mark at the front, read as if each byte were a character.
#[inline]
fn mark_in(bytes: &[u8]) -> Option<(Punct, usize)>
    ensures { result ≡ mark_at bytes.now }
{
    match bytes {
        [] => None,
        [a] => mark_of(char::from(*a)),
        [a, b] => longest_of_two(char::from(*a), char::from(*b)),
        [a, b, c, ..] => longest_of_three(char::from(*a), char::from(*b), char::from(*c)),
    }
}
