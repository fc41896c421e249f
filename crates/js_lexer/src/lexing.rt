ghost use Rattle.std.specs.Prelude.{◌≡◌, ◌≤◌, ◌<◌, ◌+◌, ◌^◌, ◌++◌, ◌||◌, ◌&&◌, ◌==◌, [], length, drop, IfOk, OnOk};
ghost use Rattle.std.specs.Str.{chars, encode_utf8_all};
ghost use Rattle.js_lexer.specs.Cut.{byte_len, token_of};
ghost use Rattle.js_lexer.specs.Answers.{Answers, TextAnswers};
ghost use Rattle.js_lexer.specs.Step.{StepAnswers, IsPut, IsDecoded, begins_blank, opens_block, slash};

use crate::{LexFault, SOURCE_LIMIT};
use flow_values::{List, NoMemory, Span};
use js_token::{Punct, Token, TokenKind};
use lex_pieces::{Piece, Texts, read_bytes, read_piece};
use std::alloc::Global;

/// The tokens of a source with the bytes where they stand, in order.
///
/// # Errors
///
/// `SourceTooLong` for more than `SOURCE_LIMIT` bytes, then `NotUtf8`, then `BadToken` at the first
/// byte where no piece begins; `NoMemory` where memory is refused.
pub fn lex(alloc: Global, source: &[u8]) -> Result<List<Token>, LexFault>
    ensures { Answers source.now result }
{
    if source.len() > SOURCE_LIMIT {
        return Err(LexFault::SourceTooLong {
            len: source.len() as u64,
        });
    }
    match str::from_utf8(source) {
        Ok(text) => lex_text(alloc, text),
        Err(_) => Err(LexFault::NotUtf8),
    }
}

// The text is read by its bytes. Its characters are decoded where a piece first needs them. There is room for a token at each
// byte at once: the room that no token takes is not touched. Behind a comment that is not closed none is: its end is not
// looked for again.
#[tactic(auto, using(crate::proofs::Steps::some_left))]
fn lex_text(alloc: Global, text: &str) -> Result<List<Token>, LexFault>
    requires { length text.now < 2 ^ 32 }
    ensures { TextAnswers (chars text.now) result }
{
    let mut texts = Texts::new(alloc)?;
    let mut decoded = Vec::new(alloc);
    let mut tokens = with_room(alloc, text.len())?;
    let mut from = 0;
    let mut at = 0;
    let mut unclosed = false;
    while (at as usize) < text.len() {
        if is_blank(text, at) {
            from += 1;
            at += 1;
            continue;
        }
        if is_bare(unclosed, text, at) {
            put_slash(at, &mut tokens)?;
            from += 1;
            at += 1;
            continue;
        }
        let (len, bytes) = lex_piece(alloc, text, from, at, &mut texts, &mut decoded, &mut tokens)?;
        unclosed = is_unclosed(unclosed, text, at, len);
        from += len;
        at += bytes;
    }
    Ok(tokens)
}

// Whether the marks that begin a block's comment stand at a byte.
fn opens_block(text: &str, at: u32) -> bool
    requires { at < length text.now }
    ensures { result ≡ opens_block (drop at text.now) }
{
    begins_block(&text.as_bytes()[at as usize..])
}

fn begins_block(bytes: &[u8]) -> bool
    ensures { result ≡ opens_block bytes.now }
{
    match bytes {
        [first, next, ..] => *first == b'/' && *next == b'*',
        _ => false,
    }
}

// Whether a blank character of one byte stands at a byte.
fn is_blank(text: &str, at: u32) -> bool
    requires { at < length text.now }
    ensures { result ≡ begins_blank (drop at text.now) }
{
    begins_blank(&text.as_bytes()[at as usize..])
}

#[inline]
fn begins_blank(bytes: &[u8]) -> bool
    ensures { result ≡ begins_blank bytes.now }
{
    match bytes {
        [] => false,
        [first, ..] => *first == b' ' || *first == b'\n' || *first == b'\t' || *first == b'\r',
    }
}

// Whether the marks at a byte begin a block's comment that is not closed, where it is known whether the rest of the text closes one.
fn is_bare(unclosed: bool, text: &str, at: u32) -> bool
    requires { at < length text.now }
    ensures { result ≡ (unclosed && opens_block (drop at text.now)) }
{
    unclosed && opens_block(text, at)
}

// Whether it is known behind a piece of so many characters that nothing closes a block's comment any more.
fn is_unclosed(unclosed: bool, text: &str, at: u32, len: usize) -> bool
    requires { at < length text.now }
    ensures { result ≡ (unclosed || ((len == 1) && opens_block (drop at text.now))) }
{
    unclosed || (len == 1 && opens_block(text, at))
}

// Puts the slash of a comment that is not closed behind the tokens.
fn put_slash(at: u32, tokens: &mut List<Token>) -> Result<(), NoMemory>
    requires { at + 1 < 2 ^ 32 }
    ensures { OnOk result (tokens.new ≡ tokens.old ++ token_of at (at + 1) slash) }
{
    let span = Span {
        start: at,
        end: at + 1,
    };
    push_token(tokens, Some(TokenKind::Punct(Punct::Slash)), span)
}

// No token, with room for so many.
fn with_room(alloc: Global, count: usize) -> Result<List<Token>, NoMemory>
    ensures { IfOk result (λ tokens. tokens ≡ []) }
{
    Ok(List::from_vec(Vec::with_capacity(alloc, count)?))
}

// Reads the piece at a place of a text, whose first byte is `at`, and puts its token behind the
// others: how many characters and bytes it has. `decoded` holds the text's characters, or nothing.
fn lex_piece(
    alloc: Global,
    text: &str,
    from: usize,
    at: u32,
    texts: &mut Texts,
    decoded: &mut Vec<char>,
    tokens: &mut List<Token>,
) -> Result<(usize, u32), LexFault>
    requires known { IsDecoded text.now decoded.old.items }
    requires within { from < length (chars text.now) }
    requires before { at < length text.now }
    requires place { encode_utf8_all (drop from (chars text.now)) ≡ drop at text.now }
    requires fits { at + byte_len (drop from (chars text.now)) < 2 ^ 32 }
    ensures step { StepAnswers (drop from (chars text.now)) at tokens.old tokens.new result }
    ensures known { OnOk result (IsDecoded text.now decoded.new.items) }
{
    let told = read_bytes(texts, &text.as_bytes()[at as usize..])?;
    match told {
        Some(piece) => Ok(put_told(piece, at, tokens)?),
        None => {
            decode(alloc, text, decoded)?;
            lex_decoded(alloc, decoded, from, at, tokens)
        }
    }
}

// Puts the token of a piece whose characters are one byte each behind the others: how many
// characters and bytes it has.
fn put_told(piece: Piece, at: u32, tokens: &mut List<Token>) -> Result<(usize, u32), NoMemory>
    requires { at + piece.len < 2 ^ 32 }
    ensures { IfOk result (IsPut piece at tokens.old tokens.new) }
{
    let Piece { kind, len } = piece;
    let bytes = len as u32;
    let span = Span {
        start: at,
        end: at + bytes,
    };
    push_token(tokens, kind, span)?;
    Ok((len, bytes))
}

// Decodes a text, unless that was done.
fn decode(alloc: Global, text: &str, decoded: &mut Vec<char>) -> Result<(), NoMemory>
    requires { IsDecoded text.now decoded.old.items }
    ensures { OnOk result (decoded.new.items ≡ chars text.now) }
{
    if decoded.is_empty() {
        *decoded = text.chars().collect::<Vec<char>>(alloc)?;
    }
    Ok(())
}

// The same, over the characters of the text.
fn lex_decoded(
    alloc: Global,
    text: &[char],
    from: usize,
    at: u32,
    tokens: &mut List<Token>,
) -> Result<(usize, u32), LexFault>
    requires within { from < length text.now }
    requires fits { at + byte_len (drop from text.now) < 2 ^ 32 }
    ensures { StepAnswers (drop from text.now) at tokens.old tokens.new result }
{
    let rest = &text[from..];
    match read_piece(alloc, rest)? {
        None => Err(LexFault::BadToken { at }),
        Some(Piece { kind, len }) => {
            let bytes = utf8_len(&rest[..len]);
            let span = Span {
                start: at,
                end: at + bytes,
            };
            push_token(tokens, kind, span)?;
            Ok((len, bytes))
        }
    }
}

// Puts a token behind the others, where a piece is one.
fn push_token(tokens: &mut List<Token>, kind: Option<TokenKind>, span: Span) -> Result<(), NoMemory>
    ensures { OnOk result (tokens.new ≡ tokens.old ++ token_of span.start span.end kind) }
{
    match kind {
        None => Ok(()),
        Some(kind) => tokens.push(Token { kind, span }),
    }
}

// The number of bytes of characters in UTF-8.
#[tactic(auto, using(crate::proofs::Steps::lengths))]
fn utf8_len(text: &[char]) -> u32
    requires { byte_len text.now < 2 ^ 32 }
    ensures { result ≡ byte_len text.now }
{
    let mut len = 0;
    for c in text {
        len += c.len_utf8() as u32;
    }
    len
}
