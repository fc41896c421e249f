//! Tokens with their places, or why a source has none, by the language's rules and by ECMAScript's published syntax: as many sources
//! that are refused as are taken.
use crate::marks::{marked, source_in};
use flow_values::NoMemory;
use js_lexer::{LexFault, lex};
use js_token::{Token, TokenKind};
use std::alloc::Global;
use std::io;

// A token: its kind, its text (of a string its value), and its place.
fn add_token(
    alloc: Global,
    out: &mut String,
    source: &[u8],
    token: &Token,
) -> Result<(), NoMemory> {
    let (start, end) = (token.span.start, token.span.end);
    let (kind, bytes) = match &token.kind {
        TokenKind::Name(text) => ("name", text.as_bytes()),
        TokenKind::Number(text) => ("number", text.as_bytes()),
        TokenKind::Str(text) => ("string", text.as_bytes()),
        TokenKind::Punct(_) => {
            let at = start as usize..end as usize;
            ("mark", source.get(at).unwrap_or(b"".as_slice()))
        }
    };
    let text = marked(alloc, str::from_utf8(bytes).unwrap_or("no text"))?;
    write!(out, "{kind} {text} {start}..{end}")?;
    Ok(())
}

fn add_tokens(
    alloc: Global,
    out: &mut String,
    source: &[u8],
    tokens: &[Token],
) -> Result<(), NoMemory> {
    if tokens.is_empty() {
        out.push_str("none")?;
    }
    let mut between = "";
    for token in tokens {
        out.push_str(between)?;
        add_token(alloc, out, source, token)?;
        between = " ¦ ";
    }
    Ok(())
}

// The tokens of a line's source, or its fault.
fn answer(alloc: Global, line: &str) -> Result<String, NoMemory> {
    let source = source_in(alloc, line)?;
    let mut out = String::new(alloc);
    match lex(alloc, source.as_slice()) {
        Ok(tokens) => add_tokens(alloc, &mut out, source.as_slice(), tokens.as_slice())?,
        Err(LexFault::BadToken { at }) => write!(out, "bad-token {at}")?,
        Err(LexFault::NotUtf8) => out.push_str("not-utf8")?,
        Err(LexFault::SourceTooLong { len }) => write!(out, "source-too-long {len}")?,
        Err(LexFault::NoMemory) => return Err(NoMemory),
    }
    Ok(out)
}

/// Prints a line, a TAB and the tokens of its source.
pub(crate) fn report(rt: &impl Print, alloc: Global, line: &str) -> io::Result<()> {
    match answer(alloc, line) {
        Ok(text) => println!(rt; "{line}\t{text}"),
        Err(NoMemory) => println!(rt; "no memory"),
    }
}
