// How deep the tokens nest.
ghost use Rattle.std.specs.Prelude.{◌≡◌, OnOk, codes, length};
ghost use Rattle.std.specs.Str.{bytes_eq};
ghost use Rattle.js_grammar.specs.Nesting.{close_bracket, close_parts as closed_parts, after_word as worded, marked, closes_brace, nest as nest_token, no_nest, height as height_of, is_deep};
ghost use Rattle.type_parser.specs.Nests.{opened_view, nest_view};

use flow_values::NoMemory;
use js_token::{Punct, TokenKind};
use std::alloc::Global;

/// The entries that a type may leave open.
pub const MAX_NESTING: usize = 200;

/// What the tokens so far leave open, the last at the end: true for a bracket, false for `=>`, `?` and `<`; and whether the
/// last token is `}`.
#[derive(Drop)]
pub struct Nesting {
    pub opened: Vec<bool>,
    pub after_brace: bool,
}

/// Closes up to and with the last bracket.
#[tactic(auto, using(crate::proofs::Nests::nests))]
fn close_last(opened: &mut Vec<bool>)
    ensures { opened_view opened.new.items ≡ close_bracket (opened_view opened.old.items) }
{
    'outwards: while let Some(bracket) = opened.pop() {
        if bracket {
            return;
        }
    }
}

/// Closes what is above the last bracket.
#[tactic(auto, using(crate::proofs::Nests::nests))]
fn close_parts(opened: &mut Vec<bool>) -> Result<(), NoMemory>
    ensures { OnOk result (opened_view opened.new.items ≡ closed_parts (opened_view opened.old.items)) }
{
    'outwards: while let Some(bracket) = opened.pop() {
        if bracket {
            opened.push(true)?;
            return Ok(());
        }
    }
    Ok(())
}

/// Closes what a word closes.
#[tactic(auto, using(crate::proofs::Nests::nests))]
fn after_word(opened: &mut Vec<bool>, after_brace: bool, word: &[u8]) -> Result<(), NoMemory>
    ensures { OnOk result (opened_view opened.new.items ≡ worded (opened_view opened.old.items) after_brace (bytes_eq word.now (codes "as"))) }
{
    if after_brace {
        if word != b"as".as_slice() {
            close_parts(opened)?;
        }
    }
    Ok(())
}

/// Opens an entry, or closes some, as a mark does.
#[tactic(auto, using(crate::proofs::Nests::nests))]
fn after_mark(opened: &mut Vec<bool>, mark: Punct) -> Result<(), NoMemory>
    ensures { OnOk result (opened_view opened.new.items ≡ marked (opened_view opened.old.items) mark) }
{
    match mark {
        Punct::OpenParen | Punct::OpenBracket | Punct::OpenBrace => opened.push(true)?,
        Punct::Arrow | Punct::Question | Punct::LessThan => opened.push(false)?,
        Punct::CloseParen | Punct::CloseBracket | Punct::CloseBrace => close_last(opened),
        Punct::Comma | Punct::Semicolon => close_parts(opened)?,
        _ => {}
    }
    Ok(())
}

impl Nesting {
    /// Nothing is open.
    #[tactic(auto, using(crate::proofs::Nests::nests))]
    pub fn new(alloc: Global) -> Nesting
        ensures { nest_view result ≡ no_nest }
    {
        Nesting {
            opened: Vec::new(alloc),
            after_brace: false,
        }
    }

    /// Takes a token.
    ///
    /// # Errors
    ///
    /// `NoMemory` where memory is refused.
    #[tactic(auto, using(crate::proofs::Nests::nests))]
    pub fn take(&mut self, token: &TokenKind) -> Result<(), NoMemory>
        ensures { OnOk result (nest_view self.new ≡ nest_token (nest_view self.old) token.now) }
    {
        match token {
            TokenKind::Punct(mark) => {
                after_mark(&mut self.opened, *mark)?;
                self.after_brace = ends_brace(*mark);
            }
            TokenKind::Name(word) => {
                after_word(&mut self.opened, self.after_brace, word.as_bytes())?;
                self.after_brace = false;
            }
            _ => self.after_brace = false,
        }
        Ok(())
    }

    /// Whether more is open than a type may leave.
    #[tactic(auto, using(crate::proofs::Nests::heights))]
    pub fn is_deep(&self) -> bool
        ensures { result ≡ is_deep (nest_view self.now) }
    {
        self.opened.len() > MAX_NESTING
    }
}

/// Whether a mark is `}`.
fn ends_brace(mark: Punct) -> bool
    ensures { result ≡ closes_brace mark }
{
    match mark {
        Punct::CloseBrace => true,
        _ => false,
    }
}
