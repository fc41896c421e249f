// From a source to what it says by itself.
ghost use Rattle.std.specs.Prelude.{◌≡◌, ℕ, ◌<◌, ◌^◌, List, length, map, Ok, IfOk};
ghost use Rattle.js_lexer.specs.Answers.{Answers};
ghost use Rattle.js_tree.specs.View.{module_view};
ghost use Rattle.source_front.specs.Front.{HasTree, HasFault, IsParse, token_start};

use flow_values::{List, NoMemory, Shared, Span};
use js_lexer::{LexFault, lex};
use js_parser::read_module;
use js_token::Token;
use js_tree::Module;
use sig_extract::{broken_signature, extract};
use source_front::{Parse, ParseTree, SourceFault};
use std::alloc::Global;
use type_parser::ParseFault;

// The spans of tokens, in order.
fn spans_of(alloc: Global, tokens: &[Token]) -> Result<List<Span>, NoMemory>
    ensures { IfOk result (λ spans. spans ≡ map (λ t. t.span) tokens.now) }
{
    let mut spans = List::new(alloc);
    for i in 0..tokens.len() {
        spans.push(tokens[i].span)?;
    }
    Ok(spans)
}

// The byte at which a token begins; the end of the source where it has no such token.
fn token_start(text: &[u8], tokens: &[Token], token: usize) -> u32
    requires { length text.now < 2 ^ 32 }
    ensures { result ≡ token_start (length text.now) tokens.now token }
{
    match tokens.get(token) {
        Some(token) => token.span.start,
        None => text.len() as u32,
    }
}

// What a source without a tree says.
fn broken(alloc: Global, fault: SourceFault) -> Result<Parse, NoMemory>
    ensures { IfOk result (λ parse. (text : List ℕ) → HasFault text fault → IsParse text parse) }
{
    Ok(Parse {
        tree: ParseTree::Broken(fault),
        sig: Shared::new(alloc, broken_signature(alloc))?,
        faults: List::new(alloc),
    })
}

// What a source with a tree says.
fn whole(alloc: Global, module: Module, spans: List<Span>) -> Result<Parse, NoMemory>
    ensures { IfOk result (λ parse. (text : List ℕ) → HasTree text (module_view «module») spans → IsParse text parse) }
{
    let (sig, faults) = extract(alloc, &module, spans.as_slice())?;
    let tree = ParseTree::Tree { module, spans };
    Ok(Parse {
        tree,
        sig: Shared::new(alloc, sig)?,
        faults,
    })
}

// What a source of these tokens says.
fn read(alloc: Global, text: &[u8], tokens: &[Token]) -> Result<Parse, NoMemory>
    requires { Answers text.now (Ok tokens.now) }
    ensures { IfOk result (λ parse. IsParse text.now parse) }
{
    match read_module(alloc, tokens) {
        Ok(module) => whole(alloc, module, spans_of(alloc, tokens)?),
        Err(ParseFault::At { token }) => {
            let at = token_start(text, tokens, token);
            broken(alloc, SourceFault::Parse { at })
        }
        Err(ParseFault::NoMemory) => Err(NoMemory),
    }
}

/// What a source says by itself, by its bytes alone.
///
/// # Errors
///
/// `NoMemory` where memory is refused.
pub fn front(alloc: Global, text: &[u8]) -> Result<Parse, NoMemory>
    ensures { IfOk result (λ parse. IsParse text.now parse) }
{
    match lex(alloc, text) {
        Ok(tokens) => read(alloc, text, tokens.as_slice()),
        Err(LexFault::NotUtf8) => broken(alloc, SourceFault::NotUtf8),
        Err(LexFault::BadToken { at }) => broken(alloc, SourceFault::BadToken { at }),
        Err(LexFault::SourceTooLong { len }) => broken(alloc, SourceFault::SourceTooLong { len }),
        Err(LexFault::NoMemory) => Err(NoMemory),
    }
}
