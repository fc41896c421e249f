//! Modules, with `⏎` for each end of a line: whether the tokens of one are a module, or where the fault stands. A module is spelled
//! too, and must have these tokens. The answers that must be printed are those of the language's description.
use flow_values::NoMemory;
use js_lexer::{LexFault, lex};
use js_parser::read_module;
use js_token::Token;
use js_tree::{Module, spell};
use std::alloc::Global;
use std::io;
use type_parser::ParseFault;

// Whether the spelling of a module is that of the tokens.
fn is_spelled(alloc: Global, module: &Module, tokens: &[Token]) -> bool {
    match spell(alloc, module) {
        Ok(kinds) => {
            let kinds = kinds.as_slice();
            kinds.len() == tokens.len() && (0..kinds.len()).all(|i| kinds[i] == tokens[i].kind)
        }
        Err(NoMemory) => false,
    }
}

/// Prints what a source is. Where it `spells`, a module's spelling is compared too.
pub(crate) fn report_source(
    rt: &impl Print,
    alloc: Global,
    source: &[u8],
    spells: bool,
) -> io::Result<()> {
    let tokens = match lex(alloc, source) {
        Ok(tokens) => tokens,
        Err(LexFault::BadToken { at }) => return println!(rt; "bad-token {at}"),
        Err(_) => return println!(rt; "no tokens"),
    };
    match read_module(alloc, tokens.as_slice()) {
        Ok(module) => {
            if spells && !is_spelled(alloc, &module, tokens.as_slice()) {
                return println!(rt; "not spelled");
            }
            println!(rt; "ok")
        }
        Err(ParseFault::At { token }) => println!(rt; "at {token}"),
        Err(ParseFault::NoMemory) => println!(rt; "no memory"),
    }
}

/// Prints what the source in a line is.
pub(crate) fn report(rt: &impl Print, alloc: Global, line: &str) -> io::Result<()> {
    let source = line.replace(alloc, '⏎', "\n")?;
    report_source(rt, alloc, source.as_bytes(), true)
}
