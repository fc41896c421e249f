//! Types that are read, behind `Type` or `Type0`: how many tokens the type has, or the token at which the fault stands. `Type0`
//! has no function type outside brackets. What must be printed is told by the grammar.

use js_lexer::lex;
use std::alloc::Global;
use std::{fmt, io};
use type_parser::{ParseFault, read_type};

/// What reading a type answers.
#[derive(Clone, Copy)]
enum Outcome {
    Whole { tokens: usize },
    Fault { token: usize },
    NoTokens,
    NoMemory,
}

impl fmt::Display for Outcome {
    fn fmt<W: fmt::Write>(&self, f: &mut fmt::Formatter<W>) -> fmt::Result {
        match self {
            Outcome::Whole { tokens } => write!(f, "a type of {tokens} tokens"),
            Outcome::Fault { token } => write!(f, "a fault at token {token}"),
            Outcome::NoTokens => write!(f, "no tokens"),
            Outcome::NoMemory => write!(f, "no memory"),
        }
    }
}

fn reading(alloc: Global, source: &str, plain: bool) -> Outcome {
    let Ok(tokens) = lex(alloc, source.as_bytes()) else {
        return Outcome::NoTokens;
    };
    match read_type(alloc, tokens.as_slice(), 0, plain) {
        Ok((_, tokens)) => Outcome::Whole { tokens },
        Err(ParseFault::At { token }) => Outcome::Fault { token },
        Err(ParseFault::NoMemory) => Outcome::NoMemory,
    }
}

/// Prints a line with what reading its type answers.
pub(crate) fn report(rt: &impl Print, alloc: Global, line: &str) -> io::Result<()> {
    match line.split_once(' ') {
        Some((form, source)) => {
            let outcome = reading(alloc, source, form == "Type");
            println!(rt; "{form} {source}: {outcome}")
        }
        None => Ok(()),
    }
}
