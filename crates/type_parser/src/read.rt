// A whole type.
ghost use Rattle.std.specs.Prelude.{◌≡◌, ◌≤◌, ◌<◌, length};
ghost use Rattle.type_parser.specs.State.{stack_view, mode_view};
ghost use Rattle.type_parser.specs.Reading.{kinds, Gets, Ends, Reads};
ghost use Rattle.type_parser.specs.declared.read.ParseFault.TheVariants.{NoMemory as no_memory};

use crate::modes::step;
use crate::nesting::Nesting;
use crate::state::{Frame, Mode, Turn};
use flow_values::NoMemory;
use js_token::{Punct, Token, TokenKind};
use std::alloc::Global;
use type_tree::TypeTree;

/// Why there is no type.
#[derive(Clone, Copy, Debug, PartialEq, Eq)]
pub enum ParseFault {
    /// As many tokens as begin a type end before this one, and are none.
    At { token: usize },
    /// Memory was refused.
    NoMemory,
}

impl From<NoMemory> for ParseFault {
    ghost from_gives = { λ _ e. e ≡ no_memory };

    fn from(_: NoMemory) -> ParseFault {
        ParseFault::NoMemory
    }
}

/// The type that is read where the tokens end at this place, if it is whole there.
#[tactic(auto, using(crate::proofs::Turns::ends))]
fn finish(
    alloc: Global,
    plain: bool,
    at: usize,
    stack: Vec<Frame>,
    mode: Mode,
) -> Result<(TypeTree, usize), ParseFault>
    requires { at < usize.MAX }
    ensures { Ends plain at (stack_view stack.items) (mode_view mode) result }
{
    let mut stack = stack;
    match step(
        alloc,
        plain,
        at,
        &mut stack,
        mode,
        &TokenKind::Punct(Punct::PlusPlus),
    )? {
        Turn::Done(ty) => Ok((ty, at)),
        _ => Err(ParseFault::At { token: at }),
    }
}

/// The tokens from a place on are read up to the limit of nesting.
#[tactic(auto, using(crate::proofs::Turns::turns))]
fn read(
    alloc: Global,
    tokens: &[Token],
    from: usize,
    plain: bool,
) -> Result<(TypeTree, usize), ParseFault>
    requires { from ≤ length tokens.now }
    ensures { Gets plain (kinds tokens.now) from result }
{
    let mut stack = Vec::new(alloc);
    let mut nesting = Nesting::new(alloc);
    let mut mode = Mode::Want;
    for at in from..tokens.len() {
        let kind = &tokens[at].kind;
        nesting.take(kind)?;
        if nesting.is_deep() {
            return finish(alloc, plain, at, stack, mode);
        }
        match step(alloc, plain, at, &mut stack, mode, kind)? {
            Turn::Fault => return Err(ParseFault::At { token: at }),
            Turn::Done(ty) => return Ok((ty, at)),
            Turn::Go(next) => mode = next,
        }
    }
    finish(alloc, plain, tokens.len(), stack, mode)
}

/// Reads one type, the first token of which is at place `from`; where `plain` is false, one without a function type outside
/// brackets. As many tokens are read as begin such a type's spelling and leave at most 200 entries open. Answers the type, its
/// nodes numbered by the places of their tokens, and the place behind its last token.
///
/// # Errors
///
/// `At {token}` where those tokens are no whole type, with the place behind the last of them. `NoMemory` where memory is
/// refused.
#[tactic(auto, using(crate::proofs::Turns::tells))]
pub fn read_type(
    alloc: Global,
    tokens: &[Token],
    from: usize,
    plain: bool,
) -> Result<(TypeTree, usize), ParseFault>
    requires { from ≤ length tokens.now }
    ensures { Reads plain (kinds tokens.now) from result }
{
    read(alloc, tokens, from, plain)
}
