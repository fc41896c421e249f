// A whole module.
ghost use Rattle.std.specs.Prelude.{◌≡◌, ◌<◌, length};
ghost use Rattle.js_tree.specs.View.{items_view};
ghost use Rattle.type_parser.specs.Reading.{kinds};
ghost use Rattle.type_parser.specs.Nests.{nest_view};
ghost use Rattle.js_grammar.specs.Nesting.{nest};
ghost use Rattle.code_law.specs.Machine.{step as machine_step};
ghost use Rattle.js_parser.specs.Reading.{forms, phase, last_end, Takes, Ends};
ghost use Rattle.js_parser.specs.Answer.{Reads};

use crate::reading::{Halt, Reading};
use crate::token::next;
use code_state::{ItemMode, Stack};
use js_token::{Punct, Token, TokenKind};
use js_tree::{Item, Module};
use std::alloc::Global;
use type_parser::{Frame as TypeFrame, Nesting, ParseFault};

/// The place behind the last item.
#[tactic(auto, using(crate::proofs::Rest::item_ends))]
fn end_of(items: &[Item]) -> usize
    ensures { result ≡ last_end (items_view items.now) }
{
    if items.is_empty() {
        return 0;
    }
    items[items.len() - 1].end
}

/// The module that is read where the tokens end at this place, if it is whole there.
#[tactic(auto, using(crate::proofs::Steps::ends))]
fn finish(
    alloc: Global,
    at: usize,
    stack: Stack,
    types: Vec<TypeFrame>,
    reading: Reading,
) -> Result<Module, ParseFault>
    requires { at < usize.MAX }
    ensures { Ends at (forms stack reading) (phase stack types.items reading) result }
{
    let mut stack = stack;
    let mut types = types;
    let end = TokenKind::Punct(Punct::PlusPlus);
    match next(alloc, at, &mut stack, &mut types, reading, &end) {
        Err(Halt::Items) => {
            let Stack { items, .. } = stack;
            let end = end_of(items.as_slice());
            Ok(Module {
                first: 0,
                end,
                items,
            })
        }
        Err(Halt::Stop) => Err(ParseFault::At { token: at }),
        Err(Halt::NoMemory) => Err(ParseFault::NoMemory),
        Ok(then) => {
            drop(then);
            Err(ParseFault::At { token: at })
        }
    }
}

/// Takes the token at a place: what may come next behind it, or the fault.
#[tactic(auto, using(crate::proofs::Steps::takes))]
fn take(
    alloc: Global,
    at: usize,
    nesting: &mut Nesting,
    stack: &mut Stack,
    types: &mut Vec<TypeFrame>,
    reading: Reading,
    token: &TokenKind,
) -> Result<Reading, ParseFault>
    requires { at < usize.MAX }
    ensures { Takes at (nest (nest_view nesting.old) token.now) (nest_view nesting.new) stack.new types.new.items result (machine_step at (forms stack.old reading) (phase stack.old types.old.items reading) token.now) }
{
    let Ok(()) = nesting.take(token) else {
        drop(reading);
        return Err(ParseFault::NoMemory);
    };
    if nesting.is_deep() {
        drop(reading);
        return Err(ParseFault::At { token: at });
    }
    match next(alloc, at, stack, types, reading, token) {
        Ok(then) => Ok(then),
        Err(Halt::Stop | Halt::Items) => Err(ParseFault::At { token: at }),
        Err(Halt::NoMemory) => Err(ParseFault::NoMemory),
    }
}

/// Reads a module: the one whose spelling the tokens are, where there is one and the tokens leave at most 200 entries open.
/// Its nodes are numbered by the places of their tokens.
///
/// # Errors
///
/// `At {token}` where there is none: the place of the first token with which no module's spelling begins, behind those before
/// it, or that leaves more open; the number of tokens where all of them begin a spelling and are none. `NoMemory` where memory
/// is refused.
pub fn read_module(alloc: Global, tokens: &[Token]) -> Result<Module, ParseFault>
    ensures { Reads (kinds tokens.now) result }
{
    let mut stack = Stack::new(alloc);
    let mut types = Vec::new(alloc);
    let mut nesting = Nesting::new(alloc);
    let mut reading = Reading::Item(ItemMode::Start);
    for at in 0..tokens.len() {
        let kind = &tokens[at].kind;
        reading = take(
            alloc,
            at,
            &mut nesting,
            &mut stack,
            &mut types,
            reading,
            kind,
        )?;
    }
    finish(alloc, tokens.len(), stack, types, reading)
}
