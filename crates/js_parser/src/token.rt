// One token. Each arm with much in it is a function of its own, since a function makes room for all of its arms at each call.
ghost use Rattle.std.specs.Prelude.{◌≡◌, ◌<◌, []};
ghost use Rattle.code_law.specs.Frames.{typing};
ghost use Rattle.code_law.specs.Machine.{step as machine_step};
ghost use Rattle.type_parser.specs.State.{stack_view as types_view, mode_view as type_mode_view};
ghost use Rattle.code_state.specs.Forms.{mode_view, item_mode_view, waiting_view, alias_view};
ghost use Rattle.code_state.specs.Stack.{stack_view, items_before};
ghost use Rattle.code_state.specs.Turns.{turn_view};
ghost use Rattle.code_state.specs.declared.modes.Turn.TheVariants.{«Type» as a_type, Alias as an_alias};
ghost use Rattle.js_parser.specs.Reading.{forms, phase, Nexts};
ghost use Rattle.js_parser.specs.declared.reading.Halt.TheVariants.{Stop as halt_stop};
ghost use Rattle.js_parser.specs.declared.reading.Reading.TheVariants.{Code as code_reading, Item as item_reading};

use crate::reading::{Halt, Reading};
use code_state::{AliasHead, ItemMode, Mode, Stack, Turn, Waiting};
use code_steps::{after_type, takes_function};
use code_tree::Expr;
use flow_values::{Boxed, NoMemory};
use js_token::TokenKind;
use std::alloc::Global;
use type_parser::{Frame as TypeFrame, Mode as TypeMode, Turn as TypeTurn};

/// An expression ended that stands in no form.
#[inline(never)]
fn stop(expr: Expr) -> Halt
    ensures { result ≡ halt_stop }
{
    drop(expr);
    Halt::Stop
}

/// Code goes on.
#[inline]
fn go_on(mode: Mode) -> Reading
    ensures { result ≡ code_reading mode }
{
    Reading::Code(mode)
}

/// An item goes on that holds no code yet, or one may begin.
#[inline(never)]
fn go_on_item(mode: ItemMode) -> Reading
    ensures { result ≡ item_reading mode }
{
    Reading::Item(mode)
}

/// A type begins in code.
#[inline(never)]
#[tactic(auto, using(crate::proofs::Steps::starts))]
fn begin_type(alloc: Global, types: &mut Vec<TypeFrame>, waiting: Waiting) -> Result<Reading, Halt>
    ensures { (s : Stack) → Nexts s types.new.items result (turn_view s (a_type waiting)) }
{
    types.clear();
    let waiting = Boxed::new(alloc, waiting)?;
    let mode = Boxed::new(alloc, TypeMode::Want)?;
    Ok(Reading::Type(waiting, mode))
}

/// The type of an alias begins.
#[inline(never)]
#[tactic(auto, using(crate::proofs::Steps::starts))]
fn begin_alias(alloc: Global, types: &mut Vec<TypeFrame>, head: AliasHead) -> Result<Reading, Halt>
    ensures { (s : Stack) → Nexts s types.new.items result (turn_view s (an_alias head)) }
{
    types.clear();
    let mode = Boxed::new(alloc, TypeMode::Want)?;
    Ok(Reading::Alias(head, mode))
}

/// What comes next where this is what a token does.
#[inline]
fn next_of(alloc: Global, types: &mut Vec<TypeFrame>, turn: Turn) -> Result<Reading, Halt>
    ensures { (s : Stack) → Nexts s types.new.items result (turn_view s turn) }
{
    match turn {
        Turn::Fault => Err(Halt::Stop),
        Turn::Whole(expr) => Err(stop(expr)),
        Turn::Go(mode) => Ok(go_on(mode)),
        Turn::Item(mode) => Ok(go_on_item(mode)),
        Turn::Type(waiting) => begin_type(alloc, types, waiting),
        Turn::Alias(head) => begin_alias(alloc, types, head),
        Turn::Items => Err(Halt::Items),
    }
}

/// A token in an item's code.
#[inline]
#[tactic(auto, using(crate::proofs::Steps::types))]
fn in_code(
    alloc: Global,
    at: usize,
    stack: &mut Stack,
    types: &mut Vec<TypeFrame>,
    mode: Mode,
    token: &TokenKind,
) -> Result<Reading, Halt>
    requires { at < usize.MAX }
    ensures { Nexts stack.new types.new.items result (machine_step at (stack_view stack.old) (mode_view mode) token.now) }
{
    match code_steps::step(alloc, at, stack, mode, token) {
        Ok(turn) => next_of(alloc, types, turn),
        Err(NoMemory) => Err(Halt::NoMemory),
    }
}

/// A token where an item begins, or in one that holds no code yet.
#[inline(never)]
#[tactic(auto, using(crate::proofs::Steps::types))]
fn in_item(
    alloc: Global,
    at: usize,
    stack: &mut Stack,
    types: &mut Vec<TypeFrame>,
    mode: ItemMode,
    token: &TokenKind,
) -> Result<Reading, Halt>
    requires { at < usize.MAX }
    ensures { Nexts stack.new types.new.items result (machine_step at [] (item_mode_view (items_before stack.old) mode) token.now) }
{
    match item_steps::step(alloc, at, stack, mode, token) {
        Ok(turn) => next_of(alloc, types, turn),
        Err(NoMemory) => Err(Halt::NoMemory),
    }
}

/// A token of a type in code.
#[inline(never)]
#[tactic(auto, using(crate::proofs::Steps::types))]
fn in_type(
    alloc: Global,
    at: usize,
    stack: &mut Stack,
    types: &mut Vec<TypeFrame>,
    waiting: Boxed<Waiting>,
    mode: TypeMode,
    token: &TokenKind,
) -> Result<Reading, Halt>
    requires { at < usize.MAX }
    ensures { Nexts stack.new types.new.items result (machine_step at (stack_view stack.old) (typing (waiting_view waiting) (types_view types.old.items) (type_mode_view mode)) token.now) }
{
    match type_parser::modes::step(alloc, takes_function(waiting.get()), at, types, mode, token)? {
        TypeTurn::Fault => Err(Halt::Stop),
        TypeTurn::Go(mode) => Ok(Reading::Type(waiting, Boxed::new(alloc, mode)?)),
        TypeTurn::Done(ty) => {
            let turn = after_type(alloc, at, stack, waiting.into_inner(), ty, token)?;
            next_of(alloc, types, turn)
        }
    }
}

/// A token of an alias's type.
#[inline(never)]
#[tactic(auto, using(crate::proofs::Steps::types))]
fn in_alias(
    alloc: Global,
    at: usize,
    stack: &mut Stack,
    types: &mut Vec<TypeFrame>,
    head: AliasHead,
    mode: TypeMode,
    token: &TokenKind,
) -> Result<Reading, Halt>
    requires { at < usize.MAX }
    ensures { Nexts stack.new types.new.items result (machine_step at [] (typing (alias_view (items_before stack.old) head) (types_view types.old.items) (type_mode_view mode)) token.now) }
{
    match type_parser::modes::step(alloc, true, at, types, mode, token)? {
        TypeTurn::Fault => Err(Halt::Stop),
        TypeTurn::Go(mode) => Ok(Reading::Alias(head, Boxed::new(alloc, mode)?)),
        TypeTurn::Done(ty) => {
            let turn = item_steps::after_alias(at, stack, head, ty, token)?;
            next_of(alloc, types, turn)
        }
    }
}

/// Takes the token at a place.
#[inline]
#[tactic(auto, using(crate::proofs::Steps::types))]
pub fn next(
    alloc: Global,
    at: usize,
    stack: &mut Stack,
    types: &mut Vec<TypeFrame>,
    reading: Reading,
    token: &TokenKind,
) -> Result<Reading, Halt>
    requires { at < usize.MAX }
    ensures { Nexts stack.new types.new.items result (machine_step at (forms stack.old reading) (phase stack.old types.old.items reading) token.now) }
{
    match reading {
        Reading::Code(mode) => in_code(alloc, at, stack, types, mode, token),
        Reading::Item(mode) => in_item(alloc, at, stack, types, mode, token),
        Reading::Type(waiting, mode) => {
            in_type(alloc, at, stack, types, waiting, mode.into_inner(), token)
        }
        Reading::Alias(head, mode) => {
            in_alias(alloc, at, stack, types, head, mode.into_inner(), token)
        }
    }
}
