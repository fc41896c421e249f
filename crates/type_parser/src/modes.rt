// One token.
ghost use Rattle.std.specs.Prelude.{◌≡◌, ◌<◌, IfOk};
ghost use Rattle.js_grammar.specs.Machine.{step as machine_step};
ghost use Rattle.type_parser.specs.State.{turn_view, stack_view, mode_view};

use crate::begin::{after_base, begin_member, begin_type};
use crate::groups::{
    after_array, after_bracket, after_group, after_name, after_name_mark, begin_element,
    begin_param,
};
use crate::objects::{after_dots, after_key, after_key_mark, begin_prop, read_key};
use crate::state::{Frame, Mode, Turn};
use flow_values::NoMemory;
use js_token::TokenKind;
use std::alloc::Global;

/// Takes the token at a place.
#[tactic(auto, using(crate::proofs::Pushes::pushes))]
pub fn step(
    alloc: Global,
    plain: bool,
    at: usize,
    stack: &mut Vec<Frame>,
    mode: Mode,
    token: &TokenKind,
) -> Result<Turn, NoMemory>
    requires { at < usize.MAX }
    ensures { IfOk result (λ turn. turn_view stack.new.items turn ≡ machine_step plain at (stack_view stack.old.items) (mode_view mode) token.now) }
{
    match mode {
        Mode::Want => begin_type(alloc, at, token),
        Mode::WantPre(open_union) => begin_member(alloc, at, open_union, token),
        Mode::AfterBase(read) => after_base(alloc, plain, at, stack, read, token),
        Mode::AfterBracket(read, bracket) => after_bracket(read, bracket, token),
        Mode::AfterArray(array) => after_array(stack, array, token),
        Mode::GroupStart(group) => begin_param(alloc, plain, at, stack, group, token),
        Mode::GroupName(named) => after_name(alloc, plain, at, stack, named, token),
        Mode::GroupMark(named) => after_name_mark(stack, named, token),
        Mode::Closed(group, comma) => after_group(alloc, plain, at, stack, group, comma, token),
        Mode::TupleStart(tuple) => begin_element(alloc, at, stack, tuple, token),
        Mode::ObjectStart(object) => begin_prop(alloc, at, object, token),
        Mode::AfterDots(object) => Ok(after_dots(alloc, at, object, token)),
        Mode::AfterSign(signed) => read_key(signed, at, token),
        Mode::AfterKey(keyed) => after_key(stack, keyed, token),
        Mode::AfterMark(keyed) => after_key_mark(stack, keyed, token),
    }
}
