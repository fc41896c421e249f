// What stands in parentheses and brackets.
ghost use Rattle.std.specs.Prelude.{◌≡◌, ◌<◌, ◌∷◌, IfOk, false};
ghost use Rattle.js_grammar.specs.Types.{base, name as name_form, no_place, has_types as any_types};
ghost use Rattle.js_grammar.specs.Machine.{close_at as close_step, array_step, start_step, name_rest as rest_step, name_step, mark_step, single as single_step, closed_step, tuple_step, bracket_step, want_step, base_step, in_group, fresh as fresh_at, type_word as class_of};
ghost use Rattle.type_tree.specs.View.{base_view, form_view, places_view, params_view, types_view};
ghost use Rattle.type_parser.specs.State.{open_view, frame_view, turn_view, stack_view, Gives, IsSingle};
ghost use Rattle.type_parser.specs.Words.{word_view};

use crate::begin::{after_base, begin_type};
use crate::state::{ArrayName, Based, Frame, Group, GroupName, Mode, OpenUnion, Tuple, Turn};
use crate::step::{based, can_fun, fresh};
use crate::words::{TypeWord, type_word};
use flow_values::{List, NoMemory};
use js_token::{Punct, TokenKind, is_reserved};
use std::alloc::Global;
use type_tree::{BaseForm, BaseTree, ParamTree, TypeTree};

/// A token behind the name of an array type.
#[tactic(auto, using(crate::proofs::Pushes::pushes))]
pub fn after_array(
    stack: &mut Vec<Frame>,
    array: ArrayName,
    token: &TokenKind,
) -> Result<Turn, NoMemory>
    ensures { IfOk result (λ turn. turn_view stack.new.items turn ≡ array_step (stack_view stack.old.items) (open_view array.open) array.first array.read_only token.now) }
{
    match token {
        TokenKind::Punct(Punct::LessThan) => {
            stack.push(Frame::Array(array))?;
            Ok(Turn::Go(Mode::Want))
        }
        _ => Ok(Turn::Fault),
    }
}

/// The end of a group where a parameter might begin.
#[tactic(auto, using(crate::proofs::Empties::empties))]
fn close_group(can: bool, group: Group) -> Turn
    ensures { Gives result (λ k. close_step can k (open_view group.open) group.first (params_view group.params)) }
{
    if group.params.as_slice().is_empty() {
        if can {
            Turn::Go(Mode::Closed(group, false))
        } else {
            Turn::Fault
        }
    } else {
        Turn::Go(Mode::Closed(group, true))
    }
}

/// A token in a group, where a parameter may begin.
#[tactic(auto, using(crate::proofs::Pushes::pushes))]
pub fn begin_param(
    alloc: Global,
    plain: bool,
    at: usize,
    stack: &mut Vec<Frame>,
    group: Group,
    token: &TokenKind,
) -> Result<Turn, NoMemory>
    requires { at < usize.MAX }
    ensures { IfOk result (λ turn. turn_view stack.new.items turn ≡ start_step plain at (stack_view stack.old.items) (open_view group.open) group.first (params_view group.params) token.now) }
{
    match token {
        TokenKind::Punct(Punct::CloseParen) => Ok(close_group(can_fun(plain, stack), group)),
        TokenKind::Name(word) => {
            if is_reserved(word.as_bytes()) {
                begin_inside(alloc, at, stack, Frame::Group(group), token)
            } else {
                let name = word.share()?;
                Ok(Turn::Go(Mode::GroupName(GroupName {
                    group,
                    start: at,
                    name,
                })))
            }
        }
        _ => begin_inside(alloc, at, stack, Frame::Group(group), token),
    }
}

/// A token with which a type begins in this form.
#[tactic(auto, using(crate::proofs::Pushes::pushes))]
fn begin_inside(
    alloc: Global,
    at: usize,
    stack: &mut Vec<Frame>,
    frame: Frame,
    token: &TokenKind,
) -> Result<Turn, NoMemory>
    requires { at < usize.MAX }
    ensures { IfOk result (λ turn. turn_view stack.new.items turn ≡ want_step at (frame_view frame ∷ stack_view stack.old.items) token.now) }
{
    stack.push(frame)?;
    begin_type(alloc, at, token)
}

/// A token behind a name in a group.
#[tactic(auto, using(crate::proofs::Pushes::pushes))]
pub fn after_name(
    alloc: Global,
    plain: bool,
    at: usize,
    stack: &mut Vec<Frame>,
    named: GroupName,
    token: &TokenKind,
) -> Result<Turn, NoMemory>
    requires { at < usize.MAX }
    ensures { IfOk result (λ turn. turn_view stack.new.items turn ≡ name_step plain at (stack_view stack.old.items) (open_view named.group.open) named.group.first (params_view named.group.params) named.start named.name token.now) }
{
    match token {
        TokenKind::Punct(Punct::Question) => {
            if can_fun(plain, stack) {
                Ok(Turn::Go(Mode::GroupMark(named)))
            } else {
                Ok(Turn::Fault)
            }
        }
        TokenKind::Punct(Punct::Colon) => {
            if can_fun(plain, stack) {
                stack.push(Frame::Named(named, false))?;
                Ok(Turn::Go(Mode::Want))
            } else {
                Ok(Turn::Fault)
            }
        }
        _ => after_type_name(alloc, plain, at, stack, named, token),
    }
}

/// A token behind a name in a group that is a type.
#[tactic(auto, using(crate::proofs::Pushes::pushes))]
fn after_type_name(
    alloc: Global,
    plain: bool,
    at: usize,
    stack: &mut Vec<Frame>,
    named: GroupName,
    token: &TokenKind,
) -> Result<Turn, NoMemory>
    requires { at < usize.MAX }
    ensures { IfOk result (λ turn. turn_view stack.new.items turn ≡ rest_step plain at (stack_view stack.old.items) (open_view named.group.open) named.group.first (params_view named.group.params) named.start named.name (class_of named.name) token.now) }
{
    match type_word(named.name.as_bytes()) {
        TypeWord::Name => after_plain_name(alloc, plain, at, stack, named, token),
        TypeWord::Array(read_only) => after_array_name(alloc, stack, named, read_only, token),
        _ => Ok(Turn::Fault),
    }
}

/// A token behind a name in a group that is a type by itself.
#[tactic(auto, using(crate::proofs::Pushes::pushes))]
fn after_plain_name(
    alloc: Global,
    plain: bool,
    at: usize,
    stack: &mut Vec<Frame>,
    named: GroupName,
    token: &TokenKind,
) -> Result<Turn, NoMemory>
    requires { at < usize.MAX }
    ensures { IfOk result (λ turn. turn_view stack.new.items turn ≡ base_step plain at (in_group (open_view named.group.open) named.group.first (params_view named.group.params) ∷ stack_view stack.old.items) (fresh_at named.start) (base named.start at (name_form named.name)) no_place token.now) }
{
    let GroupName { group, start, name } = named;
    stack.push(Frame::Group(group))?;
    let read = alone(alloc, fresh(alloc, start), start, at, BaseForm::name(name));
    after_base(alloc, plain, at, stack, read, token)
}

/// A token behind the name of an array type in a group.
#[tactic(auto, using(crate::proofs::Pushes::pushes))]
fn after_array_name(
    alloc: Global,
    stack: &mut Vec<Frame>,
    named: GroupName,
    read_only: bool,
    token: &TokenKind,
) -> Result<Turn, NoMemory>
    ensures { IfOk result (λ turn. turn_view stack.new.items turn ≡ array_step (in_group (open_view named.group.open) named.group.first (params_view named.group.params) ∷ stack_view stack.old.items) (fresh_at named.start) named.start read_only token.now) }
{
    let GroupName { group, start, .. } = named;
    stack.push(Frame::Group(group))?;
    let array = ArrayName {
        open: fresh(alloc, start),
        first: start,
        read_only,
    };
    after_array(stack, array, token)
}

/// A token behind a name and a question mark in a group.
#[tactic(auto, using(crate::proofs::Pushes::pushes))]
pub fn after_name_mark(
    stack: &mut Vec<Frame>,
    named: GroupName,
    token: &TokenKind,
) -> Result<Turn, NoMemory>
    ensures { IfOk result (λ turn. turn_view stack.new.items turn ≡ mark_step (stack_view stack.old.items) (open_view named.group.open) named.group.first (params_view named.group.params) named.start named.name token.now) }
{
    match token {
        TokenKind::Punct(Punct::Colon) => {
            stack.push(Frame::Named(named, true))?;
            Ok(Turn::Go(Mode::Want))
        }
        _ => Ok(Turn::Fault),
    }
}

/// A token behind a closed group: an arrow makes it parameters.
#[tactic(auto, using(crate::proofs::Pushes::pushes))]
pub fn after_group(
    alloc: Global,
    plain: bool,
    at: usize,
    stack: &mut Vec<Frame>,
    group: Group,
    comma: bool,
    token: &TokenKind,
) -> Result<Turn, NoMemory>
    requires { at < usize.MAX }
    ensures { IfOk result (λ turn. turn_view stack.new.items turn ≡ closed_step plain at (stack_view stack.old.items) (open_view group.open) group.first (params_view group.params) comma token.now) }
{
    match token {
        TokenKind::Punct(Punct::Arrow) => {
            if can_fun(plain, stack) {
                stack.push(Frame::Output(group, comma))?;
                Ok(Turn::Go(Mode::Want))
            } else {
                after_single(alloc, plain, at, stack, group, comma, token)
            }
        }
        _ => after_single(alloc, plain, at, stack, group, comma, token),
    }
}

/// A token behind a closed group that is no parameters: the group has to be one type.
#[tactic(auto, using(crate::proofs::Pushes::pushes))]
fn after_single(
    alloc: Global,
    plain: bool,
    at: usize,
    stack: &mut Vec<Frame>,
    group: Group,
    comma: bool,
    token: &TokenKind,
) -> Result<Turn, NoMemory>
    requires { at < usize.MAX }
    ensures { IfOk result (λ turn. turn_view stack.new.items turn ≡ single_step plain at (stack_view stack.old.items) (open_view group.open) group.first (params_view group.params) comma token.now) }
{
    let Group {
        open,
        first,
        params,
    } = group;
    match only_type(params, comma) {
        Some(ty) => {
            let form = BaseForm::paren(alloc, ty)?;
            let read = alone(alloc, open, first, at, form);
            after_base(alloc, plain, at, stack, read, token)
        }
        None => Ok(Turn::Fault),
    }
}

/// The type that a group consists of.
#[tactic(auto, using(crate::proofs::Single::singles))]
fn only_type(params: List<ParamTree>, comma: bool) -> Option<TypeTree>
    ensures { IsSingle (params_view params) comma result }
{
    let mut rest = params.into_vec();
    let last = rest.pop();
    if comma {
        return None;
    }
    if !rest.is_empty() {
        return None;
    }
    match last {
        Some(ParamTree::Plain(ty)) => Some(ty),
        Some(ParamTree::Named(_)) => None,
        None => None,
    }
}

/// A base of this form without brackets.
#[tactic(auto, using(crate::proofs::Pushes::nothings))]
fn alone(alloc: Global, open_union: OpenUnion, first: usize, end: usize, form: BaseForm) -> Based
    ensures open_union { open_view result.open ≡ open_view open_union }
    ensures base { base_view result.base ≡ base first end (form_view form) }
    ensures brackets { places_view result.brackets ≡ no_place }
{
    Based {
        open: open_union,
        base: BaseTree::new(first, end, form),
        brackets: List::new(alloc),
    }
}

/// A token behind `[`.
#[tactic(auto, using(crate::proofs::Pushes::pushes))]
pub fn after_bracket(read: Based, open_bracket: usize, token: &TokenKind) -> Result<Turn, NoMemory>
    ensures { IfOk result (λ turn. Gives turn (λ k. bracket_step k (open_view read.open) (base_view read.base) (places_view read.brackets) open_bracket token.now)) }
{
    match token {
        TokenKind::Punct(Punct::CloseBracket) => {
            let Based {
                open,
                base,
                mut brackets,
            } = read;
            brackets.push(open_bracket)?;
            Ok(Turn::Go(Mode::AfterBase(Based {
                open,
                base,
                brackets,
            })))
        }
        _ => Ok(Turn::Fault),
    }
}

/// A token in a tuple, where a type may begin.
#[tactic(auto, using(crate::proofs::Pushes::pushes))]
pub fn begin_element(
    alloc: Global,
    at: usize,
    stack: &mut Vec<Frame>,
    tuple: Tuple,
    token: &TokenKind,
) -> Result<Turn, NoMemory>
    requires { at < usize.MAX }
    ensures { IfOk result (λ turn. turn_view stack.new.items turn ≡ tuple_step at (stack_view stack.old.items) (open_view tuple.open) tuple.first (types_view tuple.types) token.now) }
{
    match token {
        TokenKind::Punct(Punct::CloseBracket) => {
            let Tuple { open, first, types } = tuple;
            let comma = has_types(&types);
            let form = BaseForm::tuple(types, comma);
            Ok(Turn::Go(based(alloc, open, first, at + 1, form)))
        }
        _ => begin_inside(alloc, at, stack, Frame::Tuple(tuple), token),
    }
}

/// Whether there are types.
#[tactic(auto, using(crate::proofs::Empties::empties))]
fn has_types(types: &List<TypeTree>) -> bool
    ensures { result ≡ any_types (types_view types.now) }
{
    !types.as_slice().is_empty()
}
