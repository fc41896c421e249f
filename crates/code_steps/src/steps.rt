// One token inside of an item.
ghost use Rattle.std.specs.Prelude.{◌≡◌, ◌<◌, IfOk};
ghost use Rattle.code_law.specs.Machine.{step as machine_step};
ghost use Rattle.code_state.specs.Forms.{mode_view, value_mode_view, group_view, head_view, statement_mode_view};
ghost use Rattle.code_state.specs.Stack.{stack_view};
ghost use Rattle.code_state.specs.Turns.{turn_view};

use crate::parens::after_paren_word;
use code_blocks::{
    after_binder, after_branch, after_declared, after_else, after_if, after_return, after_simple,
    after_while, begin_statement,
};
use code_groups::{
    after_dot, after_field_word, after_key, after_paren, after_paren_mark, begin_element,
    begin_field,
};
use code_heads::{
    after_arrow, after_parameter_mark, after_parameter_word, after_parameters, begin_body,
    begin_function, begin_parameter, begin_value, open_parameters,
};
use code_state::{GroupMode, HeadMode, Mode, Stack, StatementMode, Turn, ValueMode};
use code_tails::{after_links, settle};
use flow_values::NoMemory;
use js_token::TokenKind;
use std::alloc::Global;

/// A token in an expression.
fn value_step(
    alloc: Global,
    at: usize,
    stack: &mut Stack,
    mode: ValueMode,
    token: &TokenKind,
) -> Result<Turn, NoMemory>
    requires { at < usize.MAX }
    ensures { IfOk result (λ turn. turn_view stack.new turn ≡ machine_step at (stack_view stack.old) (value_mode_view mode) token.now) }
{
    match mode {
        ValueMode::Want => begin_value(alloc, at, stack, token),
        ValueMode::Links(linked) => after_links(alloc, at, stack, linked, token),
        ValueMode::Dot(linked, dot) => after_dot(at, linked, dot, token),
        ValueMode::RowStart(row, elements) => {
            begin_element(alloc, at, stack, row, elements, token)
        }
        ValueMode::Settled(expr) => settle(alloc, at, stack, expr, token),
    }
}

/// A token in an object, or behind `(`.
fn group_step(
    alloc: Global,
    at: usize,
    stack: &mut Stack,
    mode: GroupMode,
    token: &TokenKind,
) -> Result<Turn, NoMemory>
    requires { at < usize.MAX }
    ensures { IfOk result (λ turn. turn_view stack.new turn ≡ machine_step at (stack_view stack.old) (group_view mode) token.now) }
{
    match mode {
        GroupMode::FieldStart(so_far) => begin_field(alloc, at, so_far, token),
        GroupMode::FieldWord(so_far, start, name) => {
            after_field_word(alloc, at, stack, so_far, start, name, token)
        }
        GroupMode::FieldKey(so_far, key) => after_key(stack, so_far, key, token),
        GroupMode::ParenStart(first) => after_paren(alloc, at, stack, first, token),
        GroupMode::ParenWord(word) => after_paren_word(alloc, at, stack, word, token),
        GroupMode::ParenMark(word, mark) => {
            after_paren_mark(alloc, at, stack, word, mark, token)
        }
    }
}

/// A token before a function's body.
fn head_step(
    alloc: Global,
    at: usize,
    stack: &mut Stack,
    mode: HeadMode,
    token: &TokenKind,
) -> Result<Turn, NoMemory>
    requires { at < usize.MAX }
    ensures { IfOk result (λ turn. turn_view stack.new turn ≡ machine_step at (stack_view stack.old) (head_view mode) token.now) }
{
    match mode {
        HeadMode::Function(kind, first) => begin_function(alloc, at, kind, first, token),
        HeadMode::Open(owner) => Ok(open_parameters(alloc, at, owner, token)),
        HeadMode::Start(so_far) => begin_parameter(at, so_far, token),
        HeadMode::Word(named) => after_parameter_word(at, named, token),
        HeadMode::Mark(named) => Ok(after_parameter_mark(named, token)),
        HeadMode::End(so_far, comma) => after_parameters(alloc, at, stack, so_far, comma, token),
        HeadMode::Arrow(signature) => after_arrow(alloc, at, stack, signature, token),
    }
}

/// A token of a statement.
fn statement_step(
    alloc: Global,
    at: usize,
    stack: &mut Stack,
    mode: StatementMode,
    token: &TokenKind,
) -> Result<Turn, NoMemory>
    requires { at < usize.MAX }
    ensures { IfOk result (λ turn. turn_view stack.new turn ≡ machine_step at (stack_view stack.old) (statement_mode_view mode) token.now) }
{
    match mode {
        StatementMode::Start(so_far) => begin_statement(alloc, at, stack, so_far, token),
        StatementMode::Binder(first, binder) => after_binder(first, binder, token),
        StatementMode::Declared(declared) => after_declared(stack, declared, token),
        StatementMode::Return(first) => after_return(alloc, at, stack, first, token),
        StatementMode::Simple(simple) => after_simple(at, stack, simple.into_inner(), token),
        StatementMode::If(so_far, place) => after_if(stack, so_far, place, token),
        StatementMode::While(first) => after_while(stack, first, token),
        StatementMode::Body => begin_body(alloc, at, stack, token),
        StatementMode::Branch(so_far) => after_branch(alloc, at, stack, so_far, token),
        StatementMode::Else(so_far) => after_else(alloc, at, stack, so_far, token),
    }
}

/// Takes the token at a place, inside of an item and outside of types.
pub fn step(
    alloc: Global,
    at: usize,
    stack: &mut Stack,
    mode: Mode,
    token: &TokenKind,
) -> Result<Turn, NoMemory>
    requires { at < usize.MAX }
    ensures { IfOk result (λ turn. turn_view stack.new turn ≡ machine_step at (stack_view stack.old) (mode_view mode) token.now) }
{
    match mode {
        Mode::Value(mode) => value_step(alloc, at, stack, mode, token),
        Mode::Group(mode) => group_step(alloc, at, stack, mode, token),
        Mode::Head(mode) => head_step(alloc, at, stack, mode, token),
        Mode::Statement(mode) => statement_step(alloc, at, stack, mode, token),
    }
}
