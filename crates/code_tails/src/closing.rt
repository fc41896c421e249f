// A whole expression, and a token that ends it.
ghost use Rattle.std.specs.Prelude.{◌≡◌, ◌<◌, ◌∷◌, IfOk};
ghost use Rattle.type_tree.specs.View.{key_view};
ghost use Rattle.code_tree.specs.View.{expr_view, exprs_view, links_view, fields_view};
ghost use Rattle.code_law.specs.Frames.{in_parens, in_row, in_index, in_field};
ghost use Rattle.code_law.specs.Ladder.{close as close_step};
ghost use Rattle.code_state.specs.Forms.{row_view, inner_view, value_frame_view};
ghost use Rattle.code_state.specs.Stack.{stack_view};
ghost use Rattle.code_state.specs.Turns.{turn_view, Gives};

use crate::values::end_value;
use code_chains::{end_operator, end_tail};
use code_ends::{close_bottom, close_branch, close_declared, close_if_test, close_loop_test};
use code_heads::{add_link, after_element, after_field, primary};
use code_state::{Frame, InnerFrame, Linked, OpenFields, Row, Stack, Turn, ValueFrame};
use code_tree::{Expr, ExprForm, Field, FieldForm, Link, LinkForm};
use flow_values::{List, NoMemory};
use js_token::{Punct, TokenKind};
use std::alloc::Global;
use type_tree::Key;

/// What stands in parentheses is whole.
fn close_paren(
    alloc: Global,
    at: usize,
    first: usize,
    expr: Expr,
    token: &TokenKind,
) -> Result<Turn, NoMemory>
    requires { at < usize.MAX }
    ensures { IfOk result (λ turn. Gives turn (λ k. close_step at (in_parens first ∷ k) (expr_view expr) token.now)) }
{
    match token {
        TokenKind::Punct(Punct::CloseParen) => {
            let form = ExprForm::paren(alloc, expr)?;
            Ok(Turn::Go(primary(alloc, Expr::new(first, at + 1, form))))
        }
        _ => {
            drop(expr);
            Ok(Turn::Fault)
        }
    }
}

/// An element or an argument is whole.
#[tactic(auto, using(code_state::proofs::Pushes::pushes))]
fn close_element(
    alloc: Global,
    at: usize,
    row: Row,
    mut elements: List<Expr>,
    element: Expr,
    token: &TokenKind,
) -> Result<Turn, NoMemory>
    requires { at < usize.MAX }
    ensures { IfOk result (λ turn. Gives turn (λ k. close_step at (in_row (row_view row) (exprs_view elements) ∷ k) (expr_view element) token.now)) }
{
    elements.push(element)?;
    after_element(alloc, at, row, elements, token)
}

/// An index is whole.
fn close_index(
    at: usize,
    linked: Linked,
    first: usize,
    expr: Expr,
    token: &TokenKind,
) -> Result<Turn, NoMemory>
    requires { at < usize.MAX }
    ensures { IfOk result (λ turn. Gives turn (λ k. close_step at (in_index (expr_view linked.base) (links_view linked.links) first ∷ k) (expr_view expr) token.now)) }
{
    match token {
        TokenKind::Punct(Punct::CloseBracket) => {
            let link = Link::new(first, at + 1, LinkForm::index(expr));
            Ok(Turn::Go(add_link(linked, link)?))
        }
        _ => {
            drop(linked);
            drop(expr);
            Ok(Turn::Fault)
        }
    }
}

/// The value of a property is whole.
#[tactic(auto, using(code_state::proofs::Pushes::pushes, code_state::proofs::Views::starts))]
fn close_property(
    alloc: Global,
    at: usize,
    so_far: OpenFields,
    key: Key,
    expr: Expr,
    token: &TokenKind,
) -> Result<Turn, NoMemory>
    requires { at < usize.MAX }
    ensures { IfOk result (λ turn. Gives turn (λ k. close_step at (in_field so_far.first (fields_view so_far.fields) (key_view key) ∷ k) (expr_view expr) token.now)) }
{
    let OpenFields { first, mut fields } = so_far;
    fields.push(Field::new(key.first, at, FieldForm::valued(key, expr)))?;
    Ok(after_field(alloc, at, OpenFields { first, fields }, token))
}

/// An expression is whole in this form.
fn close_inner(
    alloc: Global,
    at: usize,
    stack: &mut Stack,
    form: InnerFrame,
    expr: Expr,
    token: &TokenKind,
) -> Result<Turn, NoMemory>
    requires { at < usize.MAX }
    ensures { IfOk result (λ turn. turn_view stack.new turn ≡ close_step at (inner_view form ∷ stack_view stack.old) (expr_view expr) token.now) }
{
    match form {
        InnerFrame::Branch(first, arms, test) => {
            close_branch(at, stack, first, arms, test, expr, token)
        }
        InnerFrame::Paren(first) => close_paren(alloc, at, first, expr, token),
        InnerFrame::Row(row, elements) => close_element(alloc, at, row, elements, expr, token),
        InnerFrame::Index(linked, first) => close_index(at, linked, first, expr, token),
        InnerFrame::Field(first, fields, key) => {
            close_property(alloc, at, OpenFields { first, fields }, key, expr, token)
        }
    }
}

/// An expression is whole in this statement.
fn close_value(
    at: usize,
    stack: &mut Stack,
    form: ValueFrame,
    expr: Expr,
    token: &TokenKind,
) -> Result<Turn, NoMemory>
    requires { at < usize.MAX }
    ensures { IfOk result (λ turn. turn_view stack.new turn ≡ close_step at (value_frame_view form ∷ stack_view stack.old) (expr_view expr) token.now) }
{
    match form {
        ValueFrame::Simple(first, verb) => end_value(at, stack, first, verb, expr, token),
        ValueFrame::Declaration(declared, annotation) => {
            close_declared(at, stack, declared, annotation, expr, token)
        }
        ValueFrame::IfTest(so_far, place) => close_if_test(at, stack, so_far, place, expr, token),
        ValueFrame::LoopTest(first) => close_loop_test(at, stack, first, expr, token),
    }
}

/// An expression is whole, and the token at a place ends it.
#[tactic(auto, using(crate::proofs::Closes::closes))]
pub fn close(
    alloc: Global,
    at: usize,
    stack: &mut Stack,
    whole: Expr,
    token: &TokenKind,
) -> Result<Turn, NoMemory>
    requires { at < usize.MAX }
    ensures { IfOk result (λ turn. turn_view stack.new turn ≡ close_step at (stack_view stack.old) (expr_view whole) token.now) }
{
    let mut expr = whole;
    'outwards: while let Some(frame) = stack.pop() {
        match frame {
            Frame::Operator(form) => expr = end_operator(alloc, at, form, expr)?,
            Frame::Tail(form) => expr = end_tail(alloc, at, form, expr)?,
            Frame::Inner(form) => return close_inner(alloc, at, stack, form, expr, token),
            Frame::Value(form) => return close_value(at, stack, form, expr, token),
            Frame::Body(_) => return Ok(Turn::Fault),
        }
    }
    close_bottom(at, stack, expr, token)
}
