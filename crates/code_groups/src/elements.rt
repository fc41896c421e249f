// The tokens behind a dot, and those of a list in brackets.
ghost use Rattle.std.specs.Prelude.{◌≡◌, ◌<◌, suc, IfOk};
ghost use Rattle.js_grammar.specs.Code.{has_exs as any_exs, more_link, link as link_tree, member};
ghost use Rattle.code_tree.specs.View.{expr_view, exprs_view, links_view};
ghost use Rattle.code_law.specs.Frames.{array_row, call_row, after_links as links_mode, go};
ghost use Rattle.code_law.specs.Ladder.{close_row as row_closed};
ghost use Rattle.code_law.specs.Expressions.{dot_step, row_step};
ghost use Rattle.code_state.specs.Forms.{row_view};
ghost use Rattle.code_state.specs.Stack.{stack_view};
ghost use Rattle.code_state.specs.Turns.{turn_view, Gives};

use code_heads::{add_link, begin_inside, close_row};
use code_state::{Frame, InnerFrame, Linked, Row, Stack, Turn};
use code_tree::{Expr, Link, LinkForm};
use flow_values::{Boxed, List, NoMemory, Text};
use js_token::{Punct, TokenKind};
use std::alloc::Global;

/// The name behind a dot at `dot` joins an expression as a link, which ends behind the place.
fn add_member(at: usize, linked: Linked, dot: usize, word: &Text) -> Result<Turn, NoMemory>
    requires { at < usize.MAX }
    ensures { IfOk result (λ turn. Gives turn (λ k. go k (links_mode (expr_view linked.base) (more_link (links_view linked.links) (link_tree dot (suc at) (member word.now)))))) }
{
    match word.share() {
        Ok(name) => {
            let link = Link::new(dot, at + 1, LinkForm::member(name));
            Ok(Turn::Go(add_link(linked, link)?))
        }
        Err(error) => {
            drop(linked);
            Err(error)
        }
    }
}

/// A token behind a dot.
pub fn after_dot(at: usize, linked: Linked, dot: usize, token: &TokenKind) -> Result<Turn, NoMemory>
    requires { at < usize.MAX }
    ensures { IfOk result (λ turn. Gives turn (λ k. dot_step at k (expr_view linked.base) (links_view linked.links) dot token.now)) }
{
    match token {
        TokenKind::Name(word) => add_member(at, linked, dot, word),
        _ => {
            drop(linked);
            Ok(Turn::Fault)
        }
    }
}

/// Whether there are expressions.
#[tactic(auto, using(code_heads::proofs::Empties::empties))]
fn has_exprs(exprs: &List<Expr>) -> bool
    ensures { result ≡ any_exs (exprs_view exprs.now) }
{
    !exprs.as_slice().is_empty()
}

/// The bracket at a place ends a list where an expression might begin.
fn end_row(alloc: Global, at: usize, row: Row, elements: List<Expr>) -> Result<Turn, NoMemory>
    requires { at < usize.MAX }
    ensures { IfOk result (λ turn. Gives turn (λ k. go k (row_closed at (row_view row) (exprs_view elements) (any_exs (exprs_view elements))))) }
{
    let comma = has_exprs(&elements);
    Ok(Turn::Go(close_row(alloc, at, row, elements, comma)?))
}

/// A token in an array, where an element may begin.
fn begin_array_element(
    alloc: Global,
    at: usize,
    stack: &mut Stack,
    first: usize,
    elements: List<Expr>,
    token: &TokenKind,
) -> Result<Turn, NoMemory>
    requires { at < usize.MAX }
    ensures { IfOk result (λ turn. turn_view stack.new turn ≡ row_step at (stack_view stack.old) (array_row first) (exprs_view elements) token.now) }
{
    let row = Row::Array(first);
    match token {
        TokenKind::Punct(Punct::CloseBracket) => end_row(alloc, at, row, elements),
        _ => {
            let frame = Frame::Inner(InnerFrame::Row(row, elements));
            begin_inside(alloc, at, stack, frame, token)
        }
    }
}

/// A token in a call's parentheses, where an argument may begin.
fn begin_argument(
    alloc: Global,
    at: usize,
    stack: &mut Stack,
    linked: Boxed<Linked>,
    first: usize,
    arguments: List<Expr>,
    token: &TokenKind,
) -> Result<Turn, NoMemory>
    requires { at < usize.MAX }
    ensures { IfOk result (λ turn. turn_view stack.new turn ≡ row_step at (stack_view stack.old) (call_row (expr_view linked.base) (links_view linked.links) first) (exprs_view arguments) token.now) }
{
    let row = Row::Call(linked, first);
    match token {
        TokenKind::Punct(Punct::CloseParen) => end_row(alloc, at, row, arguments),
        _ => {
            let frame = Frame::Inner(InnerFrame::Row(row, arguments));
            begin_inside(alloc, at, stack, frame, token)
        }
    }
}

/// A token in a list in brackets, where an expression may begin.
pub fn begin_element(
    alloc: Global,
    at: usize,
    stack: &mut Stack,
    row: Row,
    elements: List<Expr>,
    token: &TokenKind,
) -> Result<Turn, NoMemory>
    requires { at < usize.MAX }
    ensures { IfOk result (λ turn. turn_view stack.new turn ≡ row_step at (stack_view stack.old) (row_view row) (exprs_view elements) token.now) }
{
    match row {
        Row::Array(first) => begin_array_element(alloc, at, stack, first, elements, token),
        Row::Call(linked, first) => {
            begin_argument(alloc, at, stack, linked, first, elements, token)
        }
    }
}
