// The token behind an expression that links may follow.
ghost use Rattle.std.specs.Prelude.{◌≡◌, ◌<◌, IfOk};
ghost use Rattle.code_tree.specs.View.{expr_view, links_view};
ghost use Rattle.code_law.specs.Expressions.{linked as linked_to, links_step};
ghost use Rattle.code_state.specs.Stack.{stack_view};
ghost use Rattle.code_state.specs.Turns.{turn_view};

use crate::settling::settle;
use code_state::{Frame, InnerFrame, Linked, Mode, Row, Stack, Turn, ValueMode};
use code_tree::{Expr, ExprForm};
use flow_values::{Boxed, List, NoMemory};
use js_token::{Punct, TokenKind};
use std::alloc::Global;

/// An expression with the links behind it, up to a place.
#[tactic(auto, using(code_heads::proofs::Empties::links_whole, code_heads::proofs::Empties::linked_none))]
fn whole_links(alloc: Global, at: usize, linked: Linked) -> Result<Expr, NoMemory>
    ensures { IfOk result (λ e. expr_view e ≡ linked_to at (expr_view linked.base) (links_view linked.links)) }
{
    let Linked { base, links } = linked;
    if links.as_slice().is_empty() {
        return Ok(base);
    }
    let first = base.first;
    let form = ExprForm::postfix(alloc, base, links)?;
    Ok(Expr::new(first, at, form))
}

/// A token behind an expression that links may follow.
#[tactic(auto, using(code_state::proofs::Pushes::nothings))]
pub fn after_links(
    alloc: Global,
    at: usize,
    stack: &mut Stack,
    linked: Linked,
    token: &TokenKind,
) -> Result<Turn, NoMemory>
    requires { at < usize.MAX }
    ensures { IfOk result (λ turn. turn_view stack.new turn ≡ links_step at (stack_view stack.old) (expr_view linked.base) (links_view linked.links) token.now) }
{
    match token {
        TokenKind::Punct(Punct::Dot) => Ok(Turn::Go(Mode::Value(ValueMode::Dot(linked, at)))),
        TokenKind::Punct(Punct::OpenBracket) => {
            stack.push(Frame::Inner(InnerFrame::Index(linked, at)))?;
            Ok(Turn::Go(Mode::Value(ValueMode::Want)))
        }
        TokenKind::Punct(Punct::OpenParen) => {
            let row = Row::Call(Boxed::new(alloc, linked)?, at);
            Ok(Turn::Go(Mode::Value(ValueMode::RowStart(row, List::new(alloc)))))
        }
        _ => {
            let expr = whole_links(alloc, at, linked)?;
            settle(alloc, at, stack, expr, token)
        }
    }
}
