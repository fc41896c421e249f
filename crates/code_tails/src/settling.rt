// A whole expression, and the token behind it.
ghost use Rattle.std.specs.Prelude.{◌≡◌, ◌<◌, IfOk};
ghost use Rattle.code_tree.specs.View.{expr_view};
ghost use Rattle.code_law.specs.Ladder.{settle as settle_step};
ghost use Rattle.code_state.specs.Stack.{stack_view};
ghost use Rattle.code_state.specs.Turns.{turn_view};

use crate::closing::close;
use code_chains::{ask, join};
use code_state::{Stack, Turn};
use code_tree::Expr;
use code_words::{Behind, follows, level_of};
use flow_values::NoMemory;
use js_token::TokenKind;
use std::alloc::Global;

/// An expression is whole, and the token at a place comes after it.
pub fn settle(
    alloc: Global,
    at: usize,
    stack: &mut Stack,
    whole: Expr,
    token: &TokenKind,
) -> Result<Turn, NoMemory>
    requires { at < usize.MAX }
    ensures { IfOk result (λ turn. turn_view stack.new turn ≡ settle_step at (stack_view stack.old) (expr_view whole) token.now) }
{
    match follows(token) {
        Behind::Joins(joint) => join(alloc, at, stack, whole, level_of(joint), joint),
        Behind::Asks => ask(alloc, at, stack, whole),
        Behind::Sticks => Ok(Turn::Fault),
        Behind::Ends => close(alloc, at, stack, whole, token),
    }
}
