// A whole expression, and the `?` behind it.
ghost use Rattle.std.specs.Prelude.{◌≡◌, IfOk};
ghost use Rattle.code_tree.specs.View.{expr_view, arms_view};
ghost use Rattle.code_law.specs.Ladder.{ask_test as test_step, ask as ask_step};
ghost use Rattle.code_state.specs.Stack.{stack_view};
ghost use Rattle.code_state.specs.Turns.{turn_view};

use crate::chains::form_rank;
use crate::ends::end_operator;
use code_state::{Frame, InnerFrame, Mode, Stack, Turn, ValueMode};
use code_tree::{Arm, Expr};
use flow_values::{List, NoMemory};
use std::alloc::Global;

/// A test is whole, behind the arms of a conditional so far.
#[tactic(auto, using(crate::proofs::Ranks::tests))]
fn ask_test(stack: &mut Stack, first: usize, arms: List<Arm>, test: Expr) -> Result<Turn, NoMemory>
    ensures { IfOk result (λ turn. turn_view stack.new turn ≡ test_step (stack_view stack.old) first (arms_view arms) (expr_view test)) }
{
    if form_rank(&test.form) >= 1 {
        stack.push(Frame::Inner(InnerFrame::Branch(first, arms, test)))?;
        Ok(Turn::Go(Mode::Value(ValueMode::Want)))
    } else {
        drop(arms);
        drop(test);
        Ok(Turn::Fault)
    }
}

/// An expression is whole, and `?` stands behind it at a place.
#[tactic(auto, using(crate::proofs::Ladders::asks, code_state::proofs::Pushes::nothings, code_state::proofs::Views::starts))]
pub fn ask(alloc: Global, at: usize, stack: &mut Stack, whole: Expr) -> Result<Turn, NoMemory>
    ensures { IfOk result (λ turn. turn_view stack.new turn ≡ ask_step at (stack_view stack.old) (expr_view whole)) }
{
    let mut expr = whole;
    'outwards: while let Some(form) = stack.pop_operator() {
        expr = end_operator(alloc, at, form, expr)?;
    }
    match stack.pop_arms() {
        Some((first, arms)) => ask_test(stack, first, arms, expr),
        None => ask_test(stack, expr.first, List::new(alloc), expr),
    }
}
