// What a form that ends with a whole expression becomes.
ghost use Rattle.std.specs.Prelude.{◌≡◌, IfOk};
ghost use Rattle.js_grammar.specs.Code.{ex, chain, more_operand};
ghost use Rattle.code_tree.specs.Flat.{level_view};
ghost use Rattle.code_tree.specs.View.{expr_view, expr_form_view, operand_view, operands_view};
ghost use Rattle.code_state.specs.Forms.{operator_frame_view, tail_view};
ghost use Rattle.code_chains.specs.Ended.{ended};

use code_state::{OpenChain, OperatorFrame, TailFrame};
use code_tree::{ArrowBody, ChainExpr, Expr, ExprForm, Level, Operand, OperandForm};
use flow_values::{Boxed, List, NoMemory};
use std::alloc::Global;

/// A chain of these operands.
#[tactic(auto, unfolding(code_tree::specs::View::expr_view, code_tree::specs::View::expr_form_view, code_tree::specs::View::chain_expr_view, code_tree::specs::View::operand_view, code_tree::specs::View::operands_view))]
fn chain_form(level: Level, left: Boxed<Expr>, operands: List<Operand>) -> ExprForm
    ensures { expr_form_view result ≡ chain (level_view level) (expr_view left) (operands_view operands) }
{
    ExprForm::Chain(ChainExpr {
        level,
        left,
        operands,
    })
}

/// The chain that an operand ends, up to a place.
#[tactic(auto, using(code_state::proofs::Pushes::pushes))]
pub fn end_chain(at: usize, so_far: OpenChain, operand: Operand) -> Result<Expr, NoMemory>
    ensures { IfOk result (λ e. expr_view e ≡ ex so_far.first at (chain (level_view so_far.level) (expr_view so_far.left) (more_operand (operands_view so_far.operands) (operand_view operand)))) }
{
    let OpenChain {
        first,
        level,
        left,
        mut operands,
    } = so_far;
    operands.push(operand)?;
    Ok(Expr::new(first, at, chain_form(level, left, operands)))
}

/// The expression that an operator and its operand make, up to a place.
pub fn end_operator(
    alloc: Global,
    at: usize,
    form: OperatorFrame,
    operand: Expr,
) -> Result<Expr, NoMemory>
    ensures { IfOk result (λ e. expr_view e ≡ ended at (operator_frame_view form) (expr_view operand)) }
{
    match form {
        OperatorFrame::Prefix(first, marks) => {
            let form = ExprForm::prefix(alloc, marks, operand)?;
            Ok(Expr::new(first, at, form))
        }
        OperatorFrame::Chain(so_far, place, operator) => {
            let form = OperandForm::right(operator, operand);
            end_chain(at, so_far, Operand::new(place, at, form))
        }
    }
}

/// The expression that another form and its last one make, up to a place.
#[tactic(auto, using(code_state::proofs::Views::starts))]
pub fn end_tail(alloc: Global, at: usize, form: TailFrame, last: Expr) -> Result<Expr, NoMemory>
    ensures { IfOk result (λ e. expr_view e ≡ ended at (tail_view form) (expr_view last)) }
{
    match form {
        TailFrame::Last(first, arms) => {
            let form = ExprForm::conditional(alloc, arms, last)?;
            Ok(Expr::new(first, at, form))
        }
        TailFrame::Arrow(signature) => {
            let signature = signature.into_inner();
            let first = signature.first;
            let value = ArrowBody::value(alloc, last)?;
            let form = ExprForm::arrow(alloc, signature, value)?;
            Ok(Expr::new(first, at, form))
        }
    }
}
