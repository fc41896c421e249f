// A whole expression, and an operator that joins a further operand.
ghost use Rattle.std.specs.Prelude.{◌≡◌, ◌<◌, ◌∷◌, true, IfOk, MatchOption};
ghost use Rattle.js_grammar.specs.Code.{chain, form_rank as rank_of_form, rank as rank_of};
ghost use Rattle.code_tree.specs.declared.types.ChainExpr.{out-ChainExpr};
ghost use Rattle.code_tree.specs.Flat.{level_view, operator_view};
ghost use Rattle.code_tree.specs.View.{expr_view, expr_form_view, operands_view};
ghost use Rattle.code_law.specs.Ladder.{begin as begin_step, open_chain as open_step, join as join_step};
ghost use Rattle.code_law.specs.Frames.{in_chain};
ghost use Rattle.code_state.specs.Forms.{operator_frame_view};
ghost use Rattle.code_state.specs.Stack.{stack_view};
ghost use Rattle.code_state.specs.Turns.{turn_view};
ghost use Rattle.code_words.specs.Words.{joint_view};
ghost use Rattle.code_chains.specs.Ended.{chain_rank as rank_of_chain, stays_open as stays};

use crate::ends::end_operator;
use code_state::{Frame, Mode, OpenChain, OperatorFrame, Stack, Turn, ValueMode, Waiting};
use code_tree::{ChainExpr, Expr, ExprForm, Level, Operator};
use code_words::{Joint, operand_rank, rank};
use flow_values::{Boxed, List, NoMemory};
use std::alloc::Global;

/// How tight an expression's form binds: 0 to 10.
#[tactic(auto, unfolding(code_tree::specs::View::expr_form_view, code_tree::specs::View::chain_expr_view, code_tree::specs::View::postfix_expr_view, code_tree::specs::View::conditional_expr_view, code_tree::specs::View::arrow_expr_view))]
pub fn form_rank(form: &ExprForm) -> u8
    ensures { result ≡ rank_of_form (expr_form_view form.now) }
{
    match form {
        ExprForm::Conditional(_) | ExprForm::Arrow(_) => 0,
        ExprForm::Chain(chain) => rank(chain.level),
        ExprForm::Prefix { .. } => 8,
        ExprForm::Postfix(_) => 9,
        _ => 10,
    }
}

/// The rank of a chain's level, and 0 of another form.
#[tactic(auto, unfolding(code_tree::specs::View::expr_form_view, code_tree::specs::View::chain_expr_view, code_tree::specs::View::postfix_expr_view, code_tree::specs::View::conditional_expr_view, code_tree::specs::View::arrow_expr_view))]
fn chain_rank(form: &ExprForm) -> u8
    ensures { result ≡ rank_of_chain (expr_form_view form.now) }
{
    match form {
        ExprForm::Chain(chain) => rank(chain.level),
        _ => 0,
    }
}

/// A further operand of a chain begins.
fn begin(at: usize, stack: &mut Stack, so_far: OpenChain, joint: Joint) -> Result<Turn, NoMemory>
    ensures { IfOk result (λ turn. turn_view stack.new turn ≡ begin_step at (stack_view stack.old) so_far.first (level_view so_far.level) (expr_view so_far.left) (operands_view so_far.operands) (joint_view joint)) }
{
    match joint {
        Joint::Applies(operator) => {
            stack.push(Frame::Operator(OperatorFrame::Chain(so_far, at, operator)))?;
            Ok(Turn::Go(Mode::Value(ValueMode::Want)))
        }
        Joint::Casts => Ok(Turn::Type(Waiting::Cast(so_far, at))),
    }
}

/// A chain's level, its first expression and its operands.
#[tactic(auto, unfolding(code_tree::specs::View::expr_view, code_tree::specs::View::expr_form_view, code_tree::specs::View::chain_expr_view, code_tree::specs::View::postfix_expr_view, code_tree::specs::View::conditional_expr_view, code_tree::specs::View::arrow_expr_view, code_tree::specs::View::operand_view, code_tree::specs::View::operands_view))]
fn take_chain(form: ExprForm) -> Option<ChainExpr>
    ensures { MatchOption result (rank_of_chain (expr_form_view form) ≡ 0) (λ c. expr_form_view form ≡ chain (level_view (out-ChainExpr c).level) (expr_view (out-ChainExpr c).left) (operands_view (out-ChainExpr c).operands)) }
{
    match form {
        ExprForm::Chain(chain) => Some(chain),
        other => {
            drop(other);
            None
        }
    }
}

/// A chain of the level goes on.
#[tactic(auto, using(crate::proofs::Ranks::goes_on, crate::proofs::Ranks::none_ranked))]
fn go_on_chain(
    at: usize,
    stack: &mut Stack,
    expr: Expr,
    level: Level,
    joint: Joint,
) -> Result<Turn, NoMemory>
    requires { rank_of_chain (expr_form_view expr.form) ≡ rank_of (level_view level) }
    ensures { IfOk result (λ turn. turn_view stack.new turn ≡ open_step at (stack_view stack.old) (expr_view expr) (level_view level) (joint_view joint)) }
{
    let Expr { first, form, .. } = expr;
    match take_chain(form) {
        Some(ChainExpr { left, operands, .. }) => {
            let so_far = OpenChain {
                first,
                level,
                left,
                operands,
            };
            begin(at, stack, so_far, joint)
        }
        None => Ok(Turn::Fault),
    }
}

/// An operand of a chain, or the first of a new one, is whole.
#[tactic(auto, using(crate::proofs::Ranks::ranks, code_state::proofs::Pushes::nothings))]
fn open_chain(
    alloc: Global,
    at: usize,
    stack: &mut Stack,
    expr: Expr,
    level: Level,
    joint: Joint,
) -> Result<Turn, NoMemory>
    ensures { IfOk result (λ turn. turn_view stack.new turn ≡ open_step at (stack_view stack.old) (expr_view expr) (level_view level) (joint_view joint)) }
{
    if chain_rank(&expr.form) == rank(level) {
        go_on_chain(at, stack, expr, level, joint)
    } else if operand_rank(level) <= form_rank(&expr.form) {
        let so_far = OpenChain {
            first: expr.first,
            level,
            left: Boxed::new(alloc, expr)?,
            operands: List::new(alloc),
        };
        begin(at, stack, so_far, joint)
    } else {
        Ok(Turn::Fault)
    }
}

/// Whether an open operator stays open before an operator of a level.
fn stays_open(form: &OperatorFrame, level: Level) -> bool
    ensures { result ≡ stays (operator_frame_view form.now) (level_view level) }
{
    match form {
        OperatorFrame::Prefix(..) => false,
        OperatorFrame::Chain(so_far, _, _) => rank(so_far.level) < rank(level),
    }
}

/// An operator of a level joins what stands in a chain that stays open.
#[tactic(auto, using(crate::proofs::Ladders::stayings))]
fn join_inside(
    alloc: Global,
    at: usize,
    stack: &mut Stack,
    so_far: OpenChain,
    place: usize,
    operator: Operator,
    expr: Expr,
    level: Level,
    joint: Joint,
) -> Result<Turn, NoMemory>
    requires { rank_of (level_view so_far.level) < rank_of (level_view level) }
    ensures { IfOk result (λ turn. turn_view stack.new turn ≡ join_step at (in_chain so_far.first (level_view so_far.level) (expr_view so_far.left) (operands_view so_far.operands) place (operator_view operator) ∷ stack_view stack.old) (expr_view expr) (level_view level) (joint_view joint)) }
{
    let binds = operand_rank(so_far.level) <= rank(level);
    stack.push(Frame::Operator(OperatorFrame::Chain(so_far, place, operator)))?;
    if binds {
        open_chain(alloc, at, stack, expr, level, joint)
    } else {
        Ok(Turn::Fault)
    }
}

/// An operator of a level joins what stands in an operator that stays open.
#[tactic(auto, using(std::proofs::lemmas::Bool::Decides::nat_tests))]
fn join_open(
    alloc: Global,
    at: usize,
    stack: &mut Stack,
    form: OperatorFrame,
    expr: Expr,
    level: Level,
    joint: Joint,
) -> Result<Turn, NoMemory>
    requires { stays (operator_frame_view form) (level_view level) ≡ true }
    ensures { IfOk result (λ turn. turn_view stack.new turn ≡ join_step at (operator_frame_view form ∷ stack_view stack.old) (expr_view expr) (level_view level) (joint_view joint)) }
{
    match form {
        OperatorFrame::Prefix(..) => Ok(Turn::Fault),
        OperatorFrame::Chain(so_far, place, operator) => {
            join_inside(
                alloc, at, stack, so_far, place, operator, expr, level, joint,
            )
        }
    }
}

/// An expression is whole, and a chain of this level joins it at a place.
#[tactic(auto, using(crate::proofs::Ladders::joins))]
pub fn join(
    alloc: Global,
    at: usize,
    stack: &mut Stack,
    whole: Expr,
    level: Level,
    joint: Joint,
) -> Result<Turn, NoMemory>
    ensures { IfOk result (λ turn. turn_view stack.new turn ≡ join_step at (stack_view stack.old) (expr_view whole) (level_view level) (joint_view joint)) }
{
    let mut expr = whole;
    'outwards: while let Some(form) = stack.pop_operator() {
        if stays_open(&form, level) {
            return join_open(alloc, at, stack, form, expr, level, joint);
        }
        expr = end_operator(alloc, at, form, expr)?;
    }
    open_chain(alloc, at, stack, expr, level, joint)
}
