//! Functions, arrows and blocks.
#![tactic(auto, using(crate::proofs::Steps::fits_of))]

ghost use Rattle.std.specs.Prelude.{◌≡◌, None, OnOk, IfOk};
ghost use Rattle.std.specs.Option.{option_copied};
ghost use Rattle.code_tree.specs.Flat.{signature_view};
ghost use Rattle.code_tree.specs.View.{expr_view, function_view, arrow_body_view, block_view, body_view, statements_view};
ghost use Rattle.code_tree.specs.declared.types.ArrowExpr.{out-ArrowExpr};
ghost use Rattle.code_tree.specs.declared.types.Block.{out-Block};
ghost use Rattle.typing.specs.Statements.{returned_value};
ghost use Rattle.typing.specs.Typing.{read, read_function, read_arrow, read_block, read_body, read_stmts};
ghost use Rattle.code_plans.specs.Plans.{plan_of_stmts, plan_of_block, plan_of_body};
ghost use Rattle.code_plans.specs.View.{plan_view, IsPlan};
ghost use Rattle.check_world.specs.View.{world_view};
ghost use Rattle.check_moves.specs.View.{around, scope, env, now};
ghost use Rattle.check_moves.specs.Follows.{Follows};
ghost use Rattle.check_expr.specs.Bodies.{block_body, value_body};

use crate::changes::{set_by_plan, set_in_expr};
use crate::expressions::read;
use crate::functions::own_binding;
use crate::statements::{read_simple, read_statement};
use check_moves::State;
use check_world::World;
use code_plans::{Plan, part, plan_of_statements};
use code_tree::{ArrowBody, ArrowExpr, Block, Body, Expr, Function, Signature, Statement};
use flow_values::NoMemory;
use part_steps::next;
use statement_moves::{
    bind_body, end_body, enter, enter_block, leave, leave_block, reach, return_value, wanted_result,
};
use type_values::FlowType;

/// A function expression (true) or declaration. Gives its type.
///
/// # Errors
///
/// `NoMemory` where memory is refused. The state may only be dropped then.
#[cycle(reading)]
pub fn read_function(
    world: &World<'_>,
    state: &mut State,
    function: &Function,
    is_expression: bool,
) -> Result<FlowType, NoMemory>
    ensures made { IfOk result (λ t. record { ty = t; now = now state.new } ≡ read_function (world_view world.now) is_expression (function_view function.now) (scope state.old) (now state.old)) }
    ensures around { OnOk result (around state.new ≡ around state.old) }
    ensures follows { OnOk result (Follows None state.old None state.new) }
{
    let signature = &function.signature;
    let own = own_binding(world, state, function, is_expression)?;
    let outside = enter(world, state, own, is_expression, signature)?;
    read_block_body(world, state, &function.body, signature)?;
    let ty = leave(world, state, outside, signature)?;
    Ok(ty)
}

/// An arrow, whose body is a block or an expression that is returned. Gives its type.
#[cycle(reading)]
pub(crate) fn read_arrow(
    world: &World<'_>,
    state: &mut State,
    arrow: &ArrowExpr,
) -> Result<FlowType, NoMemory>
    ensures made { IfOk result (λ t. record { ty = t; now = now state.new } ≡ read_arrow (world_view world.now) (signature_view (out-ArrowExpr arrow.now).signature) (arrow_body_view (out-ArrowExpr arrow.now).body) (scope state.old) (now state.old)) }
    ensures around { OnOk result (around state.new ≡ around state.old) }
    ensures follows { OnOk result (Follows None state.old None state.new) }
{
    let signature = &arrow.signature;
    let outside = enter(world, state, None, true, signature)?;
    match &arrow.body {
        ArrowBody::Block(block) => {
            read_block_body(world, state, block, signature)?;
            let ty = leave(world, state, outside, signature)?;
            Ok(ty)
        }
        ArrowBody::Value(value) => {
            read_value_body(world, state, value.get(), signature)?;
            let ty = leave(world, state, outside, signature)?;
            Ok(ty)
        }
    }
}

// The block of a function.
#[cycle(reading)]
fn read_block_body(
    world: &World<'_>,
    state: &mut State,
    block: &Block,
    signature: &Signature,
) -> Result<(), NoMemory>
    ensures env { OnOk result (env state.new ≡ block_body (world_view world.now) (signature_view signature.now) (statements_view (out-Block block.now).statements) (env state.old)) }
    ensures follows { OnOk result (Follows None state.old None state.new) }
{
    let statements = block.statements.as_slice();
    let plan = plan_of_statements(world.alloc, statements)?;
    let set_inside = set_by_plan(world.alloc, &plan)?;
    bind_body(world, state, signature, statements, &set_inside)?;
    read_statements(world, state, statements, Some(&plan))?;
    end_body(world, state, signature)?;
    Ok(())
}

// The expression that an arrow returns.
#[cycle(reading)]
fn read_value_body(
    world: &World<'_>,
    state: &mut State,
    value: &Expr,
    signature: &Signature,
) -> Result<(), NoMemory>
    ensures env { OnOk result (env state.new ≡ value_body (world_view world.now) (signature_view signature.now) (expr_view value.now) (env state.old)) }
    ensures follows { OnOk result (Follows None state.old None state.new) }
{
    let set_inside = set_in_expr(world.alloc, value)?;
    bind_body(world, state, signature, &[], &set_inside)?;
    read_returned(world, state, value)?;
    Ok(())
}

/// The value of a `return`, or of an arrow.
#[cycle(reading)]
pub(crate) fn read_returned(
    world: &World<'_>,
    state: &mut State,
    value: &Expr,
) -> Result<(), NoMemory>
    ensures env { OnOk result (env state.new ≡ returned_value (read (world_view world.now) (expr_view value.now) (scope state.old) (scope state.old).result (now state.old)) (env state.old)) }
    ensures follows { OnOk result (Follows None state.old None state.new) }
{
    let want = wanted_result(state)?;
    let value = read(&*world, state, value, want.as_ref())?;
    return_value(state, value)?;
    Ok(())
}

/// A block, which is a scope of its own.
///
/// # Errors
///
/// `NoMemory` where memory is refused. The state may only be dropped then.
#[cycle(reading)]
pub fn read_block(world: &World<'_>, state: &mut State, block: &Block) -> Result<(), NoMemory>
    ensures env { OnOk result (env state.new ≡ read_block (world_view world.now) (block_view block.now) (env state.old)) }
    ensures follows { OnOk result (Follows None state.old None state.new) }
{
    let plan = plan_of_statements(world.alloc, block.statements.as_slice())?;
    read_planned(world, state, block, &plan)
}

/// A block that stands in code with a plan, or whose plan is made first.
#[cycle(reading)]
pub(crate) fn read_inner_block(
    world: &World<'_>,
    state: &mut State,
    block: &Block,
    plan: Option<&Plan>,
) -> Result<(), NoMemory>
    requires { IsPlan (option_copied plan) (plan_of_block (block_view block.now)) }
    ensures env { OnOk result (env state.new ≡ read_block (world_view world.now) (block_view block.now) (env state.old)) }
    ensures follows { OnOk result (Follows None state.old None state.new) }
{
    match plan {
        Some(plan) => read_planned(world, state, block, plan),
        None => read_block(world, state, block),
    }
}

// A block with its plan.
#[cycle(reading)]
fn read_planned(
    world: &World<'_>,
    state: &mut State,
    block: &Block,
    plan: &Plan,
) -> Result<(), NoMemory>
    requires { plan_view plan.now ≡ plan_of_block (block_view block.now) }
    ensures env { OnOk result (env state.new ≡ read_block (world_view world.now) (block_view block.now) (env state.old)) }
    ensures follows { OnOk result (Follows None state.old None state.new) }
{
    let statements = block.statements.as_slice();
    let set_inside = set_by_plan(world.alloc, plan)?;
    let outer = enter_block(world, state, statements, &set_inside)?;
    read_statements(world, state, statements, Some(plan))?;
    leave_block(state, outer);
    Ok(())
}

/// A body: a block, or a simple statement that is a list of its own and ends behind its semicolon.
#[cycle(reading)]
pub(crate) fn read_body(
    world: &World<'_>,
    state: &mut State,
    body: &Body,
    plan: Option<&Plan>,
) -> Result<(), NoMemory>
    requires { IsPlan (option_copied plan) (plan_of_body (body_view body.now)) }
    ensures env { OnOk result (env state.new ≡ read_body (world_view world.now) (body_view body.now) (env state.old)) }
    ensures follows { OnOk result (Follows None state.old None state.new) }
{
    match body {
        Body::Block(block) => read_inner_block(world, state, block, plan),
        Body::Simple(simple) => {
            let end = next(simple.end)?;
            let stopped = state.is_stopped();
            reach(world, state, simple.first, end)?;
            read_simple(world, state, simple)?;
            state.set_stopped(stopped);
            Ok(())
        }
    }
}

/// Statements, in order.
#[cycle(reading)]
pub(crate) fn read_statements(
    world: &World<'_>,
    state: &mut State,
    statements: &[Statement],
    plan: Option<&Plan>,
) -> Result<(), NoMemory>
    requires { IsPlan (option_copied plan) (plan_of_stmts (statements_view statements.now)) }
    ensures env { OnOk result (env state.new ≡ read_stmts (world_view world.now) (statements_view statements.now) (env state.old)) }
    ensures follows { OnOk result (Follows None state.old None state.new) }
{
    for i in 0..statements.len() {
        let statement = &statements[i];
        let planned = part(plan, i);
        reach(world, state, statement.first, statement.end)?;
        read_statement(world, state, statement, planned)?;
    }
    Ok(())
}
