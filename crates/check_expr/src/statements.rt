//! Statements.
#![tactic(auto, using(crate::proofs::Steps::fits_of))]

ghost use Rattle.std.specs.Prelude.{◌≡◌, ◌∷◌, [], ℕ, reverse, None, OnOk, IfOk};
ghost use Rattle.std.specs.Option.{option_copied, option_map};
ghost use Rattle.js_grammar.specs.Code.{ex};
ghost use Rattle.code_tree.specs.View.{expr_view, postfix_expr_view, link_view, body_view, branches_view, statement_form_view, declaration_view, simple_form_view, assignment_view, if_statement_view, else_view, while_statement_view};
ghost use Rattle.code_tree.specs.declared.types.Statement.{out-Statement};
ghost use Rattle.code_tree.specs.declared.types.Simple.{out-Simple};
ghost use Rattle.code_tree.specs.declared.types.Branch.{out-Branch};
ghost use Rattle.flow_facts.specs.Known.{Known};
ghost use Rattle.part_steps.specs.View.{goal_view};
ghost use Rattle.typing.specs.States.{after, on_yes, with_now};
ghost use Rattle.typing.specs.Statements.{forked};
ghost use Rattle.fact_ways.specs.Ways.{Fits, way_of, ways_of, all_joined};
ghost use Rattle.typing.specs.Typing.{read, read_body, read_stmt, read_declaration, read_simple, read_branches, read_else};
ghost use Rattle.code_plans.specs.Plans.{plan_of_form, plan_of_branches, plan_of_body, plan_of_else};
ghost use Rattle.code_plans.specs.View.{plan_view, IsPlan};
ghost use Rattle.check_world.specs.View.{world_view};
ghost use Rattle.check_moves.specs.View.{around, scope, env, now, told};
ghost use Rattle.check_moves.specs.Follows.{Follows, Leaves};
ghost use Rattle.check_expr.specs.Targets.{link_aim, aim, aim_goal, aim_now};

use crate::bodies::{read_body, read_function, read_inner_block, read_returned};
use crate::expressions::{read, read_test};
use crate::postfixes::read_links;
use check_moves::{Read, State};
use check_world::World;
use code_plans::{Plan, part, plan_of_loop};
use code_tree::{
    Assignment, Branch, Declaration, Else, Expr, ExprForm, IfStatement, Link, LinkForm,
    PostfixExpr, Simple, SimpleForm, Statement, StatementForm, WhileStatement,
};
use expression_moves::read_annotated;
use fact_ways::Fork;
use flow_facts::Place;
use flow_values::NoMemory;
use part_steps::{Goal, element_goal, next, property_goal};
use place_tests::{step_place, variable_in};
use statement_moves::{
    assigned, break_loop, declare, enter_loop, leave_loop, read_variable_goal, return_bare,
};

/// A statement.
#[cycle(reading)]
pub(crate) fn read_statement(
    world: &World<'_>,
    state: &mut State,
    statement: &Statement,
    plan: Option<&Plan>,
) -> Result<(), NoMemory>
    requires { IsPlan (option_copied plan) (plan_of_form (statement_form_view (out-Statement statement.now).form)) }
    ensures env { OnOk result (env state.new ≡ read_stmt (world_view world.now) (out-Statement statement.now).first (out-Statement statement.now).end (statement_form_view (out-Statement statement.now).form) (env state.old)) }
    ensures follows { OnOk result (Follows None state.old None state.new) }
{
    match &statement.form {
        StatementForm::Declaration(declaration) => read_declaration(world, state, declaration),
        StatementForm::Function(function) => {
            read_function(world, state, function, false)?;
            Ok(())
        }
        StatementForm::Simple(simple) => read_simple(world, state, simple),
        StatementForm::If(statement) => read_if(world, state, statement, plan),
        StatementForm::While(statement) => read_while(world, state, statement, plan),
        StatementForm::Block(block) => read_inner_block(world, state, block, plan),
    }
}

/// A declaration: its annotation, then its value.
///
/// # Errors
///
/// `NoMemory` where memory is refused. The state may only be dropped then.
#[cycle(reading)]
pub fn read_declaration(
    world: &World<'_>,
    state: &mut State,
    declaration: &Declaration,
) -> Result<(), NoMemory>
    ensures env { OnOk result (env state.new ≡ read_declaration (world_view world.now) (declaration_view declaration.now) (env state.old)) }
    ensures follows { OnOk result (Follows None state.old None state.new) }
{
    let want = read_annotated(world, state, &declaration.annotation)?;
    let value = read(&*world, state, &declaration.value, want.as_ref())?;
    let token = next(declaration.first)?;
    declare(world, state, token, declaration.binder, want, value)?;
    Ok(())
}

/// A simple statement.
///
/// # Errors
///
/// `NoMemory` where memory is refused. The state may only be dropped then.
#[cycle(reading)]
pub fn read_simple(world: &World<'_>, state: &mut State, simple: &Simple) -> Result<(), NoMemory>
    ensures env { OnOk result (env state.new ≡ read_simple (world_view world.now) (out-Simple simple.now).first (out-Simple simple.now).end (simple_form_view (out-Simple simple.now).form) (env state.old)) }
    ensures follows { OnOk result (Follows None state.old None state.new) }
{
    match &simple.form {
        SimpleForm::Return => return_bare(world, state, simple.first, simple.end),
        SimpleForm::ReturnValue(value) => read_returned(world, state, value),
        SimpleForm::Throw(value) => {
            let value = read(world, state, value, None)?;
            state.after(value)?;
            state.die();
            Ok(())
        }
        SimpleForm::Break => break_loop(state),
        SimpleForm::Continue => {
            state.die();
            Ok(())
        }
        SimpleForm::Evaluate(value) => {
            let value = read(world, state, value, None)?;
            state.after(value)?;
            Ok(())
        }
        SimpleForm::Assign(assignment) => read_assignment(world, state, assignment),
    }
}

#[cycle(reading)]
fn read_assignment(
    world: &World<'_>,
    state: &mut State,
    assignment: &Assignment,
) -> Result<(), NoMemory>
    ensures env { (first end : ℕ) → OnOk result (env state.new ≡ read_simple (world_view world.now) first end (assignment_view assignment.now) (env state.old)) }
    ensures follows { OnOk result (Follows None state.old None state.new) }
{
    let Some(goal) = read_target(world, state, &assignment.target)? else {
        return Ok(());
    };
    let value = &assignment.value;
    let read = read(&*world, state, value, goal.want())?;
    assigned(world, state, (value.first, value.end), goal, read)?;
    Ok(())
}

// The target of an assignment, if it is one.
#[cycle(reading)]
fn read_target(
    world: &World<'_>,
    state: &mut State,
    target: &Expr,
) -> Result<Option<Goal>, NoMemory>
    ensures goal { IfOk result (λ g. option_map goal_view g ≡ aim_goal (aim (world_view world.now) (expr_view target.now) (scope state.old) (now state.old))) }
    ensures now { OnOk result (now state.new ≡ aim_now (aim (world_view world.now) (expr_view target.now) (scope state.old) (now state.old)) (now state.old)) }
    ensures around { OnOk result (around state.new ≡ around state.old) }
    ensures follows { OnOk result (Follows None state.old None state.new) }
{
    match &target.form {
        ExprForm::Variable(name) => {
            Ok(Some(read_variable_goal(world, state, target.first, name)?))
        }
        ExprForm::Postfix(e) => read_part(world, state, e, target.first),
        _ => Ok(None),
    }
}

// A property or an element as a target that begins at a token.
#[cycle(reading)]
fn read_part(
    world: &World<'_>,
    state: &mut State,
    e: &PostfixExpr,
    first: usize,
) -> Result<Option<Goal>, NoMemory>
    ensures goal { (end : ℕ) → IfOk result (λ g. option_map goal_view g ≡ aim_goal (aim (world_view world.now) (ex first end (postfix_expr_view e.now)) (scope state.old) (now state.old))) }
    ensures now { (end : ℕ) → OnOk result (now state.new ≡ aim_now (aim (world_view world.now) (ex first end (postfix_expr_view e.now)) (scope state.old) (now state.old)) (now state.old)) }
    ensures around { OnOk result (around state.new ≡ around state.old) }
    ensures follows { OnOk result (Follows None state.old None state.new) }
{
    let links = e.links.as_slice();
    let Some(last) = links.last() else {
        return Ok(None);
    };
    if let LinkForm::Call { .. } = &last.form {
        return Ok(None);
    }
    let inner = e.base.get();
    let from = variable_in(&state.scope, inner);
    let base = read(world, state, inner, None)?;
    let object = read_links(world, state, &links[..links.len() - 1], first, from, base)?;
    let place = step_place(from, links)?;
    let goal = read_last(world, state, last, first, place, object)?;
    Ok(goal)
}

// The last link of a target.
#[cycle(reading)]
fn read_last(
    world: &World<'_>,
    state: &mut State,
    last: &Link,
    first: usize,
    place: Option<Place>,
    object: Read,
) -> Result<Option<Goal>, NoMemory>
    requires fits { Fits object.fork state.old.facts }
    ensures goal { IfOk result (λ g. option_map goal_view g ≡ aim_goal (link_aim (world_view world.now) first (link_view last.now) place (scope state.old) (told object state.old))) }
    ensures now { OnOk result (now state.new ≡ aim_now (link_aim (world_view world.now) first (link_view last.now) place (scope state.old) (told object state.old)) (after (told object state.old))) }
    ensures around { OnOk result (around state.new ≡ around state.old) }
    ensures follows { OnOk result (Follows object.fork state.old None state.new) }
{
    let object_type = state.after(object)?;
    match &last.form {
        LinkForm::Member(key) => {
            let tokens = (first, last.first, last.end);
            let goal = property_goal(world, tokens, key, place, &object_type)?;
            Ok(Some(goal))
        }
        LinkForm::Index(e) => {
            let index = read(world, state, e, None)?;
            let index = state.after(index)?;
            let (object, tokens) = ((first, last.first), (e.first, e.end));
            let goal = element_goal(world, object, tokens, &index, &object_type)?;
            Ok(Some(goal))
        }
        LinkForm::Call { .. } => Ok(None),
    }
}

#[cycle(reading)]
fn read_if(
    world: &World<'_>,
    state: &mut State,
    statement: &IfStatement,
    plan: Option<&Plan>,
) -> Result<(), NoMemory>
    requires { IsPlan (option_copied plan) (plan_of_form (if_statement_view statement.now)) }
    ensures env { (first end : ℕ) → OnOk result (env state.new ≡ read_stmt (world_view world.now) first end (if_statement_view statement.now) (env state.old)) }
    ensures follows { OnOk result (Follows None state.old None state.new) }
{
    let planned = part(plan, 0);
    let last = part(plan, 1);
    let arms = read_branches(world, state, statement.branches.as_slice(), planned)?;
    read_else(world, state, &statement.last, last)?;
    state.meet_arms(arms)?;
    Ok(())
}

// The arms of an `if` behind their tests; what follows is read where each test is falsy.
#[cycle(reading)]
fn read_branches(
    world: &World<'_>,
    state: &mut State,
    branches: &[Branch],
    plan: Option<&Plan>,
) -> Result<Vec<Fork>, NoMemory>
    requires { IsPlan (option_copied plan) (plan_of_branches (branches_view branches.now)) }
    ensures env { OnOk result (env state.new ≡ (read_branches (world_view world.now) (branches_view branches.now) (env state.old)).env) }
    ensures arms { IfOk result (λ all. all_joined (ways_of state.new.facts (reverse all.items)) None ≡ (read_branches (world_view world.now) (branches_view branches.now) (env state.old)).arms) }
    ensures leaves { IfOk result (λ all. Leaves state.old (reverse all.items) None state.new) }
{
    let mut arms = Vec::new(world.alloc);
    for i in 0..branches.len() {
        let branch = &branches[i];
        let planned = part(plan, i);
        let arm = read_branch(world, state, branch, planned)?;
        arms.push(arm)?;
    }
    Ok(arms)
}

// A test and its body; what follows is read where the test is falsy.
#[cycle(reading)]
fn read_branch(
    world: &World<'_>,
    state: &mut State,
    branch: &Branch,
    plan: Option<&Plan>,
) -> Result<Fork, NoMemory>
    requires { IsPlan (option_copied plan) (plan_of_body (body_view (out-Branch branch.now).body)) }
    ensures env { OnOk result ((arms : Known) → env state.new ≡ (forked (record { env = env state.old; arms = arms }) (read (world_view world.now) (expr_view (out-Branch branch.now).test) (scope state.old) None (now state.old)) (read_body (world_view world.now) (body_view (out-Branch branch.now).body) (with_now (on_yes (read (world_view world.now) (expr_view (out-Branch branch.now).test) (scope state.old) None (now state.old))) (env state.old)))).env) }
    ensures way { IfOk result (λ k. way_of state.new.facts k ≡ (read_body (world_view world.now) (body_view (out-Branch branch.now).body) (with_now (on_yes (read (world_view world.now) (expr_view (out-Branch branch.now).test) (scope state.old) None (now state.old))) (env state.old))).facts) }
    ensures leaves { IfOk result (λ k. Leaves state.old (k ∷ []) None state.new) }
{
    let fork = read_test(world, state, &branch.test)?;
    read_body(world, state, &branch.body, plan)?;
    let way = state.turn(fork)?;
    Ok(way)
}

#[cycle(reading)]
fn read_else(
    world: &World<'_>,
    state: &mut State,
    last: &Else,
    plan: Option<&Plan>,
) -> Result<(), NoMemory>
    requires { IsPlan (option_copied plan) (plan_of_else (else_view last.now)) }
    ensures env { OnOk result (env state.new ≡ read_else (world_view world.now) (else_view last.now) (env state.old)) }
    ensures follows { OnOk result (Follows None state.old None state.new) }
{
    match last {
        Else::Nothing => Ok(()),
        Else::Body(body) => read_body(world, state, body, plan),
    }
}

#[cycle(reading)]
fn read_while(
    world: &World<'_>,
    state: &mut State,
    statement: &WhileStatement,
    plan: Option<&Plan>,
) -> Result<(), NoMemory>
    requires { IsPlan (option_copied plan) (plan_of_form (while_statement_view statement.now)) }
    ensures env { (first end : ℕ) → OnOk result (env state.new ≡ read_stmt (world_view world.now) first end (while_statement_view statement.now) (env state.old)) }
    ensures follows { OnOk result (Follows None state.old None state.new) }
{
    match plan {
        Some(plan) => read_loop(world, state, statement, plan),
        None => {
            let plan = plan_of_loop(world.alloc, statement)?;
            read_loop(world, state, statement, &plan)
        }
    }
}

// A loop with its plan.
#[cycle(reading)]
fn read_loop(
    world: &World<'_>,
    state: &mut State,
    statement: &WhileStatement,
    plan: &Plan,
) -> Result<(), NoMemory>
    requires { plan_view plan.now ≡ plan_of_form (while_statement_view statement.now) }
    ensures env { (first end : ℕ) → OnOk result (env state.new ≡ read_stmt (world_view world.now) first end (while_statement_view statement.now) (env state.old)) }
    ensures follows { OnOk result (Follows None state.old None state.new) }
{
    let outer = enter_loop(state, plan.changes.as_slice())?;
    let fork = read_test(world, state, &statement.test)?;
    read_body(world, state, &statement.body, part(Some(plan), 0))?;
    leave_loop(state, fork, outer)?;
    Ok(())
}
