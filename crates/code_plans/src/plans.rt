//! A walk through statements, which finds what their loops and blocks may change, from the innermost outwards.
#![tactic(auto, unfolding(code_tree::specs::View::block_view, code_tree::specs::View::statement_view, code_tree::specs::View::statement_form_view, code_tree::specs::View::declaration_view, code_tree::specs::View::function_view, code_tree::specs::View::simple_view, code_tree::specs::View::if_statement_view, code_tree::specs::View::while_statement_view, code_tree::specs::View::else_view, code_tree::specs::View::body_view, code_tree::specs::View::branch_view, code_tree::specs::View::expr_view))]

ghost use Rattle.std.specs.Prelude.{◌≡◌, IfOk, OnOk};
ghost use Rattle.typing.specs.Changes.{changes_of_ex, changes_of_block, changes_of_stmts, changes_of_stmt, changes_of_stmt_form, changes_of_body, changes_of_branch, changes_of_branches, changes_of_else};
ghost use Rattle.code_tree.specs.View.{expr_view, block_view, statement_view, if_statement_view, while_statement_view, body_view, branch_view, else_view, statements_view, branches_view};
ghost use Rattle.code_tree.specs.declared.types.IfStatement.{out-IfStatement};
ghost use Rattle.code_plans.specs.Plans.{plan_of_stmts, plan_of_stmt, plan_of_form, plan_of_block, plan_of_body, plans_of_branches, plan_of_branch, plan_of_else};
ghost use Rattle.code_plans.specs.View.{plan_view, plans_view, Adds};

use crate::distinct::add_all;
use crate::leaves::{nothing, plan_of_expr, plan_of_function, plan_of_simple};
use crate::own_names::{add_outside, names_of_block};
use crate::plan::Plan;
use code_changes::Change;
use code_tree::{Block, Body, Branch, Else, IfStatement, Statement, StatementForm, WhileStatement};
use flow_values::{List, NoMemory};
use std::alloc::Global;

/// The plan of statements: what they may change, their own names among it still, and the plan of each.
///
/// # Errors
///
/// `NoMemory` where memory is refused.
#[cycle(planning)]
pub fn plan_of_statements(alloc: Global, all: &[Statement]) -> Result<Plan, NoMemory>
    ensures { IfOk result (λ made. plan_view made ≡ plan_of_stmts (statements_view all.now)) }
{
    let mut changes = List::new(alloc);
    let mut parts = List::new(alloc);
    for i in 0..all.len() {
        let part = plan_of_statement(alloc, &all[i], &mut changes)?;
        parts.push(part)?;
    }
    let made = Plan::with_changes(alloc, changes.as_slice(), parts)?;
    Ok(made)
}

// The plan of a statement, what it may change is put behind other changes.
#[cycle(planning)]
fn plan_of_statement(
    alloc: Global,
    statement: &Statement,
    out: &mut List<Change>,
) -> Result<Plan, NoMemory>
    ensures made { IfOk result (λ made. plan_view made ≡ plan_of_stmt (statement_view statement.now)) }
    ensures told { OnOk result (Adds out.old out.new (changes_of_stmt (statement_view statement.now))) }
{
    match &statement.form {
        StatementForm::Declaration(declaration) => plan_of_expr(alloc, &declaration.value, out),
        StatementForm::Function(function) => plan_of_function(alloc, function, out),
        StatementForm::Simple(simple) => plan_of_simple(alloc, simple, out),
        StatementForm::If(statement) => plan_of_if(alloc, statement, out),
        StatementForm::While(statement) => plan_of_while(alloc, statement, out),
        StatementForm::Block(block) => plan_of_block(alloc, block, out),
    }
}

#[cycle(planning)]
fn plan_of_block(alloc: Global, block: &Block, out: &mut List<Change>) -> Result<Plan, NoMemory>
    ensures made { IfOk result (λ made. plan_view made ≡ plan_of_block (block_view block.now)) }
    ensures told { OnOk result (Adds out.old out.new (changes_of_block (block_view block.now))) }
{
    let statements = block.statements.as_slice();
    let made = plan_of_statements(alloc, statements)?;
    let own = names_of_block(alloc, statements)?;
    add_outside(&own, made.changes.as_slice(), out)?;
    Ok(made)
}

#[cycle(planning)]
fn plan_of_body(alloc: Global, body: &Body, out: &mut List<Change>) -> Result<Plan, NoMemory>
    ensures made { IfOk result (λ made. plan_view made ≡ plan_of_body (body_view body.now)) }
    ensures told { OnOk result (Adds out.old out.new (changes_of_body (body_view body.now))) }
{
    match body {
        Body::Block(block) => plan_of_block(alloc, block, out),
        Body::Simple(simple) => plan_of_simple(alloc, simple, out),
    }
}

/// The plan of a loop: what its test and its body may change, and the plan of its body.
///
/// # Errors
///
/// `NoMemory` where memory is refused.
#[cycle(planning)]
pub fn plan_of_loop(alloc: Global, statement: &WhileStatement) -> Result<Plan, NoMemory>
    ensures { IfOk result (λ made. plan_view made ≡ plan_of_form (while_statement_view statement.now)) }
{
    let mut changes = List::new(alloc);
    plan_of_expr(alloc, &statement.test, &mut changes)?;
    let body = plan_of_body(alloc, &statement.body, &mut changes)?;
    let mut parts = List::new(alloc);
    parts.push(body)?;
    let made = Plan::with_changes(alloc, changes.as_slice(), parts)?;
    Ok(made)
}

#[cycle(planning)]
fn plan_of_while(
    alloc: Global,
    statement: &WhileStatement,
    out: &mut List<Change>,
) -> Result<Plan, NoMemory>
    ensures made { IfOk result (λ made. plan_view made ≡ plan_of_form (while_statement_view statement.now)) }
    ensures told { OnOk result (Adds out.old out.new (changes_of_stmt_form (while_statement_view statement.now))) }
{
    let made = plan_of_loop(alloc, statement)?;
    add_all(made.changes.as_slice(), out)?;
    Ok(made)
}

#[cycle(planning)]
fn plan_of_if(
    alloc: Global,
    statement: &IfStatement,
    out: &mut List<Change>,
) -> Result<Plan, NoMemory>
    ensures made { IfOk result (λ made. plan_view made ≡ plan_of_form (if_statement_view statement.now)) }
    ensures told { OnOk result (Adds out.old out.new (changes_of_stmt_form (if_statement_view statement.now))) }
{
    let branches = plans_of_branches(alloc, statement.branches.as_slice(), out)?;
    let last = plan_of_else(alloc, &statement.last, out)?;
    let mut parts = List::new(alloc);
    parts.push(Plan::of_parts(alloc, branches))?;
    parts.push(last)?;
    Ok(Plan::of_parts(alloc, parts))
}

#[cycle(planning)]
fn plans_of_branches(
    alloc: Global,
    all: &[Branch],
    out: &mut List<Change>,
) -> Result<List<Plan>, NoMemory>
    ensures made { IfOk result (λ parts. plans_view parts ≡ plans_of_branches (branches_view all.now)) }
    ensures told { OnOk result (Adds out.old out.new (changes_of_branches (branches_view all.now))) }
{
    let mut parts = List::new(alloc);
    for i in 0..all.len() {
        let part = plan_of_branch(alloc, &all[i], out)?;
        parts.push(part)?;
    }
    Ok(parts)
}

#[cycle(planning)]
fn plan_of_branch(alloc: Global, branch: &Branch, out: &mut List<Change>) -> Result<Plan, NoMemory>
    ensures made { IfOk result (λ made. plan_view made ≡ plan_of_branch (branch_view branch.now)) }
    ensures told { OnOk result (Adds out.old out.new (changes_of_branch (branch_view branch.now))) }
{
    plan_of_expr(alloc, &branch.test, out)?;
    plan_of_body(alloc, &branch.body, out)
}

#[cycle(planning)]
fn plan_of_else(alloc: Global, last: &Else, out: &mut List<Change>) -> Result<Plan, NoMemory>
    ensures made { IfOk result (λ made. plan_view made ≡ plan_of_else (else_view last.now)) }
    ensures told { OnOk result (Adds out.old out.new (changes_of_else (else_view last.now))) }
{
    match last {
        Else::Nothing => nothing(alloc, out),
        Else::Body(body) => plan_of_body(alloc, body, out),
    }
}
