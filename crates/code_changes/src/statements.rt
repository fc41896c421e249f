//! A walk through statements, which finds what they may change, in order.
#![tactic(auto, unfolding(code_tree::specs::View::expr_view, code_tree::specs::View::expr_form_view, code_tree::specs::View::postfix_expr_view, code_tree::specs::View::link_view, code_tree::specs::View::link_form_view, code_tree::specs::View::block_view, code_tree::specs::View::function_view, code_tree::specs::View::statement_view, code_tree::specs::View::statement_form_view, code_tree::specs::View::declaration_view, code_tree::specs::View::simple_view, code_tree::specs::View::simple_form_view, code_tree::specs::View::assignment_view, code_tree::specs::View::if_statement_view, code_tree::specs::View::while_statement_view, code_tree::specs::View::else_view, code_tree::specs::View::body_view, code_tree::specs::View::branch_view, code_tree::specs::View::links_view, code_tree::specs::View::statements_view, code_tree::specs::View::branches_view))]

ghost use Rattle.std.specs.Prelude.{OnOk};
ghost use Rattle.typing.specs.Changes.{change_of_links, change_of_target, changes_of_block, changes_of_stmts, changes_of_stmt, changes_of_stmt_form, changes_of_simple, changes_of_simple_form, changes_of_body, changes_of_branch, changes_of_branches, changes_of_else};
ghost use Rattle.js_grammar.specs.Code.{no_link, more_link};
ghost use Rattle.code_tree.specs.View.{expr_view, link_view, links_view, block_view, statement_view, statement_form_view, simple_view, simple_form_view, assignment_view, if_statement_view, while_statement_view, body_view, branch_view, else_view, statements_view, branches_view};
ghost use Rattle.code_changes.specs.Walks.{Tells};

use crate::expressions::{walk_expr, walk_function};
use crate::names::names_of_block;
use crate::walk::Walk;
use code_tree::{
    Assignment, Block, Body, Branch, Else, Expr, ExprForm, IfStatement, Link, LinkForm, Simple,
    SimpleForm, Statement, StatementForm, WhileStatement,
};
use flow_values::NoMemory;

/// Walks through statements.
#[cycle(changing)]
pub(crate) fn walk_statements(all: &[Statement], walk: &mut Walk) -> Result<(), NoMemory>
    ensures { OnOk result (Tells walk.old walk.new (changes_of_stmts (statements_view all.now))) }
{
    for i in 0..all.len() {
        walk_statement(&all[i], walk)?;
    }
    Ok(())
}

/// Walks through a block, whose own names are not those outside.
#[cycle(changing)]
pub(crate) fn walk_block(block: &Block, walk: &mut Walk) -> Result<(), NoMemory>
    ensures { OnOk result (Tells walk.old walk.new (changes_of_block (block_view block.now))) }
{
    let statements = block.statements.as_slice();
    let own = names_of_block(walk.alloc, statements)?;
    let outside = walk.enter(false, own.as_slice())?;
    walk_statements(statements, walk)?;
    walk.leave(outside);
    Ok(())
}

#[cycle(changing)]
fn walk_statement(statement: &Statement, walk: &mut Walk) -> Result<(), NoMemory>
    ensures { OnOk result (Tells walk.old walk.new (changes_of_stmt (statement_view statement.now))) }
{
    match &statement.form {
        StatementForm::Declaration(declaration) => { walk_expr(&declaration.value, walk) }
        StatementForm::Function(function) => walk_function(function, walk),
        StatementForm::Simple(simple) => walk_simple(simple, walk),
        StatementForm::If(statement) => walk_if(statement, walk),
        StatementForm::While(statement) => walk_while(statement, walk),
        StatementForm::Block(block) => walk_block(block, walk),
    }
}

#[cycle(changing)]
fn walk_if(statement: &IfStatement, walk: &mut Walk) -> Result<(), NoMemory>
    ensures { OnOk result (Tells walk.old walk.new (changes_of_stmt_form (if_statement_view statement.now))) }
{
    walk_branches(statement.branches.as_slice(), walk)?;
    walk_else(&statement.last, walk)
}

#[cycle(changing)]
fn walk_branches(all: &[Branch], walk: &mut Walk) -> Result<(), NoMemory>
    ensures { OnOk result (Tells walk.old walk.new (changes_of_branches (branches_view all.now))) }
{
    for i in 0..all.len() {
        walk_branch(&all[i], walk)?;
    }
    Ok(())
}

#[cycle(changing)]
fn walk_else(last: &Else, walk: &mut Walk) -> Result<(), NoMemory>
    ensures { OnOk result (Tells walk.old walk.new (changes_of_else (else_view last.now))) }
{
    match last {
        Else::Nothing => walk.set_nothing(),
        Else::Body(body) => walk_body(body, walk),
    }
}

#[cycle(changing)]
fn walk_branch(branch: &Branch, walk: &mut Walk) -> Result<(), NoMemory>
    ensures { OnOk result (Tells walk.old walk.new (changes_of_branch (branch_view branch.now))) }
{
    walk_expr(&branch.test, walk)?;
    walk_body(&branch.body, walk)
}

#[cycle(changing)]
fn walk_while(statement: &WhileStatement, walk: &mut Walk) -> Result<(), NoMemory>
    ensures { OnOk result (Tells walk.old walk.new (changes_of_stmt_form (while_statement_view statement.now))) }
{
    walk_expr(&statement.test, walk)?;
    walk_body(&statement.body, walk)
}

// Walks through a body.
#[cycle(changing)]
fn walk_body(body: &Body, walk: &mut Walk) -> Result<(), NoMemory>
    ensures { OnOk result (Tells walk.old walk.new (changes_of_body (body_view body.now))) }
{
    match body {
        Body::Block(block) => walk_block(block, walk),
        Body::Simple(simple) => walk_simple(simple, walk),
    }
}

/// Walks through a simple statement.
#[cycle(changing)]
pub(crate) fn walk_simple(simple: &Simple, walk: &mut Walk) -> Result<(), NoMemory>
    ensures { OnOk result (Tells walk.old walk.new (changes_of_simple (simple_view simple.now))) }
{
    match &simple.form {
        SimpleForm::ReturnValue(value) | SimpleForm::Throw(value) | SimpleForm::Evaluate(value) => {
            walk_expr(value, walk)
        }
        SimpleForm::Assign(assignment) => walk_assignment(assignment, walk),
        SimpleForm::Return | SimpleForm::Break | SimpleForm::Continue => walk.set_nothing(),
    }
}

#[cycle(changing)]
fn walk_assignment(assignment: &Assignment, walk: &mut Walk) -> Result<(), NoMemory>
    ensures { OnOk result (Tells walk.old walk.new (changes_of_simple_form (assignment_view assignment.now))) }
{
    walk_expr(&assignment.target, walk)?;
    walk_expr(&assignment.value, walk)?;
    change_of_target(&assignment.target, walk)
}

// What an assignment to a target that ends in this link changes.
fn change_of_link(link: &Link, walk: &mut Walk) -> Result<(), NoMemory>
    ensures { OnOk result (Tells walk.old walk.new (change_of_links (more_link no_link (link_view link.now)))) }
{
    match &link.form {
        LinkForm::Member(name) => walk.set_property(name),
        LinkForm::Index(_) => walk.set_all(),
        LinkForm::Call { .. } => walk.set_nothing(),
    }
}

// The last link tells.
#[tactic(auto, using(crate::proofs::Parts::last_told, crate::proofs::Parts::none_told))]
fn change_of_links(links: &[Link], walk: &mut Walk) -> Result<(), NoMemory>
    ensures { OnOk result (Tells walk.old walk.new (change_of_links (links_view links.now))) }
{
    match links.last() {
        Some(link) => change_of_link(link, walk),
        None => Ok(()),
    }
}

// What an assignment to a target changes, besides what its parts do.
fn change_of_target(target: &Expr, walk: &mut Walk) -> Result<(), NoMemory>
    ensures { OnOk result (Tells walk.old walk.new (change_of_target (expr_view target.now))) }
{
    match &target.form {
        ExprForm::Variable(name) => walk.set_variable(name),
        ExprForm::Postfix(e) => change_of_links(e.links.as_slice(), walk),
        ExprForm::Number(_)
        | ExprForm::Str(_)
        | ExprForm::Truth(_)
        | ExprForm::Null
        | ExprForm::Paren(_)
        | ExprForm::Array { .. }
        | ExprForm::Object { .. }
        | ExprForm::Function(_)
        | ExprForm::Prefix { .. }
        | ExprForm::Chain(_)
        | ExprForm::Conditional(_)
        | ExprForm::Arrow(_) => walk.set_nothing(),
    }
}
