//! A walk through expressions, which finds what they may change, in order.
#![tactic(auto, unfolding(code_tree::specs::View::expr_view, code_tree::specs::View::expr_form_view, code_tree::specs::View::postfix_expr_view, code_tree::specs::View::chain_expr_view, code_tree::specs::View::conditional_expr_view, code_tree::specs::View::arrow_expr_view, code_tree::specs::View::arrow_body_view, code_tree::specs::View::link_view, code_tree::specs::View::link_form_view, code_tree::specs::View::operand_view, code_tree::specs::View::operand_form_view, code_tree::specs::View::field_view, code_tree::specs::View::field_form_view, code_tree::specs::View::arm_view, code_tree::specs::View::function_view, code_tree::specs::View::exprs_view, code_tree::specs::View::links_view, code_tree::specs::View::operands_view, code_tree::specs::View::fields_view, code_tree::specs::View::arms_view, code_tree::specs::View::statements_view, code_tree::specs::View::block_view))]

ghost use Rattle.std.specs.Prelude.{OnOk};
ghost use Rattle.js_grammar.specs.Code.{function_ex};
ghost use Rattle.typing.specs.Changes.{changes_of_ex, changes_of_ex_form, changes_of_exs, changes_of_link, changes_of_links, changes_of_operand, changes_of_operands, changes_of_field, changes_of_fields, changes_of_arm, changes_of_arms, changes_of_function, changes_of_arrow};
ghost use Rattle.code_tree.specs.View.{expr_view, expr_form_view, postfix_expr_view, chain_expr_view, conditional_expr_view, arrow_expr_view, arrow_body_view, link_view, operand_view, field_view, arm_view, function_view, exprs_view, links_view, operands_view, fields_view, arms_view};
ghost use Rattle.code_changes.specs.Walks.{Tells};

use crate::names::{name_of_function, names_of_function, names_of_signature};
use crate::statements::{walk_block, walk_statements};
use crate::walk::Walk;
use code_tree::{
    Arm, ArrowBody, ArrowExpr, ChainExpr, ConditionalExpr, Expr, ExprForm, Field, FieldForm,
    Function, Link, LinkForm, Operand, OperandForm, PostfixExpr,
};
use flow_values::NoMemory;

/// Walks through an expression.
#[cycle(changing)]
pub(crate) fn walk_expr(e: &Expr, walk: &mut Walk) -> Result<(), NoMemory>
    ensures { OnOk result (Tells walk.old walk.new (changes_of_ex (expr_view e.now))) }
{
    walk_form(&e.form, walk)
}

#[cycle(changing)]
fn walk_form(form: &ExprForm, walk: &mut Walk) -> Result<(), NoMemory>
    ensures { OnOk result (Tells walk.old walk.new (changes_of_ex_form (expr_form_view form.now))) }
{
    match form {
        ExprForm::Paren(inner) => walk_expr(inner.get(), walk),
        ExprForm::Array { elements, comma: _ } => { walk_exprs(elements.as_slice(), walk) }
        ExprForm::Object { fields, comma: _ } => walk_fields(fields.as_slice(), walk),
        ExprForm::Function(function) => walk_named(function.get(), walk),
        ExprForm::Postfix(e) => walk_postfix(e, walk),
        ExprForm::Prefix { marks: _, operand } => walk_expr(operand.get(), walk),
        ExprForm::Chain(e) => walk_chain(e, walk),
        ExprForm::Conditional(e) => walk_conditional(e, walk),
        ExprForm::Arrow(arrow) => walk_arrow(arrow.get(), walk),
        ExprForm::Variable(_)
        | ExprForm::Number(_)
        | ExprForm::Str(_)
        | ExprForm::Truth(_)
        | ExprForm::Null => walk.set_nothing(),
    }
}

#[cycle(changing)]
pub(crate) fn walk_exprs(all: &[Expr], walk: &mut Walk) -> Result<(), NoMemory>
    ensures { OnOk result (Tells walk.old walk.new (changes_of_exs (exprs_view all.now))) }
{
    for i in 0..all.len() {
        walk_expr(&all[i], walk)?;
    }
    Ok(())
}

#[cycle(changing)]
fn walk_fields(all: &[Field], walk: &mut Walk) -> Result<(), NoMemory>
    ensures { OnOk result (Tells walk.old walk.new (changes_of_fields (fields_view all.now))) }
{
    for i in 0..all.len() {
        walk_field(&all[i], walk)?;
    }
    Ok(())
}

#[cycle(changing)]
fn walk_field(field: &Field, walk: &mut Walk) -> Result<(), NoMemory>
    ensures { OnOk result (Tells walk.old walk.new (changes_of_field (field_view field.now))) }
{
    match &field.form {
        FieldForm::Shorthand(_) => walk.set_nothing(),
        FieldForm::Valued { key: _, value } => walk_expr(value, walk),
    }
}

#[cycle(changing)]
fn walk_postfix(e: &PostfixExpr, walk: &mut Walk) -> Result<(), NoMemory>
    ensures { OnOk result (Tells walk.old walk.new (changes_of_ex_form (postfix_expr_view e.now))) }
{
    walk_expr(e.base.get(), walk)?;
    walk_links(e.links.as_slice(), walk)
}

#[cycle(changing)]
fn walk_links(all: &[Link], walk: &mut Walk) -> Result<(), NoMemory>
    ensures { OnOk result (Tells walk.old walk.new (changes_of_links (links_view all.now))) }
{
    for i in 0..all.len() {
        walk_link(&all[i], walk)?;
    }
    Ok(())
}

#[cycle(changing)]
fn walk_link(link: &Link, walk: &mut Walk) -> Result<(), NoMemory>
    ensures { OnOk result (Tells walk.old walk.new (changes_of_link (link_view link.now))) }
{
    match &link.form {
        LinkForm::Member(_) => walk.set_nothing(),
        LinkForm::Index(index) => walk_expr(index, walk),
        LinkForm::Call {
            arguments,
            comma: _,
        } => {
            walk_exprs(arguments.as_slice(), walk)?;
            walk.set_all()
        }
    }
}

#[cycle(changing)]
fn walk_chain(e: &ChainExpr, walk: &mut Walk) -> Result<(), NoMemory>
    ensures { OnOk result (Tells walk.old walk.new (changes_of_ex_form (chain_expr_view e.now))) }
{
    walk_expr(e.left.get(), walk)?;
    walk_operands(e.operands.as_slice(), walk)
}

#[cycle(changing)]
fn walk_operands(all: &[Operand], walk: &mut Walk) -> Result<(), NoMemory>
    ensures { OnOk result (Tells walk.old walk.new (changes_of_operands (operands_view all.now))) }
{
    for i in 0..all.len() {
        walk_operand(&all[i], walk)?;
    }
    Ok(())
}

#[cycle(changing)]
fn walk_operand(operand: &Operand, walk: &mut Walk) -> Result<(), NoMemory>
    ensures { OnOk result (Tells walk.old walk.new (changes_of_operand (operand_view operand.now))) }
{
    match &operand.form {
        OperandForm::Right { operator: _, side } => walk_expr(side, walk),
        OperandForm::As(_) => walk.set_nothing(),
    }
}

#[cycle(changing)]
fn walk_conditional(e: &ConditionalExpr, walk: &mut Walk) -> Result<(), NoMemory>
    ensures { OnOk result (Tells walk.old walk.new (changes_of_ex_form (conditional_expr_view e.now))) }
{
    walk_arms(e.arms.as_slice(), walk)?;
    walk_expr(e.last.get(), walk)
}

#[cycle(changing)]
fn walk_arms(all: &[Arm], walk: &mut Walk) -> Result<(), NoMemory>
    ensures { OnOk result (Tells walk.old walk.new (changes_of_arms (arms_view all.now))) }
{
    for i in 0..all.len() {
        walk_arm(&all[i], walk)?;
    }
    Ok(())
}

#[cycle(changing)]
fn walk_arm(arm: &Arm, walk: &mut Walk) -> Result<(), NoMemory>
    ensures { OnOk result (Tells walk.old walk.new (changes_of_arm (arm_view arm.now))) }
{
    walk_expr(&arm.test, walk)?;
    walk_expr(&arm.branch, walk)
}

// Walks through a function's expression, whose name only it has.
#[cycle(changing)]
fn walk_named(function: &Function, walk: &mut Walk) -> Result<(), NoMemory>
    ensures { OnOk result (Tells walk.old walk.new (changes_of_ex_form (function_ex (function_view function.now)))) }
{
    let own = name_of_function(walk.alloc, &function.name)?;
    let outside = walk.enter(false, own.as_slice())?;
    walk_function(function, walk)?;
    walk.leave(outside);
    Ok(())
}

/// Walks through a function: the names that it binds are not those outside.
#[cycle(changing)]
pub(crate) fn walk_function(function: &Function, walk: &mut Walk) -> Result<(), NoMemory>
    ensures { OnOk result (Tells walk.old walk.new (changes_of_function (function_view function.now))) }
{
    let statements = function.body.statements.as_slice();
    let own = names_of_function(walk.alloc, &function.signature, statements)?;
    let outside = walk.enter(true, own.as_slice())?;
    walk_statements(statements, walk)?;
    walk.leave(outside);
    Ok(())
}

#[cycle(changing)]
fn walk_arrow(arrow: &ArrowExpr, walk: &mut Walk) -> Result<(), NoMemory>
    ensures { OnOk result (Tells walk.old walk.new (changes_of_ex_form (arrow_expr_view arrow.now))) }
{
    let own = names_of_signature(walk.alloc, &arrow.signature)?;
    let outside = walk.enter(true, own.as_slice())?;
    walk_arrow_body(&arrow.body, walk)?;
    walk.leave(outside);
    Ok(())
}

#[cycle(changing)]
fn walk_arrow_body(body: &ArrowBody, walk: &mut Walk) -> Result<(), NoMemory>
    ensures { OnOk result (Tells walk.old walk.new (changes_of_arrow (arrow_body_view body.now))) }
{
    match body {
        ArrowBody::Block(block) => walk_block(block, walk),
        ArrowBody::Value(value) => walk_expr(value.get(), walk),
    }
}
