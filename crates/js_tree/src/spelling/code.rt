// The tokens of expressions and statements, and after them those that `tail` had.
#![tactic(auto, unfolding(code_tree::specs::View::expr_view, code_tree::specs::View::expr_form_view, code_tree::specs::View::postfix_expr_view, code_tree::specs::View::chain_expr_view, code_tree::specs::View::conditional_expr_view, code_tree::specs::View::arrow_expr_view, code_tree::specs::View::arrow_body_view, code_tree::specs::View::link_view, code_tree::specs::View::link_form_view, code_tree::specs::View::operand_view, code_tree::specs::View::operand_form_view, code_tree::specs::View::field_view, code_tree::specs::View::field_form_view, code_tree::specs::View::arm_view, code_tree::specs::View::function_view, code_tree::specs::View::block_view, code_tree::specs::View::statement_view, code_tree::specs::View::statement_form_view, code_tree::specs::View::declaration_view, code_tree::specs::View::simple_view, code_tree::specs::View::simple_form_view, code_tree::specs::View::assignment_view, code_tree::specs::View::if_statement_view, code_tree::specs::View::else_view, code_tree::specs::View::while_statement_view, code_tree::specs::View::body_view, code_tree::specs::View::branch_view, code_tree::specs::View::exprs_view, code_tree::specs::View::links_view, code_tree::specs::View::operands_view, code_tree::specs::View::fields_view, code_tree::specs::View::arms_view, code_tree::specs::View::statements_view, code_tree::specs::View::branches_view))]

ghost use Rattle.std.specs.Prelude.{◌≡◌, OnOk};
ghost use Rattle.js_grammar.specs.CodeSpelling.{spell_ex, spell_ex_form, spell_exs, spell_link, spell_links, spell_operand, spell_operands, spell_field, spell_fields, spell_arm, spell_arms, spell_function, spell_arrow_body, spell_block, spell_stmts, spell_stmt, spell_stmt_form, spell_declaration, spell_simple, spell_simple_form, spell_body, spell_branch, spell_branches, spell_else};
ghost use Rattle.code_tree.specs.View.{expr_view, expr_form_view, postfix_expr_view, chain_expr_view, conditional_expr_view, arrow_expr_view, arrow_body_view, link_view, link_form_view, operand_view, operand_form_view, field_view, field_form_view, arm_view, function_view, block_view, statement_view, statement_form_view, declaration_view, simple_view, simple_form_view, assignment_view, if_statement_view, else_view, while_statement_view, body_view, branch_view, exprs_view, links_view, operands_view, fields_view, arms_view, statements_view, branches_view};

use crate::spelling::signatures::{
    binder_word, operator_mark, spell_annotation, spell_name, spell_prefixes, spell_signature,
};
use crate::spelling::tail::Tail;
use crate::spelling::types::{spell_key, spell_type};
use code_tree::{
    Arm, ArrowBody, ArrowExpr, Assignment, Block, Body, Branch, ChainExpr, ConditionalExpr,
    Declaration, Else, Expr, ExprForm, Field, FieldForm, Function, IfStatement, Link, LinkForm,
    Operand, OperandForm, PostfixExpr, Simple, SimpleForm, Statement, StatementForm,
    WhileStatement,
};
use flow_values::NoMemory;
use js_token::Punct;

#[cycle(spell_code)]
pub fn spell_expr(expr: &Expr, tail: &mut Tail) -> Result<(), NoMemory>
    ensures { OnOk result (tail.new ≡ spell_ex (expr_view expr.now) tail.old) }
{
    spell_expr_form(&expr.form, tail)
}

#[cycle(spell_code)]
fn spell_expr_form(form: &ExprForm, tail: &mut Tail) -> Result<(), NoMemory>
    ensures { OnOk result (tail.new ≡ spell_ex_form (expr_form_view form.now) tail.old) }
{
    match form {
        ExprForm::Variable(name) => tail.name(name),
        ExprForm::Number(spelling) => tail.number(spelling),
        ExprForm::Str(value) => tail.string(value),
        ExprForm::Truth(value) => tail.truth(*value),
        ExprForm::Null => tail.word(b"null"),
        ExprForm::Paren(inner) => {
            tail.mark(Punct::CloseParen)?;
            spell_expr(inner.get(), tail)?;
            tail.mark(Punct::OpenParen)
        }
        ExprForm::Array { elements, comma } => {
            tail.mark(Punct::CloseBracket)?;
            tail.mark_if(*comma, Punct::Comma)?;
            spell_exprs(elements.as_slice(), tail)?;
            tail.mark(Punct::OpenBracket)
        }
        ExprForm::Object { fields, comma } => {
            tail.mark(Punct::CloseBrace)?;
            tail.mark_if(*comma, Punct::Comma)?;
            spell_fields(fields.as_slice(), tail)?;
            tail.mark(Punct::OpenBrace)
        }
        ExprForm::Function(function) => spell_function(function.get(), tail),
        ExprForm::Postfix(postfix) => spell_postfix(postfix, tail),
        ExprForm::Prefix { marks, operand } => {
            spell_expr(operand.get(), tail)?;
            spell_prefixes(marks.as_slice(), tail)
        }
        ExprForm::Chain(chain) => spell_chain(chain, tail),
        ExprForm::Conditional(conditional) => spell_conditional(conditional, tail),
        ExprForm::Arrow(arrow) => spell_arrow(arrow.get(), tail),
    }
}

#[cycle(spell_code)]
#[tactic(auto, using(crate::proofs::CodeLists::code_lists))]
fn spell_exprs(exprs: &[Expr], tail: &mut Tail) -> Result<(), NoMemory>
    ensures { OnOk result (tail.new ≡ spell_exs (exprs_view exprs.now) tail.old) }
{
    for i in (0..exprs.len()).rev() {
        tail.mark_if(i + 1 < exprs.len(), Punct::Comma)?;
        spell_expr(&exprs[i], tail)?;
    }
    Ok(())
}

#[cycle(spell_code)]
fn spell_postfix(postfix: &PostfixExpr, tail: &mut Tail) -> Result<(), NoMemory>
    ensures { OnOk result (tail.new ≡ spell_ex_form (postfix_expr_view postfix.now) tail.old) }
{
    spell_links(postfix.links.as_slice(), tail)?;
    spell_expr(postfix.base.get(), tail)
}

#[cycle(spell_code)]
#[tactic(auto, using(crate::proofs::CodeLists::code_lists))]
fn spell_links(links: &[Link], tail: &mut Tail) -> Result<(), NoMemory>
    ensures { OnOk result (tail.new ≡ spell_links (links_view links.now) tail.old) }
{
    for i in (0..links.len()).rev() {
        spell_link(&links[i], tail)?;
    }
    Ok(())
}

#[cycle(spell_code)]
fn spell_link(link: &Link, tail: &mut Tail) -> Result<(), NoMemory>
    ensures { OnOk result (tail.new ≡ spell_link (link_view link.now) tail.old) }
{
    match &link.form {
        LinkForm::Member(name) => {
            tail.name(name)?;
            tail.mark(Punct::Dot)
        }
        LinkForm::Index(index) => {
            tail.mark(Punct::CloseBracket)?;
            spell_expr(index, tail)?;
            tail.mark(Punct::OpenBracket)
        }
        LinkForm::Call { arguments, comma } => {
            tail.mark(Punct::CloseParen)?;
            tail.mark_if(*comma, Punct::Comma)?;
            spell_exprs(arguments.as_slice(), tail)?;
            tail.mark(Punct::OpenParen)
        }
    }
}

#[cycle(spell_code)]
fn spell_chain(chain: &ChainExpr, tail: &mut Tail) -> Result<(), NoMemory>
    ensures { OnOk result (tail.new ≡ spell_ex_form (chain_expr_view chain.now) tail.old) }
{
    spell_operands(chain.operands.as_slice(), tail)?;
    spell_expr(chain.left.get(), tail)
}

#[cycle(spell_code)]
#[tactic(auto, using(crate::proofs::CodeLists::code_lists))]
fn spell_operands(operands: &[Operand], tail: &mut Tail) -> Result<(), NoMemory>
    ensures { OnOk result (tail.new ≡ spell_operands (operands_view operands.now) tail.old) }
{
    for i in (0..operands.len()).rev() {
        spell_operand(&operands[i], tail)?;
    }
    Ok(())
}

#[cycle(spell_code)]
fn spell_operand(operand: &Operand, tail: &mut Tail) -> Result<(), NoMemory>
    ensures { OnOk result (tail.new ≡ spell_operand (operand_view operand.now) tail.old) }
{
    match &operand.form {
        OperandForm::Right { operator, side } => {
            spell_expr(side, tail)?;
            tail.mark(operator_mark(*operator))
        }
        OperandForm::As(ty) => {
            spell_type(ty, tail)?;
            tail.word(b"as")
        }
    }
}

#[cycle(spell_code)]
#[tactic(auto, using(crate::proofs::CodeLists::code_lists))]
fn spell_fields(fields: &[Field], tail: &mut Tail) -> Result<(), NoMemory>
    ensures { OnOk result (tail.new ≡ spell_fields (fields_view fields.now) tail.old) }
{
    for i in (0..fields.len()).rev() {
        tail.mark_if(i + 1 < fields.len(), Punct::Comma)?;
        spell_field(&fields[i], tail)?;
    }
    Ok(())
}

#[cycle(spell_code)]
fn spell_field(field: &Field, tail: &mut Tail) -> Result<(), NoMemory>
    ensures { OnOk result (tail.new ≡ spell_field (field_view field.now) tail.old) }
{
    match &field.form {
        FieldForm::Shorthand(name) => tail.name(name),
        FieldForm::Valued { key, value } => {
            spell_expr(value, tail)?;
            tail.mark(Punct::Colon)?;
            spell_key(key, tail)
        }
    }
}

#[cycle(spell_code)]
fn spell_conditional(conditional: &ConditionalExpr, tail: &mut Tail) -> Result<(), NoMemory>
    ensures { OnOk result (tail.new ≡ spell_ex_form (conditional_expr_view conditional.now) tail.old) }
{
    spell_expr(conditional.last.get(), tail)?;
    spell_arms(conditional.arms.as_slice(), tail)
}

#[cycle(spell_code)]
#[tactic(auto, using(crate::proofs::CodeLists::code_lists))]
fn spell_arms(arms: &[Arm], tail: &mut Tail) -> Result<(), NoMemory>
    ensures { OnOk result (tail.new ≡ spell_arms (arms_view arms.now) tail.old) }
{
    for i in (0..arms.len()).rev() {
        spell_arm(&arms[i], tail)?;
    }
    Ok(())
}

#[cycle(spell_code)]
fn spell_arm(arm: &Arm, tail: &mut Tail) -> Result<(), NoMemory>
    ensures { OnOk result (tail.new ≡ spell_arm (arm_view arm.now) tail.old) }
{
    tail.mark(Punct::Colon)?;
    spell_expr(&arm.branch, tail)?;
    tail.mark(Punct::Question)?;
    spell_expr(&arm.test, tail)
}

#[cycle(spell_code)]
fn spell_arrow(arrow: &ArrowExpr, tail: &mut Tail) -> Result<(), NoMemory>
    ensures { OnOk result (tail.new ≡ spell_ex_form (arrow_expr_view arrow.now) tail.old) }
{
    spell_arrow_body(&arrow.body, tail)?;
    tail.mark(Punct::Arrow)?;
    spell_signature(&arrow.signature, tail)
}

#[cycle(spell_code)]
fn spell_arrow_body(body: &ArrowBody, tail: &mut Tail) -> Result<(), NoMemory>
    ensures { OnOk result (tail.new ≡ spell_arrow_body (arrow_body_view body.now) tail.old) }
{
    match body {
        ArrowBody::Block(block) => spell_block(block, tail),
        ArrowBody::Value(value) => spell_expr(value.get(), tail),
    }
}

#[cycle(spell_code)]
pub fn spell_function(function: &Function, tail: &mut Tail) -> Result<(), NoMemory>
    ensures { OnOk result (tail.new ≡ spell_function (function_view function.now) tail.old) }
{
    spell_block(&function.body, tail)?;
    spell_signature(&function.signature, tail)?;
    spell_name(&function.name, tail)?;
    tail.word(b"function")
}

#[cycle(spell_code)]
fn spell_block(block: &Block, tail: &mut Tail) -> Result<(), NoMemory>
    ensures { OnOk result (tail.new ≡ spell_block (block_view block.now) tail.old) }
{
    tail.mark(Punct::CloseBrace)?;
    spell_statements(block.statements.as_slice(), tail)?;
    tail.mark(Punct::OpenBrace)
}

#[cycle(spell_code)]
#[tactic(auto, using(crate::proofs::CodeLists::code_lists))]
fn spell_statements(statements: &[Statement], tail: &mut Tail) -> Result<(), NoMemory>
    ensures { OnOk result (tail.new ≡ spell_stmts (statements_view statements.now) tail.old) }
{
    for i in (0..statements.len()).rev() {
        spell_statement(&statements[i], tail)?;
    }
    Ok(())
}

#[cycle(spell_code)]
fn spell_statement(statement: &Statement, tail: &mut Tail) -> Result<(), NoMemory>
    ensures { OnOk result (tail.new ≡ spell_stmt (statement_view statement.now) tail.old) }
{
    match &statement.form {
        StatementForm::Declaration(declaration) => {
            tail.mark(Punct::Semicolon)?;
            spell_declaration(declaration, tail)
        }
        StatementForm::Function(function) => spell_function(function, tail),
        StatementForm::Simple(simple) => {
            tail.mark(Punct::Semicolon)?;
            spell_simple(simple, tail)
        }
        StatementForm::If(statement) => spell_if(statement, tail),
        StatementForm::While(statement) => spell_while(statement, tail),
        StatementForm::Block(block) => spell_block(block, tail),
    }
}

#[cycle(spell_code)]
pub fn spell_declaration(declaration: &Declaration, tail: &mut Tail) -> Result<(), NoMemory>
    ensures { OnOk result (tail.new ≡ spell_declaration (declaration_view declaration.now) tail.old) }
{
    spell_expr(&declaration.value, tail)?;
    tail.mark(Punct::Assign)?;
    spell_annotation(&declaration.annotation, tail)?;
    tail.name(&declaration.name)?;
    tail.word(binder_word(declaration.binder))
}

#[cycle(spell_code)]
pub fn spell_simple(simple: &Simple, tail: &mut Tail) -> Result<(), NoMemory>
    ensures { OnOk result (tail.new ≡ spell_simple (simple_view simple.now) tail.old) }
{
    match &simple.form {
        SimpleForm::Return => tail.word(b"return"),
        SimpleForm::ReturnValue(value) => {
            spell_expr(value, tail)?;
            tail.word(b"return")
        }
        SimpleForm::Throw(value) => {
            spell_expr(value, tail)?;
            tail.word(b"throw")
        }
        SimpleForm::Break => tail.word(b"break"),
        SimpleForm::Continue => tail.word(b"continue"),
        SimpleForm::Assign(assignment) => spell_assignment(assignment, tail),
        SimpleForm::Evaluate(value) => spell_expr(value, tail),
    }
}

#[cycle(spell_code)]
fn spell_assignment(assignment: &Assignment, tail: &mut Tail) -> Result<(), NoMemory>
    ensures { OnOk result (tail.new ≡ spell_simple_form (assignment_view assignment.now) tail.old) }
{
    spell_expr(&assignment.value, tail)?;
    tail.mark(Punct::Assign)?;
    spell_expr(&assignment.target, tail)
}

#[cycle(spell_code)]
fn spell_if(statement: &IfStatement, tail: &mut Tail) -> Result<(), NoMemory>
    ensures { OnOk result (tail.new ≡ spell_stmt_form (if_statement_view statement.now) tail.old) }
{
    spell_else(&statement.last, tail)?;
    spell_branches(statement.branches.as_slice(), tail)
}

#[cycle(spell_code)]
#[tactic(auto, using(crate::proofs::CodeLists::code_lists))]
fn spell_branches(branches: &[Branch], tail: &mut Tail) -> Result<(), NoMemory>
    ensures { OnOk result (tail.new ≡ spell_branches (branches_view branches.now) tail.old) }
{
    for i in (0..branches.len()).rev() {
        tail.word_if(i + 1 < branches.len(), b"else")?;
        spell_branch(&branches[i], tail)?;
    }
    Ok(())
}

#[cycle(spell_code)]
fn spell_branch(branch: &Branch, tail: &mut Tail) -> Result<(), NoMemory>
    ensures { OnOk result (tail.new ≡ spell_branch (branch_view branch.now) tail.old) }
{
    spell_body(&branch.body, tail)?;
    tail.mark(Punct::CloseParen)?;
    spell_expr(&branch.test, tail)?;
    tail.mark(Punct::OpenParen)?;
    tail.word(b"if")
}

#[cycle(spell_code)]
fn spell_else(last: &Else, tail: &mut Tail) -> Result<(), NoMemory>
    ensures { OnOk result (tail.new ≡ spell_else (else_view last.now) tail.old) }
{
    match last {
        Else::Nothing => Ok(()),
        Else::Body(body) => {
            spell_body(body, tail)?;
            tail.word(b"else")
        }
    }
}

#[cycle(spell_code)]
fn spell_while(statement: &WhileStatement, tail: &mut Tail) -> Result<(), NoMemory>
    ensures { OnOk result (tail.new ≡ spell_stmt_form (while_statement_view statement.now) tail.old) }
{
    spell_body(&statement.body, tail)?;
    tail.mark(Punct::CloseParen)?;
    spell_expr(&statement.test, tail)?;
    tail.mark(Punct::OpenParen)?;
    tail.word(b"while")
}

#[cycle(spell_code)]
fn spell_body(body: &Body, tail: &mut Tail) -> Result<(), NoMemory>
    ensures { OnOk result (tail.new ≡ spell_body (body_view body.now) tail.old) }
{
    match body {
        Body::Block(block) => spell_block(block, tail),
        Body::Simple(simple) => {
            tail.mark(Punct::Semicolon)?;
            spell_simple(simple, tail)
        }
    }
}
