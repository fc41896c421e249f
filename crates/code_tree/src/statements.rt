// Nodes of statements, each with what it stands for.
#![tactic(auto, unfolding(crate::specs::View::block_view, crate::specs::View::statement_view, crate::specs::View::statement_form_view, crate::specs::View::declaration_view, crate::specs::View::simple_view, crate::specs::View::simple_form_view, crate::specs::View::else_view, crate::specs::View::body_view, crate::specs::View::branch_view, crate::specs::View::expr_view, crate::specs::View::function_view, crate::specs::View::statements_view, crate::specs::View::branches_view))]

ghost use Rattle.std.specs.Prelude.{◌≡◌};
ghost use Rattle.std.specs.Option.{option_map};
ghost use Rattle.js_grammar.specs.Code.{block as block_tree, stmt, declares, function_stmt, does, branches as if_tree, loop as loop_tree, nested, declaration as declaration_tree, simple as simple_tree, return_bare, return_value, throw_value, break_loop, continue_loop, assign, evaluate, block_body, simple_body, branch as branch_tree, no_else, else_body};
ghost use Rattle.type_tree.specs.View.{type_view};
ghost use Rattle.code_tree.specs.Flat.{binder_view};
ghost use Rattle.code_tree.specs.View.{expr_view, function_view, block_view, statement_view, statement_form_view, declaration_view, simple_view, simple_form_view, else_view, body_view, branch_view, statements_view, branches_view};

use crate::types::{
    Assignment, Binder, Block, Body, Branch, Declaration, Else, Expr, Function, IfStatement,
    Simple, SimpleForm, Statement, StatementForm, WhileStatement,
};
use flow_values::{List, Text};
use type_tree::TypeTree;

impl Block {
    /// Statements in braces.
    pub fn new(first: usize, end: usize, statements: List<Statement>) -> Block
        ensures { block_view result ≡ block_tree first end (statements_view statements) }
    {
        Block {
            first,
            end,
            statements,
        }
    }
}

impl Statement {
    /// A statement of this form.
    pub fn new(first: usize, end: usize, form: StatementForm) -> Statement
        ensures { statement_view result ≡ stmt first end (statement_form_view form) }
    {
        Statement { first, end, form }
    }
}

impl StatementForm {
    /// A declaration and its semicolon.
    pub fn declaration(declaration: Declaration) -> StatementForm
        ensures { statement_form_view result ≡ declares (declaration_view declaration) }
    {
        StatementForm::Declaration(declaration)
    }

    /// The declaration of a function.
    pub fn function(function: Function) -> StatementForm
        ensures { statement_form_view result ≡ function_stmt (function_view function) }
    {
        StatementForm::Function(function)
    }

    /// A simple statement and its semicolon.
    pub fn simple(simple: Simple) -> StatementForm
        ensures { statement_form_view result ≡ does (simple_view simple) }
    {
        StatementForm::Simple(simple)
    }

    /// Tests with their bodies, and what stands behind the last `else`.
    pub fn if_statement(branches: List<Branch>, last: Else) -> StatementForm
        ensures { statement_form_view result ≡ if_tree (branches_view branches) (else_view last) }
    {
        StatementForm::If(IfStatement { branches, last })
    }

    /// A loop: a test and a body.
    pub fn while_statement(test: Expr, body: Body) -> StatementForm
        ensures { statement_form_view result ≡ loop_tree (expr_view test) (body_view body) }
    {
        StatementForm::While(WhileStatement { test, body })
    }

    /// Statements in braces.
    pub fn block(block: Block) -> StatementForm
        ensures { statement_form_view result ≡ nested (block_view block) }
    {
        StatementForm::Block(block)
    }
}

impl Declaration {
    /// A name, a type or none, and a value.
    pub fn new(
        first: usize,
        end: usize,
        binder: Binder,
        name: Text,
        annotation: Option<TypeTree>,
        value: Expr,
    ) -> Declaration
        ensures { declaration_view result ≡ declaration_tree first end (binder_view binder) name (option_map type_view annotation) (expr_view value) }
    {
        Declaration {
            first,
            end,
            binder,
            name,
            annotation,
            value,
        }
    }
}

impl Simple {
    /// A simple statement of this form.
    pub fn new(first: usize, end: usize, form: SimpleForm) -> Simple
        ensures { simple_view result ≡ simple_tree first end (simple_form_view form) }
    {
        Simple { first, end, form }
    }
}

impl SimpleForm {
    /// `return`
    pub fn bare_return() -> SimpleForm
        ensures { simple_form_view result ≡ return_bare }
    {
        SimpleForm::Return
    }

    /// `return value`
    pub fn return_value(value: Expr) -> SimpleForm
        ensures { simple_form_view result ≡ return_value (expr_view value) }
    {
        SimpleForm::ReturnValue(value)
    }

    /// `throw value`
    pub fn throw(value: Expr) -> SimpleForm
        ensures { simple_form_view result ≡ throw_value (expr_view value) }
    {
        SimpleForm::Throw(value)
    }

    /// `break`
    pub fn break_loop() -> SimpleForm
        ensures { simple_form_view result ≡ break_loop }
    {
        SimpleForm::Break
    }

    /// `continue`
    pub fn continue_loop() -> SimpleForm
        ensures { simple_form_view result ≡ continue_loop }
    {
        SimpleForm::Continue
    }

    /// `target = value`
    pub fn assign(target: Expr, value: Expr) -> SimpleForm
        ensures { simple_form_view result ≡ assign (expr_view target) (expr_view value) }
    {
        SimpleForm::Assign(Assignment { target, value })
    }

    /// An expression alone.
    pub fn evaluate(value: Expr) -> SimpleForm
        ensures { simple_form_view result ≡ evaluate (expr_view value) }
    {
        SimpleForm::Evaluate(value)
    }
}

impl Else {
    /// No `else`.
    pub fn nothing() -> Else
        ensures { else_view result ≡ no_else }
    {
        Else::Nothing
    }

    /// `else body`
    pub fn body(body: Body) -> Else
        ensures { else_view result ≡ else_body (body_view body) }
    {
        Else::Body(body)
    }
}

impl Body {
    /// Statements in braces.
    pub fn block(block: Block) -> Body
        ensures { body_view result ≡ block_body (block_view block) }
    {
        Body::Block(block)
    }

    /// A simple statement and its semicolon.
    pub fn simple(simple: Simple) -> Body
        ensures { body_view result ≡ simple_body (simple_view simple) }
    {
        Body::Simple(simple)
    }
}

impl Branch {
    /// A test and its body.
    pub fn new(first: usize, end: usize, test: Expr, body: Body) -> Branch
        ensures { branch_view result ≡ branch_tree first end (expr_view test) (body_view body) }
    {
        Branch {
            first,
            end,
            test,
            body,
        }
    }
}
