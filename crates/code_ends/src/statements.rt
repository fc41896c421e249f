// A whole statement or body.
ghost use Rattle.std.specs.Prelude.{◌≡◌, ◌∷◌, IfOk};
ghost use Rattle.js_grammar.specs.Code.{more_stmt, stmt, more_branch, branch};
ghost use Rattle.code_tree.specs.View.{expr_view, statements_view, statement_view, statement_form_view, branches_view, body_view};
ghost use Rattle.code_law.specs.Frames.{statements_start, after_branch};
ghost use Rattle.code_law.specs.Bodies.{give_stmt, give_body as body_given};
ghost use Rattle.code_state.specs.Forms.{mode_view, body_frame_view};
ghost use Rattle.code_state.specs.Stack.{stack_view};
ghost use Rattle.code_state.specs.Turns.{turn_view, Gives};

use code_state::{BodyFrame, Mode, OpenBlock, OpenIf, Stack, StatementMode, Top, Turn};
use code_tree::{Body, Branch, Else, Expr, Statement, StatementForm};
use flow_values::NoMemory;

/// A statement joins a block.
#[tactic(auto, using(code_state::proofs::Pushes::pushes))]
pub fn push_statement(block: OpenBlock, statement: Statement) -> Result<OpenBlock, NoMemory>
    ensures first { IfOk result (λ longer. longer.first ≡ block.first) }
    ensures statements { IfOk result (λ longer. statements_view longer.statements ≡ more_stmt (statements_view block.statements) (statement_view statement)) }
{
    let OpenBlock {
        first,
        mut statements,
    } = block;
    statements.push(statement)?;
    Ok(OpenBlock { first, statements })
}

/// A statement joins a block, and a further one may begin.
pub fn add_statement(block: OpenBlock, statement: Statement) -> Result<Mode, NoMemory>
    ensures { IfOk result (λ mode. mode_view mode ≡ statements_start block.first (more_stmt (statements_view block.statements) (statement_view statement))) }
{
    let longer = push_statement(block, statement)?;
    Ok(Mode::Statement(StatementMode::Start(longer)))
}

/// A statement is whole in this form.
#[tactic(auto, using(crate::proofs::Outsides::outsides))]
fn give_statement_in(waiting: BodyFrame, statement: Statement) -> Result<Turn, NoMemory>
    ensures { IfOk result (λ turn. Gives turn (λ k. give_stmt (body_frame_view waiting ∷ k) (statement_view statement))) }
{
    match waiting {
        BodyFrame::Block(block) => Ok(Turn::Go(add_statement(block, statement)?)),
        other => {
            drop(other);
            drop(statement);
            Ok(Turn::Fault)
        }
    }
}

/// A statement of this form is whole.
#[tactic(auto, using(crate::proofs::Given::others, crate::proofs::Moved::ok_moved, crate::proofs::Moved::ok_given))]
pub fn give_statement(
    stack: &mut Stack,
    first: usize,
    end: usize,
    form: StatementForm,
) -> Result<Turn, NoMemory>
    ensures { IfOk result (λ turn. turn_view stack.new turn ≡ give_stmt (stack_view stack.old) (stmt first end (statement_form_view form))) }
{
    match stack.take_body() {
        Top::Body(waiting) => give_statement_in(waiting, Statement::new(first, end, form)),
        Top::Other | Top::Bottom => {
            drop(form);
            Ok(Turn::Fault)
        }
    }
}

/// The body of an `if` at a place is whole: a further branch may follow.
#[tactic(auto, using(code_state::proofs::Pushes::pushes))]
fn add_branch(
    so_far: OpenIf,
    at: usize,
    end: usize,
    test: Expr,
    body: Body,
) -> Result<Mode, NoMemory>
    ensures { IfOk result (λ mode. mode_view mode ≡ after_branch so_far.first (more_branch (branches_view so_far.branches) (branch at end (expr_view test) (body_view body)))) }
{
    let OpenIf {
        first,
        mut branches,
    } = so_far;
    branches.push(Branch::new(at, end, test, body))?;
    Ok(Mode::Statement(StatementMode::Branch(OpenIf { first, branches })))
}

/// The body of this form is whole, and ends at a place.
pub fn give_body_in(
    stack: &mut Stack,
    form: BodyFrame,
    end: usize,
    body: Body,
) -> Result<Turn, NoMemory>
    ensures { IfOk result (λ turn. turn_view stack.new turn ≡ body_given end (body_frame_view form ∷ stack_view stack.old) (body_view body)) }
{
    match form {
        BodyFrame::Loop(first, test) => {
            let form = StatementForm::while_statement(test, body);
            give_statement(stack, first, end, form)
        }
        BodyFrame::If(so_far, at, test) => Ok(Turn::Go(add_branch(so_far, at, end, test, body)?)),
        BodyFrame::Else(so_far) => {
            let OpenIf { first, branches } = so_far;
            let form = StatementForm::if_statement(branches, Else::body(body));
            give_statement(stack, first, end, form)
        }
        BodyFrame::Function(..) | BodyFrame::Arrow(_) | BodyFrame::Block(_) => Ok(Turn::Fault),
    }
}
