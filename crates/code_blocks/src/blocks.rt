// The tokens of statements.
ghost use Rattle.std.specs.Prelude.{◌≡◌, ◌<◌, ◌∷◌, IfOk};
ghost use Rattle.code_tree.specs.Flat.{binder_view};
ghost use Rattle.code_tree.specs.View.{statements_view, branches_view, simple_view};
ghost use Rattle.code_law.specs.Statements.{statements_step, return_step, semicolon_step, binder_step, declared_step, if_step, while_step, end_branches as end_step, branch_step, else_step, is_else as is_else_token, is_else_word as is_else_class};
ghost use Rattle.code_state.specs.Forms.{body_frame_view};
ghost use Rattle.code_state.specs.Stack.{stack_view};
ghost use Rattle.code_state.specs.Turns.{turn_view, Gives};
ghost use Rattle.code_words.specs.Words.{statement_word_view};

use code_ends::{end_simple, give_block, push_statement};
use code_heads::{begin_body, begin_inside, begin_simple, block_word, open_block, simple_word};
use code_state::{
    BodyFrame, Declared, Frame, Mode, OpenBlock, OpenIf, Stack, StatementMode, Top, Turn,
    ValueFrame, ValueMode, Verb, Waiting,
};
use code_tree::{Binder, Block, Else, Simple, SimpleForm, Statement, StatementForm};
use code_words::{StatementWord, statement_word};
use flow_values::NoMemory;
use js_token::{Punct, TokenKind, is_reserved};
use std::alloc::Global;

/// A token in a block, where a statement may begin.
pub fn begin_statement(
    alloc: Global,
    at: usize,
    stack: &mut Stack,
    so_far: OpenBlock,
    token: &TokenKind,
) -> Result<Turn, NoMemory>
    requires { at < usize.MAX }
    ensures { IfOk result (λ turn. turn_view stack.new turn ≡ statements_step at (stack_view stack.old) so_far.first (statements_view so_far.statements) token.now) }
{
    match token {
        TokenKind::Punct(Punct::CloseBrace) => {
            let OpenBlock { first, statements } = so_far;
            give_block(alloc, stack, at + 1, Block::new(first, at + 1, statements))
        }
        TokenKind::Punct(Punct::OpenBrace) => {
            stack.push(Frame::Body(BodyFrame::Block(so_far)))?;
            Ok(Turn::Go(open_block(alloc, at)))
        }
        TokenKind::Name(word) => {
            let class = statement_word(word.as_bytes());
            stack.push(Frame::Body(BodyFrame::Block(so_far)))?;
            block_word(alloc, at, stack, word, class)
        }
        _ => {
            stack.push(Frame::Body(BodyFrame::Block(so_far)))?;
            begin_simple(alloc, at, stack, token)
        }
    }
}

/// A token behind `return` at a place.
pub fn after_return(
    alloc: Global,
    at: usize,
    stack: &mut Stack,
    first: usize,
    token: &TokenKind,
) -> Result<Turn, NoMemory>
    requires { at < usize.MAX }
    ensures { IfOk result (λ turn. turn_view stack.new turn ≡ return_step at (stack_view stack.old) first token.now) }
{
    match token {
        TokenKind::Punct(Punct::Semicolon) => {
            end_simple(at, stack, Simple::new(first, at, SimpleForm::bare_return()))
        }
        _ => {
            let frame = Frame::Value(ValueFrame::Simple(first, Verb::Return));
            begin_inside(alloc, at, stack, frame, token)
        }
    }
}

/// A token behind a simple statement that holds no expression.
pub fn after_simple(
    at: usize,
    stack: &mut Stack,
    simple: Simple,
    token: &TokenKind,
) -> Result<Turn, NoMemory>
    requires { at < usize.MAX }
    ensures { IfOk result (λ turn. turn_view stack.new turn ≡ semicolon_step at (stack_view stack.old) (simple_view simple) token.now) }
{
    match token {
        TokenKind::Punct(Punct::Semicolon) => end_simple(at, stack, simple),
        _ => {
            drop(simple);
            Ok(Turn::Fault)
        }
    }
}

/// A token behind `const` or `let`.
pub fn after_binder(first: usize, binder: Binder, token: &TokenKind) -> Result<Turn, NoMemory>
    ensures { IfOk result (λ turn. Gives turn (λ k. binder_step k first (binder_view binder) token.now)) }
{
    match token {
        TokenKind::Name(word) => {
            if is_reserved(word.as_bytes()) {
                Ok(Turn::Fault)
            } else {
                let name = word.share()?;
                Ok(Turn::Go(Mode::Statement(StatementMode::Declared(Declared {
                    first,
                    binder,
                    name,
                }))))
            }
        }
        _ => Ok(Turn::Fault),
    }
}

/// A token behind a declaration's name.
pub fn after_declared(
    stack: &mut Stack,
    declared: Declared,
    token: &TokenKind,
) -> Result<Turn, NoMemory>
    ensures { IfOk result (λ turn. turn_view stack.new turn ≡ declared_step (stack_view stack.old) declared.first (binder_view declared.binder) declared.name token.now) }
{
    match token {
        TokenKind::Punct(Punct::Colon) => Ok(Turn::Type(Waiting::Declared(declared))),
        TokenKind::Punct(Punct::Assign) => {
            stack.push(Frame::Value(ValueFrame::Declaration(declared, None)))?;
            Ok(Turn::Go(Mode::Value(ValueMode::Want)))
        }
        _ => Ok(Turn::Fault),
    }
}

/// A token behind an `if` at a place.
pub fn after_if(
    stack: &mut Stack,
    so_far: OpenIf,
    place: usize,
    token: &TokenKind,
) -> Result<Turn, NoMemory>
    ensures { IfOk result (λ turn. turn_view stack.new turn ≡ if_step (stack_view stack.old) so_far.first (branches_view so_far.branches) place token.now) }
{
    match token {
        TokenKind::Punct(Punct::OpenParen) => {
            stack.push(Frame::Value(ValueFrame::IfTest(so_far, place)))?;
            Ok(Turn::Go(Mode::Value(ValueMode::Want)))
        }
        _ => Ok(Turn::Fault),
    }
}

/// A token behind `while`.
pub fn after_while(stack: &mut Stack, first: usize, token: &TokenKind) -> Result<Turn, NoMemory>
    ensures { IfOk result (λ turn. turn_view stack.new turn ≡ while_step (stack_view stack.old) first token.now) }
{
    match token {
        TokenKind::Punct(Punct::OpenParen) => {
            stack.push(Frame::Value(ValueFrame::LoopTest(first)))?;
            Ok(Turn::Go(Mode::Value(ValueMode::Want)))
        }
        _ => Ok(Turn::Fault),
    }
}

/// Whether a word of this class is `else`.
fn is_else_word(class: StatementWord) -> bool
    ensures { result ≡ is_else_class (statement_word_view class) }
{
    match class {
        StatementWord::Else => true,
        _ => false,
    }
}

/// Whether a token is the word `else`.
fn is_else(token: &TokenKind) -> bool
    ensures { result ≡ is_else_token token.now }
{
    match token {
        TokenKind::Name(word) => is_else_word(statement_word(word.as_bytes())),
        _ => false,
    }
}

/// An `if` without a last `else` ended before a token.
#[tactic(auto, using(crate::proofs::Branches::others))]
fn end_branches(
    alloc: Global,
    at: usize,
    stack: &mut Stack,
    so_far: OpenIf,
    token: &TokenKind,
) -> Result<Turn, NoMemory>
    requires { at < usize.MAX }
    ensures { IfOk result (λ turn. turn_view stack.new turn ≡ end_step at (stack_view stack.old) so_far.first (branches_view so_far.branches) token.now) }
{
    match stack.take_body() {
        Top::Body(waiting) => end_branches_in(alloc, at, stack, waiting, so_far, token),
        Top::Other | Top::Bottom => Ok(Turn::Fault),
    }
}

/// An `if` without a last `else` ended in this form before a token.
#[tactic(auto, using(crate::proofs::Branches::outsides))]
fn end_branches_in(
    alloc: Global,
    at: usize,
    stack: &mut Stack,
    waiting: BodyFrame,
    so_far: OpenIf,
    token: &TokenKind,
) -> Result<Turn, NoMemory>
    requires { at < usize.MAX }
    ensures { IfOk result (λ turn. turn_view stack.new turn ≡ end_step at (body_frame_view waiting ∷ stack_view stack.old) so_far.first (branches_view so_far.branches) token.now) }
{
    match waiting {
        BodyFrame::Block(block) => {
            let OpenIf { first, branches } = so_far;
            let form = StatementForm::if_statement(branches, Else::nothing());
            let block = push_statement(block, Statement::new(first, at, form))?;
            begin_statement(alloc, at, stack, block, token)
        }
        other => {
            drop(other);
            Ok(Turn::Fault)
        }
    }
}

/// A token behind a branch of an `if`.
pub fn after_branch(
    alloc: Global,
    at: usize,
    stack: &mut Stack,
    so_far: OpenIf,
    token: &TokenKind,
) -> Result<Turn, NoMemory>
    requires { at < usize.MAX }
    ensures { IfOk result (λ turn. turn_view stack.new turn ≡ branch_step at (stack_view stack.old) so_far.first (branches_view so_far.branches) token.now) }
{
    if is_else(token) {
        Ok(Turn::Go(Mode::Statement(StatementMode::Else(so_far))))
    } else {
        end_branches(alloc, at, stack, so_far, token)
    }
}

/// A token behind `else`.
pub fn after_else(
    alloc: Global,
    at: usize,
    stack: &mut Stack,
    so_far: OpenIf,
    token: &TokenKind,
) -> Result<Turn, NoMemory>
    requires { at < usize.MAX }
    ensures { IfOk result (λ turn. turn_view stack.new turn ≡ else_step at (stack_view stack.old) so_far.first (branches_view so_far.branches) token.now) }
{
    match token {
        TokenKind::Name(word) => {
            match statement_word(word.as_bytes()) {
                StatementWord::If => Ok(Turn::Go(Mode::Statement(StatementMode::If(so_far, at)))),
                class => {
                    stack.push(Frame::Body(BodyFrame::Else(so_far)))?;
                    simple_word(alloc, at, stack, word, class)
                }
            }
        }
        _ => {
            stack.push(Frame::Body(BodyFrame::Else(so_far)))?;
            begin_body(alloc, at, stack, token)
        }
    }
}
