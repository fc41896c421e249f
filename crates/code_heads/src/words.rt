// The words and marks with which statements begin.
ghost use Rattle.std.specs.Prelude.{◌≡◌, ◌<◌, ◌∷◌, ◌+◌, IfOk};
ghost use Rattle.std.proofs.Common.{cond};
ghost use Rattle.js_grammar.specs.Code.{simple};
ghost use Rattle.code_tree.specs.View.{simple_form_view};
ghost use Rattle.code_law.specs.Frames.{in_simple, evaluates, after_simple, go, fault, context, within_loop};
ghost use Rattle.code_law.specs.Expressions.{want_step};
ghost use Rattle.code_law.specs.Statements.{simple_word as word_step, simple_step, block_word as block_step, body_step};
ghost use Rattle.code_state.specs.Stack.{stack_view};
ghost use Rattle.code_state.specs.Turns.{turn_view, Gives};
ghost use Rattle.code_words.specs.Words.{statement_word_view};

use crate::arrows::open_block;
use crate::values::{begin_inside, begin_word};
use code_state::{
    Frame, FunctionKind, HeadMode, Mode, OpenIf, Stack, StatementMode, Turn, ValueFrame, ValueMode,
    Verb,
};
use code_tree::{Simple, SimpleForm};
use code_words::{StatementWord, statement_word};
use flow_values::{Boxed, List, NoMemory, Text};
use js_token::{Punct, TokenKind};
use std::alloc::Global;

/// An expression begins a simple statement.
fn begin_evaluate(
    alloc: Global,
    at: usize,
    stack: &mut Stack,
    token: &TokenKind,
) -> Result<Turn, NoMemory>
    requires { at < usize.MAX }
    ensures { IfOk result (λ turn. turn_view stack.new turn ≡ want_step at (in_simple at evaluates ∷ stack_view stack.old) token.now) }
{
    let frame = Frame::Value(ValueFrame::Simple(at, Verb::Evaluate));
    begin_inside(alloc, at, stack, frame, token)
}

/// `break` or `continue`
fn leave_loop(alloc: Global, at: usize, stack: &Stack, form: SimpleForm) -> Result<Turn, NoMemory>
    requires { at < usize.MAX }
    ensures { IfOk result (λ turn. Gives turn (λ k. cond (within_loop (context (stack_view stack.now))) (go k (after_simple (simple at (at + 1) (simple_form_view form)))) fault)) }
{
    if stack.in_loop() {
        let simple = Simple::new(at, at + 1, form);
        let simple = Boxed::new(alloc, simple)?;
        Ok(Turn::Go(Mode::Statement(StatementMode::Simple(simple))))
    } else {
        Ok(Turn::Fault)
    }
}

/// A word of this class where a simple statement begins.
pub fn simple_word(
    alloc: Global,
    at: usize,
    stack: &mut Stack,
    word: &Text,
    class: StatementWord,
) -> Result<Turn, NoMemory>
    requires { at < usize.MAX }
    ensures { IfOk result (λ turn. turn_view stack.new turn ≡ word_step at (stack_view stack.old) word.now (statement_word_view class)) }
{
    match class {
        StatementWord::Return => {
            if stack.in_function() {
                Ok(Turn::Go(Mode::Statement(StatementMode::Return(at))))
            } else {
                Ok(Turn::Fault)
            }
        }
        StatementWord::Throw => {
            stack.push(Frame::Value(ValueFrame::Simple(at, Verb::Throw)))?;
            Ok(Turn::Go(Mode::Value(ValueMode::Want)))
        }
        StatementWord::Break => leave_loop(alloc, at, stack, SimpleForm::break_loop()),
        StatementWord::Continue => leave_loop(alloc, at, stack, SimpleForm::continue_loop()),
        StatementWord::Plain => {
            stack.push(Frame::Value(ValueFrame::Simple(at, Verb::Evaluate)))?;
            begin_word(alloc, at, stack, word)
        }
        _ => Ok(Turn::Fault),
    }
}

/// A token where a simple statement begins.
pub fn begin_simple(
    alloc: Global,
    at: usize,
    stack: &mut Stack,
    token: &TokenKind,
) -> Result<Turn, NoMemory>
    requires { at < usize.MAX }
    ensures { IfOk result (λ turn. turn_view stack.new turn ≡ simple_step at (stack_view stack.old) token.now) }
{
    match token {
        TokenKind::Name(word) => {
            let class = statement_word(word.as_bytes());
            simple_word(alloc, at, stack, word, class)
        }
        TokenKind::Punct(Punct::OpenBrace) => Ok(Turn::Fault),
        _ => begin_evaluate(alloc, at, stack, token),
    }
}

/// A word of this class where a statement of a block begins.
#[tactic(auto, using(code_state::proofs::Pushes::nothings))]
pub fn block_word(
    alloc: Global,
    at: usize,
    stack: &mut Stack,
    word: &Text,
    class: StatementWord,
) -> Result<Turn, NoMemory>
    requires { at < usize.MAX }
    ensures { IfOk result (λ turn. turn_view stack.new turn ≡ block_step at (stack_view stack.old) word.now (statement_word_view class)) }
{
    match class {
        StatementWord::Binds(binder) => {
            Ok(Turn::Go(Mode::Statement(StatementMode::Binder(at, binder))))
        }
        StatementWord::Function => {
            let kind = FunctionKind::Statement;
            Ok(Turn::Go(Mode::Head(HeadMode::Function(kind, at))))
        }
        StatementWord::If => {
            let so_far = OpenIf {
                first: at,
                branches: List::new(alloc),
            };
            Ok(Turn::Go(Mode::Statement(StatementMode::If(so_far, at))))
        }
        StatementWord::While => Ok(Turn::Go(Mode::Statement(StatementMode::While(at)))),
        _ => simple_word(alloc, at, stack, word, class),
    }
}

/// A token where the body of an `if` or a loop begins.
pub fn begin_body(
    alloc: Global,
    at: usize,
    stack: &mut Stack,
    token: &TokenKind,
) -> Result<Turn, NoMemory>
    requires { at < usize.MAX }
    ensures { IfOk result (λ turn. turn_view stack.new turn ≡ body_step at (stack_view stack.old) token.now) }
{
    match token {
        TokenKind::Punct(Punct::OpenBrace) => Ok(Turn::Go(open_block(alloc, at))),
        _ => begin_simple(alloc, at, stack, token),
    }
}
