// The tokens with which expressions begin.
ghost use Rattle.std.specs.Prelude.{◌≡◌, ◌<◌, ◌∷◌, ◌+◌, IfOk};
ghost use Rattle.js_token.specs.declared.token.TokenKind.TheVariants.{Name as a_name, Punct as a_mark};
ghost use Rattle.code_tree.specs.Flat.{prefix_view, prefixes_view};
ghost use Rattle.js_grammar.specs.Code.{Prefix as a_prefix, more_prefix, ex, no_link};
ghost use Rattle.code_tree.specs.View.{expr_form_view};
ghost use Rattle.code_law.specs.Frames.{in_prefix, want, after_links, go};
ghost use Rattle.code_law.specs.Expressions.{marked, want_step};
ghost use Rattle.code_state.specs.Forms.{frame_view};
ghost use Rattle.code_state.specs.Stack.{stack_view};
ghost use Rattle.code_state.specs.Turns.{turn_view, Gives};

use crate::lists::primary;
use code_state::{
    Frame, FunctionKind, GroupMode, HeadMode, Mode, OpenFields, OperatorFrame, Row, Stack, Turn,
    ValueMode,
};
use code_tree::{Expr, ExprForm, Prefix, PrefixMark};
use code_words::{ValueWord, value_word};
use flow_values::{List, NoMemory, Text};
use js_token::{Punct, TokenKind};
use std::alloc::Global;

/// The marks that are innermost, or none, where a further one stands at a place.
#[tactic(auto, using(code_state::proofs::Pushes::nothings, crate::proofs::Marks::marked_outer))]
fn take_marks(alloc: Global, at: usize, stack: &mut Stack) -> (usize, List<PrefixMark>)
    ensures { (x : a_prefix) → marked at x (stack_view stack.old) ≡ in_prefix result.0 (more_prefix (prefixes_view result.1) at x) ∷ stack_view stack.new }
{
    match stack.pop_prefix() {
        Some(so_far) => so_far,
        None => (at, List::new(alloc)),
    }
}

/// A mark before an expression.
#[tactic(auto, using(code_state::proofs::Pushes::pushes))]
fn mark(alloc: Global, at: usize, stack: &mut Stack, prefix: Prefix) -> Result<Turn, NoMemory>
    ensures { IfOk result (λ turn. turn_view stack.new turn ≡ go (marked at (prefix_view prefix) (stack_view stack.old)) want) }
{
    let (first, mut marks) = take_marks(alloc, at, stack);
    marks.push(PrefixMark { at, prefix })?;
    stack.push(Frame::Operator(OperatorFrame::Prefix(first, marks)))?;
    Ok(Turn::Go(Mode::Value(ValueMode::Want)))
}

/// A token that is all of an expression.
fn atom(alloc: Global, at: usize, form: ExprForm) -> Turn
    requires { at < usize.MAX }
    ensures { Gives result (λ k. go k (after_links (ex at (at + 1) (expr_form_view form)) no_link)) }
{
    Turn::Go(primary(alloc, Expr::new(at, at + 1, form)))
}

/// A word where an expression may begin.
pub fn begin_word(
    alloc: Global,
    at: usize,
    stack: &mut Stack,
    word: &Text,
) -> Result<Turn, NoMemory>
    requires { at < usize.MAX }
    ensures { IfOk result (λ turn. turn_view stack.new turn ≡ want_step at (stack_view stack.old) (a_name word.now)) }
{
    match value_word(word.as_bytes()) {
        ValueWord::Variable => Ok(atom(alloc, at, ExprForm::variable(word.share()?))),
        ValueWord::Null => Ok(atom(alloc, at, ExprForm::null())),
        ValueWord::Truth(value) => Ok(atom(alloc, at, ExprForm::truth(value))),
        ValueWord::TypeOf => mark(alloc, at, stack, Prefix::TypeOf),
        ValueWord::Function => {
            Ok(Turn::Go(Mode::Head(HeadMode::Function(FunctionKind::Value, at))))
        }
        ValueWord::Other => Ok(Turn::Fault),
    }
}

/// A mark where an expression may begin.
#[tactic(auto, using(code_state::proofs::Pushes::nothings))]
fn begin_mark(alloc: Global, at: usize, stack: &mut Stack, token: Punct) -> Result<Turn, NoMemory>
    ensures { IfOk result (λ turn. turn_view stack.new turn ≡ want_step at (stack_view stack.old) (a_mark token)) }
{
    match token {
        Punct::OpenParen => Ok(Turn::Go(Mode::Group(GroupMode::ParenStart(at)))),
        Punct::OpenBracket => {
            let row = Row::Array(at);
            Ok(Turn::Go(Mode::Value(ValueMode::RowStart(row, List::new(alloc)))))
        }
        Punct::OpenBrace => {
            let fields = List::new(alloc);
            Ok(Turn::Go(Mode::Group(GroupMode::FieldStart(OpenFields { first: at, fields }))))
        }
        Punct::Bang => mark(alloc, at, stack, Prefix::Not),
        Punct::Minus => mark(alloc, at, stack, Prefix::Minus),
        Punct::Plus => mark(alloc, at, stack, Prefix::Plus),
        _ => Ok(Turn::Fault),
    }
}

/// A token where an expression begins.
pub fn begin_value(
    alloc: Global,
    at: usize,
    stack: &mut Stack,
    token: &TokenKind,
) -> Result<Turn, NoMemory>
    requires { at < usize.MAX }
    ensures { IfOk result (λ turn. turn_view stack.new turn ≡ want_step at (stack_view stack.old) token.now) }
{
    match token {
        TokenKind::Name(word) => begin_word(alloc, at, stack, word),
        TokenKind::Number(digits) => Ok(atom(alloc, at, ExprForm::number(digits.share()?))),
        TokenKind::Str(text) => Ok(atom(alloc, at, ExprForm::str(text.share()?))),
        TokenKind::Punct(mark) => begin_mark(alloc, at, stack, *mark),
    }
}

/// A token with which an expression begins in this form.
pub fn begin_inside(
    alloc: Global,
    at: usize,
    stack: &mut Stack,
    frame: Frame,
    token: &TokenKind,
) -> Result<Turn, NoMemory>
    requires { at < usize.MAX }
    ensures { IfOk result (λ turn. turn_view stack.new turn ≡ want_step at (frame_view frame ∷ stack_view stack.old) token.now) }
{
    stack.push(frame)?;
    begin_value(alloc, at, stack, token)
}
