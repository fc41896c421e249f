// What stands in an object, and behind `(`.
ghost use Rattle.std.specs.Prelude.{◌≡◌, ◌<◌, ◌∷◌, IfOk};
ghost use Rattle.std.proofs.Common.{cond};
ghost use Rattle.js_token.specs.Words.{is_reserved as reserved};
ghost use Rattle.js_grammar.specs.Code.{ex, variable, no_arm, has_fields as any_fields, more_field, field as field_tree, shorthand, no_parameter};
ghost use Rattle.code_tree.specs.Flat.{parameters_view};
ghost use Rattle.code_law.specs.Frames.{of_arrow, in_parens, in_branch, in_field, fault, go, want};
ghost use Rattle.code_law.specs.Ladder.{after_field as next_step};
ghost use Rattle.code_state.specs.Forms.{owner_view};
ghost use Rattle.type_tree.specs.View.{key_view};
ghost use Rattle.code_tree.specs.View.{expr_view, fields_view};
ghost use Rattle.code_law.specs.Expressions.{want_step, fields_step, field_step, key_step, paren_step, paren_mark_step};
ghost use Rattle.code_state.specs.Stack.{stack_view};
ghost use Rattle.code_state.specs.Turns.{turn_view, Gives};

use code_heads::{after_field, begin_inside, close_fields};
use code_state::{
    Frame, GroupMode, HeadMode, InnerFrame, Mode, NamedParameter, OpenFields, OpenParameters,
    Owner, ParenWord, Stack, Turn, ValueMode, Waiting,
};
use code_tree::{Expr, ExprForm, Field, FieldForm};
use flow_values::{List, NoMemory, Text};
use js_token::{Punct, TokenKind, is_reserved};
use std::alloc::Global;
use type_tree::{Key, KeyForm};

/// Whether there are properties.
#[tactic(auto, using(code_heads::proofs::Empties::empties))]
fn has_fields(fields: &List<Field>) -> bool
    ensures { result ≡ any_fields (fields_view fields.now) }
{
    !fields.as_slice().is_empty()
}

/// A token in an object, where a property may begin.
pub fn begin_field(
    alloc: Global,
    at: usize,
    so_far: OpenFields,
    token: &TokenKind,
) -> Result<Turn, NoMemory>
    requires { at < usize.MAX }
    ensures { IfOk result (λ turn. Gives turn (λ k. fields_step at k so_far.first (fields_view so_far.fields) token.now)) }
{
    match token {
        TokenKind::Punct(Punct::CloseBrace) => {
            let comma = has_fields(&so_far.fields);
            Ok(Turn::Go(close_fields(alloc, at, so_far, comma)))
        }
        TokenKind::Name(word) => {
            let word = word.share()?;
            Ok(Turn::Go(Mode::Group(GroupMode::FieldWord(so_far, at, word))))
        }
        TokenKind::Str(text) => {
            let key = Key {
                first: at,
                end: at + 1,
                form: KeyForm::Str(text.share()?),
            };
            Ok(Turn::Go(Mode::Group(GroupMode::FieldKey(so_far, key))))
        }
        _ => Ok(Turn::Fault),
    }
}

/// A word by itself is a property, and the token at a place comes after it.
#[tactic(auto, using(code_state::proofs::Pushes::pushes))]
fn add_shorthand(
    alloc: Global,
    at: usize,
    so_far: OpenFields,
    start: usize,
    name: Text,
    token: &TokenKind,
) -> Result<Turn, NoMemory>
    requires { at < usize.MAX }
    ensures { IfOk result (λ turn. Gives turn (λ k. next_step at k so_far.first (more_field (fields_view so_far.fields) (field_tree start at (shorthand name))) token.now)) }
{
    let OpenFields { first, mut fields } = so_far;
    fields.push(Field::new(start, at, FieldForm::shorthand(name)))?;
    Ok(after_field(alloc, at, OpenFields { first, fields }, token))
}

/// A word by itself is a property where it is not reserved, and the token at a place comes after it.
fn after_shorthand(
    alloc: Global,
    at: usize,
    so_far: OpenFields,
    start: usize,
    name: Text,
    token: &TokenKind,
) -> Result<Turn, NoMemory>
    requires { at < usize.MAX }
    ensures { IfOk result (λ turn. Gives turn (λ k. cond (reserved name) fault (next_step at k so_far.first (more_field (fields_view so_far.fields) (field_tree start at (shorthand name))) token.now))) }
{
    if is_reserved(name.as_bytes()) {
        Ok(Turn::Fault)
    } else {
        add_shorthand(alloc, at, so_far, start, name, token)
    }
}

/// A property's value begins.
fn open_property(stack: &mut Stack, so_far: OpenFields, key: Key) -> Result<Turn, NoMemory>
    ensures { IfOk result (λ turn. turn_view stack.new turn ≡ go (in_field so_far.first (fields_view so_far.fields) (key_view key) ∷ stack_view stack.old) want) }
{
    let OpenFields { first, fields } = so_far;
    stack.push(Frame::Inner(InnerFrame::Field(first, fields, key)))?;
    Ok(Turn::Go(Mode::Value(ValueMode::Want)))
}

/// A token behind a word in an object.
pub fn after_field_word(
    alloc: Global,
    at: usize,
    stack: &mut Stack,
    so_far: OpenFields,
    start: usize,
    name: Text,
    token: &TokenKind,
) -> Result<Turn, NoMemory>
    requires { at < usize.MAX }
    ensures { IfOk result (λ turn. turn_view stack.new turn ≡ field_step at (stack_view stack.old) so_far.first (fields_view so_far.fields) start name token.now) }
{
    match token {
        TokenKind::Punct(Punct::Colon) => {
            let key = Key {
                first: start,
                end: at,
                form: KeyForm::Word(name),
            };
            open_property(stack, so_far, key)
        }
        _ => after_shorthand(alloc, at, so_far, start, name, token),
    }
}

/// A token behind a key.
pub fn after_key(
    stack: &mut Stack,
    so_far: OpenFields,
    key: Key,
    token: &TokenKind,
) -> Result<Turn, NoMemory>
    ensures { IfOk result (λ turn. turn_view stack.new turn ≡ key_step (stack_view stack.old) so_far.first (fields_view so_far.fields) (key_view key) token.now) }
{
    match token {
        TokenKind::Punct(Punct::Colon) => open_property(stack, so_far, key),
        _ => Ok(Turn::Fault),
    }
}

/// The parameters of an arrow, none so far.
#[tactic(auto, using(code_state::proofs::Pushes::nothings))]
fn no_parameters(alloc: Global, first: usize) -> OpenParameters
    ensures owner { owner_view result.owner ≡ of_arrow }
    ensures first { result.first ≡ first }
    ensures parameters { parameters_view result.parameters ≡ no_parameter }
{
    OpenParameters {
        owner: Owner::Arrow,
        first,
        parameters: List::new(alloc),
    }
}

/// A word behind `(` as the first parameter of an arrow.
pub fn first_parameter(alloc: Global, word: ParenWord) -> NamedParameter
    ensures owner { owner_view result.open.owner ≡ of_arrow }
    ensures first { result.open.first ≡ word.first }
    ensures parameters { parameters_view result.open.parameters ≡ no_parameter }
    ensures start { result.start ≡ word.start }
    ensures name { result.name ≡ word.name }
{
    let ParenWord { first, start, name } = word;
    NamedParameter {
        open: no_parameters(alloc, first),
        start,
        name,
    }
}

/// A token behind `(`.
pub fn after_paren(
    alloc: Global,
    at: usize,
    stack: &mut Stack,
    first: usize,
    token: &TokenKind,
) -> Result<Turn, NoMemory>
    requires { at < usize.MAX }
    ensures { IfOk result (λ turn. turn_view stack.new turn ≡ paren_step at (stack_view stack.old) first token.now) }
{
    match token {
        TokenKind::Punct(Punct::CloseParen) => {
            if stack.takes_arrow() {
                let so_far = no_parameters(alloc, first);
                Ok(Turn::Go(Mode::Head(HeadMode::End(so_far, false))))
            } else {
                Ok(Turn::Fault)
            }
        }
        TokenKind::Name(word) => {
            if is_reserved(word.as_bytes()) {
                let frame = Frame::Inner(InnerFrame::Paren(first));
                begin_inside(alloc, at, stack, frame, token)
            } else {
                let word = ParenWord {
                    first,
                    start: at,
                    name: word.share()?,
                };
                Ok(Turn::Go(Mode::Group(GroupMode::ParenWord(word))))
            }
        }
        _ => {
            let frame = Frame::Inner(InnerFrame::Paren(first));
            begin_inside(alloc, at, stack, frame, token)
        }
    }
}

/// A token with which the branch of a conditional's first test begins.
#[tactic(auto, using(code_state::proofs::Pushes::nothings))]
fn begin_branch(
    alloc: Global,
    at: usize,
    stack: &mut Stack,
    first: usize,
    test: Expr,
    token: &TokenKind,
) -> Result<Turn, NoMemory>
    requires { at < usize.MAX }
    ensures { IfOk result (λ turn. turn_view stack.new turn ≡ want_step at (in_branch first no_arm (expr_view test) ∷ stack_view stack.old) token.now) }
{
    let frame = Frame::Inner(InnerFrame::Branch(first, List::new(alloc), test));
    begin_inside(alloc, at, stack, frame, token)
}

/// A word behind `(` up to a mark is a test, and its branch begins.
fn begin_tested(
    alloc: Global,
    at: usize,
    stack: &mut Stack,
    word: ParenWord,
    mark: usize,
    token: &TokenKind,
) -> Result<Turn, NoMemory>
    requires { at < usize.MAX }
    ensures { IfOk result (λ turn. turn_view stack.new turn ≡ want_step at (in_branch word.start no_arm (ex word.start mark (variable word.name)) ∷ in_parens word.first ∷ stack_view stack.old) token.now) }
{
    let ParenWord { first, start, name } = word;
    stack.push(Frame::Inner(InnerFrame::Paren(first)))?;
    let test = Expr::new(start, mark, ExprForm::variable(name));
    begin_branch(alloc, at, stack, start, test, token)
}

/// A token behind a word and a question mark behind `(`.
pub fn after_paren_mark(
    alloc: Global,
    at: usize,
    stack: &mut Stack,
    word: ParenWord,
    mark: usize,
    token: &TokenKind,
) -> Result<Turn, NoMemory>
    requires { at < usize.MAX }
    ensures { IfOk result (λ turn. turn_view stack.new turn ≡ paren_mark_step at (stack_view stack.old) word.first word.start word.name mark token.now) }
{
    match token {
        TokenKind::Punct(Punct::Colon) => {
            if stack.takes_arrow() {
                let parameter = first_parameter(alloc, word);
                Ok(Turn::Type(Waiting::Parameter(parameter, true)))
            } else {
                Ok(Turn::Fault)
            }
        }
        _ => begin_tested(alloc, at, stack, word, mark, token),
    }
}
