// What stands in braces.
ghost use Rattle.std.specs.Prelude.{◌≡◌, ◌<◌, IfOk, false};
ghost use Rattle.js_grammar.specs.Types.{word_key, text_key, key as key_at};
ghost use Rattle.js_grammar.specs.Machine.{after_sign, ending_of, key_step, object_step, dots_step, colon_step, marked_step};
ghost use Rattle.type_tree.specs.View.{props_view, sign_view, ending_view, key_view};
ghost use Rattle.type_parser.specs.State.{open_view, mode_view, turn_view, stack_view, Gives};

use crate::state::{Frame, Keyed, Mode, Object, Signed, Turn};
use crate::step::based;
use flow_values::{List, NoMemory};
use js_token::{Punct, TokenKind};
use std::alloc::Global;
use type_tree::{BaseForm, Ending, Key, KeyForm, PropTree, Sign};

/// A token in an object type, where a property may begin.
#[tactic(auto, using(crate::proofs::Pushes::nothings))]
pub fn begin_prop(
    alloc: Global,
    at: usize,
    object: Object,
    token: &TokenKind,
) -> Result<Turn, NoMemory>
    requires { at < usize.MAX }
    ensures { IfOk result (λ turn. Gives turn (λ k. object_step at k (open_view object.open) object.first (props_view object.props) token.now)) }
{
    match token {
        TokenKind::Punct(Punct::CloseBrace) => Ok(close_object(alloc, at, object)),
        TokenKind::Punct(Punct::Ellipsis) => Ok(Turn::Go(Mode::AfterDots(object))),
        TokenKind::Punct(Punct::Plus) => Ok(Turn::Go(signed(object, at, Sign::Plus))),
        TokenKind::Punct(Punct::Minus) => Ok(Turn::Go(signed(object, at, Sign::Minus))),
        _ => {
            read_key(
                Signed {
                    object,
                    start: at,
                    sign: Sign::Unsigned,
                },
                at,
                token,
            )
        }
    }
}

/// A property of this sign begins at this place.
fn signed(object: Object, start: usize, sign: Sign) -> Mode
    ensures { mode_view result ≡ after_sign (open_view object.open) object.first (props_view object.props) start (sign_view sign) }
{
    Mode::AfterSign(Signed {
        object,
        start,
        sign,
    })
}

/// The end of an object type where a property might begin.
fn close_object(alloc: Global, at: usize, object: Object) -> Turn
    requires { at < usize.MAX }
    ensures { Gives result (λ k. object_step at k (open_view object.open) object.first (props_view object.props) (TokenKind.Punct Punct.CloseBrace)) }
{
    let Object { open, first, props } = object;
    let ending = ending_behind(&props);
    let form = BaseForm::object(props, ending);
    Turn::Go(based(alloc, open, first, at + 1, form))
}

/// What stands behind these properties, where none begins.
#[tactic(auto, using(crate::proofs::Empties::empties))]
fn ending_behind(props: &List<PropTree>) -> Ending
    ensures { ending_view result ≡ ending_of (props_view props.now) }
{
    if props.as_slice().is_empty() {
        Ending::Bare
    } else {
        Ending::Comma
    }
}

/// A token where a key stands.
#[tactic(auto, using(crate::proofs::Pushes::nothings))]
pub fn read_key(signed: Signed, at: usize, token: &TokenKind) -> Result<Turn, NoMemory>
    requires { at < usize.MAX }
    ensures { IfOk result (λ turn. Gives turn (λ k. key_step at k (open_view signed.object.open) signed.object.first (props_view signed.object.props) signed.start (sign_view signed.sign) token.now)) }
{
    let form = match token {
        TokenKind::Name(word) => KeyForm::Word(word.share()?),
        TokenKind::Str(text) => KeyForm::Str(text.share()?),
        _ => return Ok(Turn::Fault),
    };
    Ok(Turn::Go(Mode::AfterKey(Keyed {
        signed,
        key: Key {
            first: at,
            end: at + 1,
            form,
        },
    })))
}

/// A token behind `...`.
#[tactic(auto, using(crate::proofs::Pushes::nothings))]
pub fn after_dots(alloc: Global, at: usize, object: Object, token: &TokenKind) -> Turn
    requires { at < usize.MAX }
    ensures { Gives result (λ k. dots_step at k (open_view object.open) object.first (props_view object.props) token.now) }
{
    match token {
        TokenKind::Punct(Punct::CloseBrace) => {
            let Object { open, first, props } = object;
            let form = BaseForm::object(props, Ending::Dots);
            Turn::Go(based(alloc, open, first, at + 1, form))
        }
        _ => Turn::Fault,
    }
}

/// A token behind a key.
#[tactic(auto, using(crate::proofs::Pushes::pushes))]
pub fn after_key(stack: &mut Vec<Frame>, keyed: Keyed, token: &TokenKind) -> Result<Turn, NoMemory>
    ensures { IfOk result (λ turn. turn_view stack.new.items turn ≡ colon_step (stack_view stack.old.items) (open_view keyed.signed.object.open) keyed.signed.object.first (props_view keyed.signed.object.props) keyed.signed.start (sign_view keyed.signed.sign) (key_view keyed.key) token.now) }
{
    match token {
        TokenKind::Punct(Punct::Question) => Ok(Turn::Go(Mode::AfterMark(keyed))),
        TokenKind::Punct(Punct::Colon) => {
            stack.push(Frame::Prop(keyed, false))?;
            Ok(Turn::Go(Mode::Want))
        }
        _ => Ok(Turn::Fault),
    }
}

/// A token behind a key and a question mark.
#[tactic(auto, using(crate::proofs::Pushes::pushes))]
pub fn after_key_mark(
    stack: &mut Vec<Frame>,
    keyed: Keyed,
    token: &TokenKind,
) -> Result<Turn, NoMemory>
    ensures { IfOk result (λ turn. turn_view stack.new.items turn ≡ marked_step (stack_view stack.old.items) (open_view keyed.signed.object.open) keyed.signed.object.first (props_view keyed.signed.object.props) keyed.signed.start (sign_view keyed.signed.sign) (key_view keyed.key) token.now) }
{
    match token {
        TokenKind::Punct(Punct::Colon) => {
            stack.push(Frame::Prop(keyed, true))?;
            Ok(Turn::Go(Mode::Want))
        }
        _ => Ok(Turn::Fault),
    }
}
