// The tokens with which parts of a type begin, and those behind a base.
ghost use Rattle.std.specs.Prelude.{◌≡◌, ◌<◌, IfOk, false};
ghost use Rattle.js_grammar.specs.Types.{has_types as any_types, post};
ghost use Rattle.js_grammar.specs.Machine.{close_at as close_step, base_step, word_step, pre_step, want_step, array_step, bracket_step, start_step, name_rest as rest_step, name_step, mark_step, single as single_step, closed_step, tuple_step, finish, start_base, ending_of, key_step, object_step, dots_step, colon_step, marked_step, type_word as class_of};
ghost use Rattle.type_tree.specs.View.{type_view, base_view, places_view, params_view, types_view, props_view, sign_view, ending_view, key_view};
ghost use Rattle.type_parser.specs.State.{next_open, marked_open, open_view, turn_view, stack_view, mode_view, Gives, IsSingle};
ghost use Rattle.type_parser.specs.Words.{word_view};

use crate::state::{
    ArrayName, Based, Frame, Group, GroupName, Keyed, Mode, Object, OpenUnion, Signed, Tuple, Turn,
};
use crate::step::{based, can_fun, finish_union, fresh, give};
use crate::words::{TypeWord, is_type_number, type_word};
use flow_values::{List, NoMemory, Text};
use js_token::{Punct, TokenKind};
use std::alloc::Global;
use type_tree::{
    BaseForm, BaseTree, CoreTree, Ending, Key, KeyForm, ParamTree, PreTree, PropTree, Sign,
    TypeTree,
};

/// A token behind a base and its brackets.
#[tactic(auto, using(crate::proofs::Pushes::pushes))]
pub fn after_base(
    alloc: Global,
    plain: bool,
    at: usize,
    stack: &mut Vec<Frame>,
    read: Based,
    token: &TokenKind,
) -> Result<Turn, NoMemory>
    requires { at < usize.MAX }
    ensures { IfOk result (λ turn. turn_view stack.new.items turn ≡ base_step plain at (stack_view stack.old.items) (open_view read.open) (base_view read.base) (places_view read.brackets) token.now) }
{
    match token {
        TokenKind::Punct(Punct::OpenBracket) => Ok(Turn::Go(Mode::AfterBracket(read, at))),
        TokenKind::Punct(Punct::Bar) => Ok(Turn::Go(Mode::WantPre(next_member(alloc, at, read)?))),
        _ => {
            let ty = whole_union(at, read)?;
            give(alloc, plain, at, stack, ty, token)
        }
    }
}

/// The union behind a base, with a `|` at this place behind it.
#[tactic(auto, using(crate::proofs::Pushes::pushes, crate::proofs::Views::starts))]
fn next_member(alloc: Global, at: usize, read: Based) -> Result<OpenUnion, NoMemory>
    requires { at < usize.MAX }
    ensures { IfOk result (λ next. open_view next ≡ next_open at (open_view read.open) (base_view read.base) (places_view read.brackets)) }
{
    let Based {
        open,
        base,
        brackets,
    } = read;
    let OpenUnion {
        first,
        lead,
        mut members,
        start,
        marks,
    } = open;
    let core = CoreTree::post(base.first, at, base, brackets);
    members.push(PreTree::new(start, at, marks, core))?;
    Ok(OpenUnion {
        first,
        lead,
        members,
        start: at + 1,
        marks: List::new(alloc),
    })
}

/// The union that a base ends, up to this place.
#[tactic(auto, using(crate::proofs::Pushes::pushes, crate::proofs::Views::starts))]
fn whole_union(at: usize, read: Based) -> Result<TypeTree, NoMemory>
    ensures { IfOk result (λ t. type_view t ≡ finish at (open_view read.open) (post (start_base (base_view read.base)) at (base_view read.base) (places_view read.brackets))) }
{
    let Based {
        open,
        base,
        brackets,
    } = read;
    let core = CoreTree::post(base.first, at, base, brackets);
    finish_union(open, at, core)
}

/// A word where a member of a union begins.
#[tactic(auto, using(crate::proofs::Pushes::nothings))]
fn begin_word(
    alloc: Global,
    at: usize,
    open_union: OpenUnion,
    word: &Text,
    class: TypeWord,
) -> Result<Turn, NoMemory>
    requires { at < usize.MAX }
    ensures { IfOk result (λ turn. Gives turn (λ k. word_step at k (open_view open_union) word.now (word_view class))) }
{
    let form = match class {
        TypeWord::Name => BaseForm::name(word.share()?),
        TypeWord::Null => BaseForm::null(),
        TypeWord::Void => BaseForm::void(),
        TypeWord::Truth(value) => BaseForm::truth(value),
        TypeWord::Array(read_only) => {
            return Ok(Turn::Go(Mode::AfterArray(ArrayName {
                open: open_union,
                first: at,
                read_only,
            })));
        }
        TypeWord::Other => return Ok(Turn::Fault),
    };
    Ok(Turn::Go(based(alloc, open_union, at, at + 1, form)))
}

/// A mark where a member of a union begins.
#[tactic(auto, using(crate::proofs::Pushes::pushes, crate::proofs::Pushes::nothings))]
fn begin_mark(
    alloc: Global,
    at: usize,
    open_union: OpenUnion,
    mark: Punct,
) -> Result<Turn, NoMemory>
    ensures { IfOk result (λ turn. Gives turn (λ k. pre_step at k (open_view open_union) (TokenKind.Punct mark))) }
{
    match mark {
        Punct::Question => Ok(Turn::Go(Mode::WantPre(one_more_mark(at, open_union)?))),
        Punct::OpenParen => {
            Ok(Turn::Go(Mode::GroupStart(Group {
                open: open_union,
                first: at,
                params: List::new(alloc),
            })))
        }
        Punct::OpenBracket => {
            Ok(Turn::Go(Mode::TupleStart(Tuple {
                open: open_union,
                first: at,
                types: List::new(alloc),
            })))
        }
        Punct::OpenBrace => {
            Ok(Turn::Go(Mode::ObjectStart(Object {
                open: open_union,
                first: at,
                props: List::new(alloc),
            })))
        }
        _ => Ok(Turn::Fault),
    }
}

/// The union with one question mark more.
#[tactic(auto, using(crate::proofs::Pushes::pushes))]
fn one_more_mark(at: usize, open_union: OpenUnion) -> Result<OpenUnion, NoMemory>
    ensures { IfOk result (λ next. open_view next ≡ marked_open at (open_view open_union)) }
{
    let OpenUnion {
        first,
        lead,
        members,
        start,
        mut marks,
    } = open_union;
    marks.push(at)?;
    Ok(OpenUnion {
        first,
        lead,
        members,
        start,
        marks,
    })
}

/// A token where a member of a union begins.
#[tactic(auto, using(crate::proofs::Pushes::nothings))]
pub fn begin_member(
    alloc: Global,
    at: usize,
    open_union: OpenUnion,
    token: &TokenKind,
) -> Result<Turn, NoMemory>
    requires { at < usize.MAX }
    ensures { IfOk result (λ turn. Gives turn (λ k. pre_step at k (open_view open_union) token.now)) }
{
    match token {
        TokenKind::Punct(mark) => begin_mark(alloc, at, open_union, *mark),
        TokenKind::Name(word) => {
            let class = type_word(word.as_bytes());
            begin_word(alloc, at, open_union, word, class)
        }
        TokenKind::Str(text) => {
            let form = BaseForm::str(text.share()?);
            Ok(Turn::Go(based(alloc, open_union, at, at + 1, form)))
        }
        TokenKind::Number(digits) => {
            if is_type_number(digits.as_bytes()) {
                let form = BaseForm::number(digits.share()?);
                Ok(Turn::Go(based(alloc, open_union, at, at + 1, form)))
            } else {
                Ok(Turn::Fault)
            }
        }
    }
}

/// A token where a type begins.
#[tactic(auto, using(crate::proofs::Pushes::nothings))]
pub fn begin_type(alloc: Global, at: usize, token: &TokenKind) -> Result<Turn, NoMemory>
    requires { at < usize.MAX }
    ensures { IfOk result (λ turn. Gives turn (λ k. want_step at k token.now)) }
{
    match token {
        TokenKind::Punct(Punct::Bar) => {
            Ok(Turn::Go(Mode::WantPre(OpenUnion {
                first: at,
                lead: true,
                members: List::new(alloc),
                start: at + 1,
                marks: List::new(alloc),
            })))
        }
        _ => begin_member(alloc, at, fresh(alloc, at), token),
    }
}
