// The forms of a type, token by token.
ghost use Rattle.std.specs.Prelude.{◌≡◌, ◌<◌, IfOk, false};
ghost use Rattle.js_grammar.specs.Types.{base, fun, plain, named as named_param, prop, more_param, more_type, more_prop, no_place, no_pre, no_param, no_type, no_prop};
ghost use Rattle.js_grammar.specs.Machine.{open_at, after_base, fresh as fresh_at, finish, after_param as param_step, after_type as element_step, after_element as argument_step, after_prop as row_step, after_pres as member_step, after_core as core_step, give as give_step, base_step, word_step, pre_step, want_step, can_fun as may_stand};
ghost use Rattle.type_tree.specs.View.{type_view, core_view, base_view, form_view, places_view, params_view, types_view, props_view, sign_view, key_view};
ghost use Rattle.type_parser.specs.State.{open_view, turn_view, stack_view, mode_view, Gives};

use crate::state::{
    ArrayName, Based, Frame, Group, GroupName, Keyed, Mode, Object, OpenUnion, Signed, Tuple, Turn,
};
use flow_values::{List, NoMemory};
use js_token::{Punct, TokenKind};
use std::alloc::Global;
use type_tree::{BaseForm, BaseTree, CoreTree, Ending, ParamTree, PreTree, PropTree, TypeTree};

/// Whether a function type may stand here outside brackets.
#[tactic(auto, using(crate::proofs::Pushes::may_stand))]
pub fn can_fun(plain: bool, stack: &Vec<Frame>) -> bool
    ensures { result ≡ may_stand plain (stack_view stack.now.items) }
{
    if plain { true } else { !stack.is_empty() }
}

/// A union without a leading bar that begins at this place.
#[tactic(auto, using(crate::proofs::Pushes::nothings))]
pub fn fresh(alloc: Global, first: usize) -> OpenUnion
    ensures { open_view result ≡ fresh_at first }
{
    OpenUnion {
        first,
        lead: false,
        members: List::new(alloc),
        start: first,
        marks: List::new(alloc),
    }
}

/// The union whose last member is behind the open one's question marks, and ends at this place.
#[tactic(auto, using(crate::proofs::Pushes::pushes))]
pub fn finish_union(open_union: OpenUnion, end: usize, core: CoreTree) -> Result<TypeTree, NoMemory>
    ensures { IfOk result (λ t. type_view t ≡ finish end (open_view open_union) (core_view core)) }
{
    let OpenUnion {
        first,
        lead,
        mut members,
        start,
        marks,
    } = open_union;
    members.push(PreTree::new(start, end, marks, core))?;
    Ok(TypeTree::new(first, end, lead, members))
}

/// A base of this form is read, up to the token at this place.
#[tactic(auto, using(crate::proofs::Pushes::nothings))]
pub fn based(alloc: Global, open_union: OpenUnion, first: usize, end: usize, form: BaseForm) -> Mode
    ensures { mode_view result ≡ after_base (open_view open_union) (base first end (form_view form)) no_place }
{
    Mode::AfterBase(Based {
        open: open_union,
        base: BaseTree::new(first, end, form),
        brackets: List::new(alloc),
    })
}

/// The token after a parameter.
fn after_param(can: bool, group: Group, token: &TokenKind) -> Turn
    ensures { Gives result (λ k. param_step can k (open_view group.open) group.first (params_view group.params) token.now) }
{
    match token {
        TokenKind::Punct(Punct::CloseParen) => Turn::Go(Mode::Closed(group, false)),
        TokenKind::Punct(Punct::Comma) => {
            if can {
                Turn::Go(Mode::GroupStart(group))
            } else {
                Turn::Fault
            }
        }
        _ => Turn::Fault,
    }
}

/// The token after a type of a tuple.
#[tactic(auto, using(crate::proofs::Pushes::nothings))]
fn after_type(alloc: Global, at: usize, tuple: Tuple, token: &TokenKind) -> Turn
    requires { at < usize.MAX }
    ensures { Gives result (λ k. element_step at k (open_view tuple.open) tuple.first (types_view tuple.types) token.now) }
{
    match token {
        TokenKind::Punct(Punct::CloseBracket) => {
            let Tuple { open, first, types } = tuple;
            let form = BaseForm::tuple(types, false);
            Turn::Go(based(alloc, open, first, at + 1, form))
        }
        TokenKind::Punct(Punct::Comma) => Turn::Go(Mode::TupleStart(tuple)),
        _ => Turn::Fault,
    }
}

/// The token after an array's type.
#[tactic(auto, using(crate::proofs::Pushes::nothings))]
fn after_element(
    alloc: Global,
    at: usize,
    array: ArrayName,
    element: TypeTree,
    token: &TokenKind,
) -> Result<Turn, NoMemory>
    requires { at < usize.MAX }
    ensures { IfOk result (λ turn. Gives turn (λ k. argument_step at k (open_view array.open) array.first array.read_only (type_view element) token.now)) }
{
    match token {
        TokenKind::Punct(Punct::GreaterThan) => {
            let ArrayName {
                open,
                first,
                read_only,
            } = array;
            let form = BaseForm::array(alloc, read_only, element)?;
            Ok(Turn::Go(based(alloc, open, first, at + 1, form)))
        }
        _ => Ok(Turn::Fault),
    }
}

/// The token after a property.
#[tactic(auto, using(crate::proofs::Pushes::nothings))]
fn after_prop(alloc: Global, at: usize, object: Object, token: &TokenKind) -> Turn
    requires { at < usize.MAX }
    ensures { Gives result (λ k. row_step at k (open_view object.open) object.first (props_view object.props) token.now) }
{
    match token {
        TokenKind::Punct(Punct::CloseBrace) => {
            let Object { open, first, props } = object;
            let form = BaseForm::object(props, Ending::Bare);
            Turn::Go(based(alloc, open, first, at + 1, form))
        }
        TokenKind::Punct(Punct::Comma) => Turn::Go(Mode::ObjectStart(object)),
        _ => Turn::Fault,
    }
}

/// A type without a name joins the parameters of a group.
#[tactic(auto, using(crate::proofs::Pushes::pushes))]
fn add_plain(can: bool, mut group: Group, ty: TypeTree, token: &TokenKind) -> Result<Turn, NoMemory>
    ensures { IfOk result (λ turn. Gives turn (λ k. param_step can k (open_view group.open) group.first (more_param (params_view group.params) (plain (type_view ty))) token.now)) }
{
    group.params.push(ParamTree::plain(ty))?;
    Ok(after_param(can, group, token))
}

/// A type joins the parameters of a group under its name.
#[tactic(auto, using(crate::proofs::Pushes::pushes))]
fn add_named(
    can: bool,
    at: usize,
    named: GroupName,
    optional: bool,
    ty: TypeTree,
    token: &TokenKind,
) -> Result<Turn, NoMemory>
    ensures { IfOk result (λ turn. Gives turn (λ k. param_step can k (open_view named.group.open) named.group.first (more_param (params_view named.group.params) (named_param named.start at named.name optional (type_view ty))) token.now)) }
{
    let GroupName {
        mut group,
        start,
        name,
    } = named;
    group
        .params
        .push(ParamTree::named(start, at, name, optional, ty))?;
    Ok(after_param(can, group, token))
}

/// A type joins a tuple.
#[tactic(auto, using(crate::proofs::Pushes::pushes))]
fn add_element(
    alloc: Global,
    at: usize,
    mut tuple: Tuple,
    ty: TypeTree,
    token: &TokenKind,
) -> Result<Turn, NoMemory>
    requires { at < usize.MAX }
    ensures { IfOk result (λ turn. Gives turn (λ k. element_step at k (open_view tuple.open) tuple.first (more_type (types_view tuple.types) (type_view ty)) token.now)) }
{
    tuple.types.push(ty)?;
    Ok(after_type(alloc, at, tuple, token))
}

/// A type joins an object under its key.
#[tactic(auto, using(crate::proofs::Pushes::pushes))]
fn add_prop(
    alloc: Global,
    at: usize,
    keyed: Keyed,
    optional: bool,
    ty: TypeTree,
    token: &TokenKind,
) -> Result<Turn, NoMemory>
    requires { at < usize.MAX }
    ensures { IfOk result (λ turn. Gives turn (λ k. row_step at k (open_view keyed.signed.object.open) keyed.signed.object.first (more_prop (props_view keyed.signed.object.props) (prop keyed.signed.start at (sign_view keyed.signed.sign) (key_view keyed.key) optional (type_view ty))) token.now)) }
{
    let Keyed { signed, key } = keyed;
    let Signed {
        mut object,
        start,
        sign,
    } = signed;
    object
        .props
        .push(PropTree::new(start, at, sign, key, optional, ty))?;
    Ok(after_prop(alloc, at, object, token))
}

/// A function type is whole with its result, and ends the union that it stands in.
fn close_function(
    alloc: Global,
    at: usize,
    group: Group,
    comma: bool,
    output: TypeTree,
) -> Result<TypeTree, NoMemory>
    ensures { IfOk result (λ t. type_view t ≡ finish at (open_view group.open) (fun group.first at (params_view group.params) comma (type_view output))) }
{
    let Group {
        open,
        first,
        params,
    } = group;
    let core = CoreTree::function(alloc, first, at, params, comma, output)?;
    finish_union(open, at, core)
}

/// A type is whole, and the token at this place comes after it.
#[tactic(auto, using(crate::proofs::Pushes::pushes))]
pub fn give(
    alloc: Global,
    plain: bool,
    at: usize,
    stack: &mut Vec<Frame>,
    whole: TypeTree,
    token: &TokenKind,
) -> Result<Turn, NoMemory>
    requires { at < usize.MAX }
    ensures { IfOk result (λ turn. turn_view stack.new.items turn ≡ give_step plain at (stack_view stack.old.items) (type_view whole) token.now) }
{
    let mut ty = whole;
    'outwards: while let Some(frame) = stack.pop() {
        match frame {
            Frame::Output(group, comma) => ty = close_function(alloc, at, group, comma, ty)?,
            Frame::Array(array) => return after_element(alloc, at, array, ty, token),
            Frame::Group(group) => return add_plain(can_fun(plain, stack), group, ty, token),
            Frame::Named(named, optional) => {
                return add_named(can_fun(plain, stack), at, named, optional, ty, token);
            }
            Frame::Tuple(tuple) => return add_element(alloc, at, tuple, ty, token),
            Frame::Prop(keyed, optional) => {
                return add_prop(alloc, at, keyed, optional, ty, token);
            }
        }
    }
    Ok(Turn::Done(ty))
}
