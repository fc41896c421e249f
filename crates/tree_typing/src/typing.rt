// The types of each form of a tree, where `names` says what names stand for.
#![tactic(auto, unfolding(type_tree::specs::View::type_view, type_tree::specs::View::pre_view, type_tree::specs::View::core_view, type_tree::specs::View::base_view, type_tree::specs::View::form_view, type_tree::specs::View::param_view, type_tree::specs::View::prop_view, type_tree::specs::View::places_view, type_tree::specs::View::pres_view, type_tree::specs::View::params_view, type_tree::specs::View::types_view, type_tree::specs::View::props_view))]

ghost use Rattle.std.specs.Prelude.{◌≡◌, IfOk};
ghost use Rattle.tree_types.specs.TreeTypes.{union_of, maybe, array_of, variance_of, key_text, is_exact, type_of, types_of_members, type_of_member, type_of_core, type_of_base, type_of_form, types_of, params_of, param_of, props_of, prop_of};
ghost use Rattle.type_tree.specs.View.{sign_view, ending_view, key_view, type_view, pre_view, core_view, base_view, form_view, param_view, prop_view, places_view, pres_view, params_view, types_view, props_view};

use crate::keys::{key_text, last_of_each};
use crate::names::{Names, type_of_word};
use flow_values::{List, NoMemory, Shared};
use std::alloc::Global;
use type_tree::{
    BaseForm, BaseTree, CoreTree, Ending, FunctionType, NamedParam, ParamTree, PostType, PreTree,
    PropTree, Sign, TypeTree,
};
use type_values::{FlowProp, FlowType, Param, Variance};

/// The type that a tree stands for, where `names` says what its names stand for.
///
/// # Errors
///
/// `NoMemory` where memory is refused.
#[cycle(typing)]
pub fn type_of_tree<N: Names>(
    alloc: Global,
    names: &N,
    tree: &TypeTree,
) -> Result<FlowType, NoMemory>
    ensures { IfOk result (λ t. t ≡ type_of (N.stands_for names.now) (type_view tree.now)) }
{
    let types = member_types(alloc, names, tree.members.as_slice())?;
    union_of(alloc, types)
}

// The union of types; of one type it is that one.
#[tactic(auto, using(crate::proofs::TypeLists::union_of_more))]
fn union_of(alloc: Global, mut types: List<FlowType>) -> Result<FlowType, NoMemory>
    ensures { IfOk result (λ t. t ≡ union_of types) }
{
    if let Some(last) = types.pop() {
        if types.is_empty() {
            return Ok(last);
        }
        types.push(last)?;
    }
    Ok(FlowType::Union(Shared::new(alloc, types)?))
}

#[cycle(typing)]
fn member_types<N: Names>(
    alloc: Global,
    names: &N,
    members: &[PreTree],
) -> Result<List<FlowType>, NoMemory>
    ensures { IfOk result (λ types. types ≡ types_of_members (N.stands_for names.now) (pres_view members.now)) }
{
    let mut types = List::new(alloc);
    for i in 0..members.len() {
        types.push(member_type(alloc, names, &members[i])?)?;
    }
    Ok(types)
}

#[cycle(typing)]
fn member_type<N: Names>(alloc: Global, names: &N, member: &PreTree) -> Result<FlowType, NoMemory>
    ensures { IfOk result (λ t. t ≡ type_of_member (N.stands_for names.now) (pre_view member.now)) }
{
    let inner = core_type(alloc, names, &member.core)?;
    maybe(alloc, inner, member.marks.as_slice())
}

// A type with `?` before it, for each mark.
#[tactic(auto, using(crate::proofs::TypeLists::places_more), unfolding(type_tree::specs::View::places_view))]
fn maybe(alloc: Global, inner: FlowType, marks: &[usize]) -> Result<FlowType, NoMemory>
    ensures { IfOk result (λ t. t ≡ maybe (places_view marks.now) inner) }
{
    let mut t = inner;
    for _i in 0..marks.len() {
        let mut parts = List::new(alloc);
        parts.push(FlowType::Null)?;
        parts.push(FlowType::Void)?;
        parts.push(t)?;
        t = FlowType::Union(Shared::new(alloc, parts)?);
    }
    Ok(t)
}

// Arrays of a type, for each pair of brackets.
#[tactic(auto, using(crate::proofs::TypeLists::places_more), unfolding(type_tree::specs::View::places_view))]
fn array_of(alloc: Global, inner: FlowType, pairs: &[usize]) -> Result<FlowType, NoMemory>
    ensures { IfOk result (λ t. t ≡ array_of (places_view pairs.now) inner) }
{
    let mut t = inner;
    for _i in 0..pairs.len() {
        t = FlowType::Array(Shared::new(alloc, t)?);
    }
    Ok(t)
}

#[cycle(typing)]
fn core_type<N: Names>(alloc: Global, names: &N, core: &CoreTree) -> Result<FlowType, NoMemory>
    ensures { IfOk result (λ t. t ≡ type_of_core (N.stands_for names.now) (core_view core.now)) }
{
    match core {
        CoreTree::Function(function) => function_type(alloc, names, function),
        CoreTree::Post(post) => post_type(alloc, names, post),
    }
}

#[cycle(typing)]
fn function_type<N: Names>(
    alloc: Global,
    names: &N,
    function: &FunctionType,
) -> Result<FlowType, NoMemory>
    ensures { IfOk result (λ t. t ≡ type_of_core (N.stands_for names.now) (core_view (CoreTree.Function function.now))) }
{
    let params = param_types(alloc, names, function.params.as_slice())?;
    let result = type_of_tree(alloc, names, function.result.get())?;
    Ok(FlowType::Function {
        params: Shared::new(alloc, params)?,
        result: Shared::new(alloc, result)?,
    })
}

#[cycle(typing)]
fn post_type<N: Names>(alloc: Global, names: &N, post: &PostType) -> Result<FlowType, NoMemory>
    ensures { IfOk result (λ t. t ≡ type_of_core (N.stands_for names.now) (core_view (CoreTree.Post post.now))) }
{
    let inner = base_type(alloc, names, &post.base)?;
    array_of(alloc, inner, post.brackets.as_slice())
}

#[cycle(typing)]
fn base_type<N: Names>(alloc: Global, names: &N, base: &BaseTree) -> Result<FlowType, NoMemory>
    ensures { IfOk result (λ t. t ≡ type_of_base (N.stands_for names.now) (base_view base.now)) }
{
    form_type(alloc, names, &base.form)
}

#[cycle(typing)]
fn form_type<N: Names>(alloc: Global, names: &N, form: &BaseForm) -> Result<FlowType, NoMemory>
    ensures { IfOk result (λ t. t ≡ type_of_form (N.stands_for names.now) (form_view form.now)) }
{
    match form {
        BaseForm::Name(name) => type_of_word(alloc, names, name),
        BaseForm::Str(value) => Ok(FlowType::StrLit(value.share()?)),
        BaseForm::Number(spelling) => Ok(FlowType::NumLit(spelling.share()?)),
        BaseForm::Null => Ok(FlowType::Null),
        BaseForm::Void => Ok(FlowType::Void),
        BaseForm::Truth(value) => Ok(FlowType::BoolLit(*value)),
        BaseForm::Array { read_only, element } => {
            let element = Shared::new(alloc, type_of_tree(alloc, names, element.get())?)?;
            if *read_only {
                Ok(FlowType::ReadArray(element))
            } else {
                Ok(FlowType::Array(element))
            }
        }
        BaseForm::Paren(inner) => type_of_tree(alloc, names, inner.get()),
        BaseForm::Tuple { types, comma: _ } => {
            let elements = element_types(alloc, names, types.as_slice())?;
            Ok(FlowType::Tuple(Shared::new(alloc, elements)?))
        }
        BaseForm::Object { props, ending } => {
            let all = prop_types(alloc, names, props.as_slice())?;
            let props = last_of_each(alloc, all.as_slice())?;
            Ok(FlowType::Object {
                exact: is_exact(*ending),
                props: Shared::new(alloc, props)?,
            })
        }
    }
}

// Objects of a type that ends in `...` may have further properties.
fn is_exact(ending: Ending) -> bool
    ensures { result ≡ is_exact (ending_view ending) }
{
    match ending {
        Ending::Bare | Ending::Comma => true,
        Ending::Dots => false,
    }
}

#[cycle(typing)]
fn element_types<N: Names>(
    alloc: Global,
    names: &N,
    elements: &[TypeTree],
) -> Result<List<FlowType>, NoMemory>
    ensures { IfOk result (λ types. types ≡ types_of (N.stands_for names.now) (types_view elements.now)) }
{
    let mut types = List::new(alloc);
    for i in 0..elements.len() {
        types.push(type_of_tree(alloc, names, &elements[i])?)?;
    }
    Ok(types)
}

#[cycle(typing)]
fn param_types<N: Names>(
    alloc: Global,
    names: &N,
    params: &[ParamTree],
) -> Result<List<Param>, NoMemory>
    ensures { IfOk result (λ types. types ≡ params_of (N.stands_for names.now) (params_view params.now)) }
{
    let mut types = List::new(alloc);
    for i in 0..params.len() {
        types.push(param_type(alloc, names, &params[i])?)?;
    }
    Ok(types)
}

#[cycle(typing)]
fn param_type<N: Names>(alloc: Global, names: &N, param: &ParamTree) -> Result<Param, NoMemory>
    ensures { IfOk result (λ p. p ≡ param_of (N.stands_for names.now) (param_view param.now)) }
{
    match param {
        ParamTree::Plain(tree) => Ok(Param {
            optional: false,
            ty: type_of_tree(alloc, names, tree)?,
        }),
        ParamTree::Named(named) => named_param(alloc, names, named),
    }
}

#[cycle(typing)]
fn named_param<N: Names>(alloc: Global, names: &N, param: &NamedParam) -> Result<Param, NoMemory>
    ensures { IfOk result (λ p. p ≡ param_of (N.stands_for names.now) (param_view (ParamTree.Named param.now))) }
{
    Ok(Param {
        optional: param.optional,
        ty: type_of_tree(alloc, names, &param.ty)?,
    })
}

#[cycle(typing)]
fn prop_types<N: Names>(
    alloc: Global,
    names: &N,
    props: &[PropTree],
) -> Result<List<FlowProp>, NoMemory>
    ensures { IfOk result (λ types. types ≡ props_of (N.stands_for names.now) (props_view props.now)) }
{
    let mut types = List::new(alloc);
    for i in 0..props.len() {
        types.push(prop_type(alloc, names, &props[i])?)?;
    }
    Ok(types)
}

#[cycle(typing)]
fn prop_type<N: Names>(alloc: Global, names: &N, prop: &PropTree) -> Result<FlowProp, NoMemory>
    ensures { IfOk result (λ p. p ≡ prop_of (N.stands_for names.now) (prop_view prop.now)) }
{
    let ty = type_of_tree(alloc, names, &prop.ty)?;
    Ok(FlowProp {
        key: key_text(&prop.key).share()?,
        variance: variance_of(prop.sign),
        optional: prop.optional,
        ty,
    })
}

fn variance_of(sign: Sign) -> Variance
    ensures { result ≡ variance_of (sign_view sign) }
{
    match sign {
        Sign::Unsigned => Variance::Both,
        Sign::Plus => Variance::Read,
        Sign::Minus => Variance::Write,
    }
}
