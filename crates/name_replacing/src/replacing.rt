ghost use Rattle.std.specs.Prelude.{◌≡◌, List, ℕ, map, IfOk, unwrap_or};
ghost use Rattle.type_names.specs.Names.{replaced};
ghost use Rattle.type_values.specs.declared.types.FlowType.{FlowType};
ghost use Rattle.type_values.specs.declared.types.FlowType as made;
ghost use Rattle.name_replacing.specs.Replacing.{type_by, prop_by, param_by};

use crate::parts::{one_more, or_shared};
use flow_values::{List, NoMemory, Shared, Text};
use std::alloc::Global;
use type_values::{FlowProp, FlowType, Param};

/// What names stand for in a type.
pub trait Meanings {
    /// The type that each name stands for.
    ghost stands_for: { Self → List ℕ → FlowType };

    /// The type that a name stands for.
    ///
    /// # Errors
    ///
    /// `NoMemory` where memory is refused.
    fn meaning(&self, alloc: Global, name: &Text) -> Result<FlowType, NoMemory>
        ensures { IfOk result (λ t. t ≡ stands_for self.now name.now) };
}

/// A type in which each name, whatever its module, is replaced by what it stands for. Parts without
/// names are shared with `t`, and not made anew.
///
/// # Errors
///
/// `NoMemory` where memory is refused.
pub fn replaced<M: Meanings>(alloc: Global, means: &M, t: &FlowType) -> Result<FlowType, NoMemory>
    ensures { IfOk result (λ r. r ≡ replaced (λ name. M.stands_for means.now name.1) t.now) }
{
    match type_by(alloc, means, t)? {
        Some(new) => Ok(new),
        None => t.share(),
    }
}

// The new type, or `None` where it is the old one, since no name stands in it. Lists and their parts below answer so too.
#[cycle(replacing)]
#[tactic(auto, using(crate::proofs::Levels::of_union, crate::proofs::Levels::of_object, crate::proofs::Levels::of_tuple, crate::proofs::Levels::of_array, crate::proofs::Levels::of_read_array, crate::proofs::Levels::of_function, crate::proofs::Levels::of_name))]
fn type_by<M: Meanings>(
    alloc: Global,
    means: &M,
    t: &FlowType,
) -> Result<Option<FlowType>, NoMemory>
    ensures { IfOk result (λ new. unwrap_or new t.now ≡ type_by (M.stands_for means.now) t.now) }
{
    match t {
        FlowType::Union(all) => match types_by(alloc, means, all.as_slice())? {
            Some(all) => Ok(Some(FlowType::Union(Shared::new(alloc, all)?))),
            None => Ok(None),
        },
        FlowType::Object { exact, props } => match props_by(alloc, means, props.as_slice())? {
            Some(props) => Ok(Some(FlowType::Object {
                exact: *exact,
                props: Shared::new(alloc, props)?,
            })),
            None => Ok(None),
        },
        FlowType::Tuple(all) => match types_by(alloc, means, all.as_slice())? {
            Some(all) => Ok(Some(FlowType::Tuple(Shared::new(alloc, all)?))),
            None => Ok(None),
        },
        FlowType::Array(element) => match type_by(alloc, means, element.get())? {
            Some(element) => Ok(Some(FlowType::Array(Shared::new(alloc, element)?))),
            None => Ok(None),
        },
        FlowType::ReadArray(element) => match type_by(alloc, means, element.get())? {
            Some(element) => Ok(Some(FlowType::ReadArray(Shared::new(alloc, element)?))),
            None => Ok(None),
        },
        FlowType::Function { params, result } => {
            let new_params = params_by(alloc, means, params.as_slice())?;
            let new_result = type_by(alloc, means, result.get())?;
            function_of(alloc, params, new_params, result, new_result)
        }
        FlowType::Ref { module: _, name } => Ok(Some(means.meaning(alloc, name)?)),
        _ => Ok(None),
    }
}

// A function with what is new of it, or `None` where nothing is.
fn function_of(
    alloc: Global,
    params: &Shared<List<Param>>,
    new_params: Option<List<Param>>,
    answer: &Shared<FlowType>,
    new_answer: Option<FlowType>,
) -> Result<Option<FlowType>, NoMemory>
    ensures { IfOk result (λ new. unwrap_or new (made.Function params.now answer.now) ≡ made.Function (unwrap_or new_params params.now) (unwrap_or new_answer answer.now)) }
{
    if new_params.is_none() && new_answer.is_none() {
        return Ok(None);
    }
    Ok(Some(FlowType::Function {
        params: or_shared(alloc, params, new_params)?,
        result: or_shared(alloc, answer, new_answer)?,
    }))
}

#[cycle(replacing)]
fn types_by<M: Meanings>(
    alloc: Global,
    means: &M,
    all: &[FlowType],
) -> Result<Option<List<FlowType>>, NoMemory>
    ensures { IfOk result (λ new. unwrap_or new all.now ≡ map (type_by (M.stands_for means.now)) all.now) }
{
    let mut types = None;
    for i in 0..all.len() {
        let new = type_by(alloc, means, &all[i])?;
        types = one_more(alloc, all, i, types, new)?;
    }
    Ok(types)
}

#[cycle(replacing)]
fn props_by<M: Meanings>(
    alloc: Global,
    means: &M,
    props: &[FlowProp],
) -> Result<Option<List<FlowProp>>, NoMemory>
    ensures { IfOk result (λ new. unwrap_or new props.now ≡ map (prop_by (M.stands_for means.now)) props.now) }
{
    let mut all = None;
    for i in 0..props.len() {
        let new = prop_by(alloc, means, &props[i])?;
        all = one_more(alloc, props, i, all, new)?;
    }
    Ok(all)
}

#[cycle(replacing)]
#[tactic(auto, using(crate::proofs::Levels::of_prop))]
fn prop_by<M: Meanings>(
    alloc: Global,
    means: &M,
    prop: &FlowProp,
) -> Result<Option<FlowProp>, NoMemory>
    ensures { IfOk result (λ new. unwrap_or new prop.now ≡ prop_by (M.stands_for means.now) prop.now) }
{
    match type_by(alloc, means, &prop.ty)? {
        Some(ty) => Ok(Some(FlowProp {
            key: prop.key.share()?,
            variance: prop.variance,
            optional: prop.optional,
            ty,
        })),
        None => Ok(None),
    }
}

#[cycle(replacing)]
fn params_by<M: Meanings>(
    alloc: Global,
    means: &M,
    params: &[Param],
) -> Result<Option<List<Param>>, NoMemory>
    ensures { IfOk result (λ new. unwrap_or new params.now ≡ map (param_by (M.stands_for means.now)) params.now) }
{
    let mut all = None;
    for i in 0..params.len() {
        let new = param_by(alloc, means, &params[i])?;
        all = one_more(alloc, params, i, all, new)?;
    }
    Ok(all)
}

#[cycle(replacing)]
#[tactic(auto, using(crate::proofs::Levels::of_param))]
fn param_by<M: Meanings>(alloc: Global, means: &M, param: &Param) -> Result<Option<Param>, NoMemory>
    ensures { IfOk result (λ new. unwrap_or new param.now ≡ param_by (M.stands_for means.now) param.now) }
{
    match type_by(alloc, means, &param.ty)? {
        Some(ty) => Ok(Some(Param {
            optional: param.optional,
            ty,
        })),
        None => Ok(None),
    }
}
