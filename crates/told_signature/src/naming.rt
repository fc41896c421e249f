// The names in a type.
#![tactic(auto, using(named_rows::proofs::Lists::flat_more, crate::proofs::NamesIn::type_parts))]

ghost use Rattle.std.specs.Prelude.{◌≡◌, ◌++◌, OnOk};
ghost use Rattle.std.specs.List.{flat_map};
ghost use Rattle.local_signatures.specs.LocalSignature.{led_to_by_type};

use flow_values::{NoMemory, Text};
use type_values::{FlowProp, FlowType, Param};

/// Puts the names in a type behind others, from left to right.
#[cycle(naming)]
pub fn add_names(t: &FlowType, names: &mut Vec<Text>) -> Result<(), NoMemory>
    ensures { OnOk result (names.new.items ≡ names.old.items ++ led_to_by_type t.now) }
{
    match t {
        FlowType::Union(all) | FlowType::Tuple(all) => add_all_names(all.as_slice(), names),
        FlowType::Object { props, .. } => add_prop_names(props.as_slice(), names),
        FlowType::Array(element) | FlowType::ReadArray(element) => add_names(element.get(), names),
        FlowType::Function { params, result } => {
            add_param_names(params.as_slice(), names)?;
            add_names(result.get(), names)?;
            Ok(())
        }
        FlowType::Ref { name, .. } => {
            names.push(name.share()?)?;
            Ok(())
        }
        FlowType::Any
        | FlowType::Mixed
        | FlowType::Empty
        | FlowType::Number
        | FlowType::Str
        | FlowType::Boolean
        | FlowType::Null
        | FlowType::Void
        | FlowType::StrLit(_)
        | FlowType::NumLit(_)
        | FlowType::BoolLit(_) => Ok(()),
    }
}

#[cycle(naming)]
fn add_all_names(all: &[FlowType], names: &mut Vec<Text>) -> Result<(), NoMemory>
    ensures { OnOk result (names.new.items ≡ names.old.items ++ flat_map led_to_by_type all.now) }
{
    for i in 0..all.len() {
        add_names(&all[i], names)?;
    }
    Ok(())
}

#[cycle(naming)]
fn add_prop_names(props: &[FlowProp], names: &mut Vec<Text>) -> Result<(), NoMemory>
    ensures { OnOk result (names.new.items ≡ names.old.items ++ flat_map (λ p. led_to_by_type p.ty) props.now) }
{
    for i in 0..props.len() {
        add_prop(&props[i], names)?;
    }
    Ok(())
}

#[cycle(naming)]
fn add_prop(prop: &FlowProp, names: &mut Vec<Text>) -> Result<(), NoMemory>
    ensures { OnOk result (names.new.items ≡ names.old.items ++ led_to_by_type prop.now.ty) }
{
    add_names(&prop.ty, names)
}

#[cycle(naming)]
fn add_param_names(params: &[Param], names: &mut Vec<Text>) -> Result<(), NoMemory>
    ensures { OnOk result (names.new.items ≡ names.old.items ++ flat_map (λ p. led_to_by_type p.ty) params.now) }
{
    for i in 0..params.len() {
        add_param(&params[i], names)?;
    }
    Ok(())
}

#[cycle(naming)]
fn add_param(param: &Param, names: &mut Vec<Text>) -> Result<(), NoMemory>
    ensures { OnOk result (names.new.items ≡ names.old.items ++ led_to_by_type param.now.ty) }
{
    add_names(&param.ty, names)
}
