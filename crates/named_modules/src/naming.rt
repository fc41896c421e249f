//! The modules that types and signatures name, one after the other.
#![tactic(auto, using(crate::proofs::Parts::type_parts))]

ghost use Rattle.std.specs.Prelude.{◌≡◌, ◌++◌, ◌∷◌, [], OnOk};
ghost use Rattle.type_values.specs.declared.types.FlowProp.{out-FlowProp};
ghost use Rattle.type_values.specs.declared.types.Param.{out-Param};
ghost use Rattle.std.specs.List.{flat_map};
ghost use Rattle.merged_signatures.specs.Reach.{paths_in, paths_of_export, paths_named};

use check_values::{Export, Sig};
use flow_values::{List, NoMemory, Path, Text};
use type_values::{FlowProp, FlowType, Param};

// Adds a module.
fn add_path(path: &Path, out: &mut List<Path>) -> Result<(), NoMemory>
    ensures { OnOk result (out.new ≡ out.old ++ path.now ∷ []) }
{
    out.push(path.share()?)
}

/// Adds the modules of the names in a type.
#[cycle(walking)]
fn add_type(t: &FlowType, out: &mut List<Path>) -> Result<(), NoMemory>
    ensures { OnOk result (out.new ≡ out.old ++ (paths_in t.now)) }
{
    match t {
        FlowType::Union(all) | FlowType::Tuple(all) => add_types(all.as_slice(), out),
        FlowType::Object { exact: _, props } => add_props(props.as_slice(), out),
        FlowType::Array(element) | FlowType::ReadArray(element) => { add_type(element.get(), out) }
        FlowType::Function { params, result } => {
            add_params(params.as_slice(), out)?;
            add_type(result.get(), out)?;
            Ok(())
        }
        FlowType::Ref { module, name: _ } => add_path(module, out),
        FlowType::Any
        | FlowType::Mixed
        | FlowType::Empty
        | FlowType::Number
        | FlowType::Str
        | FlowType::Boolean
        | FlowType::Null
        | FlowType::Void
        | FlowType::StrLit(_)
        | FlowType::NumLit(_)
        | FlowType::BoolLit(_) => Ok(()),
    }
}

#[cycle(walking)]
fn add_types(all: &[FlowType], out: &mut List<Path>) -> Result<(), NoMemory>
    ensures { OnOk result (out.new ≡ out.old ++ (flat_map paths_in all.now)) }
{
    for i in 0..all.len() {
        add_type(&all[i], out)?;
    }
    Ok(())
}

#[cycle(walking)]
fn add_props(all: &[FlowProp], out: &mut List<Path>) -> Result<(), NoMemory>
    ensures { OnOk result (out.new ≡ out.old ++ (flat_map (λ p. paths_in (out-FlowProp p).ty) all.now)) }
{
    for i in 0..all.len() {
        add_type(&all[i].ty, out)?;
    }
    Ok(())
}

#[cycle(walking)]
fn add_params(all: &[Param], out: &mut List<Path>) -> Result<(), NoMemory>
    ensures { OnOk result (out.new ≡ out.old ++ (flat_map (λ p. paths_in (out-Param p).ty) all.now)) }
{
    for i in 0..all.len() {
        add_type(&all[i].ty, out)?;
    }
    Ok(())
}

// Adds the modules that an export names.
fn add_export(export: &Export, out: &mut List<Path>) -> Result<(), NoMemory>
    ensures { OnOk result (out.new ≡ out.old ++ (paths_of_export export.now)) }
{
    match export {
        Export::Value(t) => add_type(t, out),
        Export::Alias { module, name: _ } => add_path(module, out),
        Export::Unknown | Export::Cyclic => Ok(()),
    }
}

fn add_exports(all: &[(Text, Export)], out: &mut List<Path>) -> Result<(), NoMemory>
    ensures { OnOk result (out.new ≡ out.old ++ (flat_map (λ row. paths_of_export row.1) all.now)) }
{
    for i in 0..all.len() {
        add_export(&all[i].1, out)?;
    }
    Ok(())
}

fn add_aliases(all: &[(Text, FlowType)], out: &mut List<Path>) -> Result<(), NoMemory>
    ensures { OnOk result (out.new ≡ out.old ++ (flat_map (λ row. paths_in row.1) all.now)) }
{
    for i in 0..all.len() {
        add_type(&all[i].1, out)?;
    }
    Ok(())
}

/// Adds the modules that a signature names.
pub fn add_named(sig: &Sig, out: &mut List<Path>) -> Result<(), NoMemory>
    ensures { OnOk result (out.new ≡ out.old ++ (paths_named sig.now)) }
{
    add_exports(sig.exports.as_slice(), out)?;
    add_aliases(sig.aliases.as_slice(), out)
}
