//! The types of functions, and the faults of what they are written with.
#![tactic(auto, unfolding(code_tree::specs::Flat::parameter_view, code_tree::specs::Flat::signature_view))]

ghost use Rattle.std.specs.Prelude.{◌≡◌, OnOk, IfOk};
ghost use Rattle.std.specs.Option.{option_map};
ghost use Rattle.check_world.specs.View.{world_view, notes_view};
ghost use Rattle.type_tree.specs.View.{type_view};
ghost use Rattle.code_tree.specs.Flat.{parameter_view, parameters_view, signature_view};
ghost use Rattle.typing.specs.TypeFaults.{annotated};
ghost use Rattle.typing.specs.Functions.{param_type, param_of, params_of, annotation_asked, parameters_read, sig_read, function_type};

use check_values::Code;
use check_world::{Notes, World};
use code_tree::{Parameter, Signature};
use flow_values::{List, NoMemory, Shared};
use type_reads::{read_annotation, read_type};
use type_tree::TypeTree;
use type_values::{FlowType, Param};

/// The type of an annotation, if there is one.
///
/// # Errors
///
/// `NoMemory` where memory is refused.
pub fn annotated(
    world: &World<'_>,
    annotation: &Option<TypeTree>,
) -> Result<Option<FlowType>, NoMemory>
    ensures { IfOk result (λ t. t ≡ annotated (world_view world.now) (option_map type_view annotation.now)) }
{
    match annotation {
        None => Ok(None),
        Some(tree) => Ok(Some(world.written(tree)?)),
    }
}

/// The type of a parameter: without annotation it is `any`.
pub(crate) fn param_type(
    world: &World<'_>,
    annotation: &Option<TypeTree>,
) -> Result<FlowType, NoMemory>
    ensures { IfOk result (λ t. t ≡ param_type (world_view world.now) (option_map type_view annotation.now)) }
{
    Ok(annotated(world, annotation)?.unwrap_or(FlowType::Any))
}

// A parameter in its function's type.
fn param_of(world: &World<'_>, parameter: &Parameter) -> Result<Param, NoMemory>
    ensures { IfOk result (λ p. p ≡ param_of (world_view world.now) (parameter_view parameter.now)) }
{
    Ok(Param {
        optional: parameter.optional,
        ty: param_type(world, &parameter.annotation)?,
    })
}

// The parameters of a function's type.
#[tactic(auto, using(crate::proofs::InOrder::params_none, crate::proofs::InOrder::params_all))]
fn params_of(world: &World<'_>, parameters: &[Parameter]) -> Result<List<Param>, NoMemory>
    ensures { IfOk result (λ ps. ps ≡ params_of (world_view world.now) (parameters_view parameters.now)) }
{
    let mut params = List::new(world.alloc);
    for i in 0..parameters.len() {
        params.push(param_of(world, &parameters[i])?)?;
    }
    Ok(params)
}

/// The type of a function: its result is another type where that has no annotation.
///
/// # Errors
///
/// `NoMemory` where memory is refused.
pub fn function_type(
    world: &World<'_>,
    signature: &Signature,
    otherwise: FlowType,
) -> Result<FlowType, NoMemory>
    ensures { IfOk result (λ t. t ≡ function_type (world_view world.now) (signature_view signature.now) otherwise) }
{
    let params = params_of(world, signature.parameters.as_slice())?;
    let result = annotated(world, &signature.output)?.unwrap_or(otherwise);
    Ok(FlowType::Function {
        params: Shared::new(world.alloc, params)?,
        result: Shared::new(world.alloc, result)?,
    })
}

// A parameter without annotation is a fault at its name.
fn read_parameter(
    world: &World<'_>,
    parameter: &Parameter,
    notes: &mut Notes,
) -> Result<(), NoMemory>
    ensures { OnOk result (notes_view notes.new ≡ annotation_asked (world_view world.now) parameter.now.first parameter.now.name (option_map type_view parameter.now.annotation) (notes_view notes.old)) }
{
    match &parameter.annotation {
        Some(tree) => read_type(world, tree, notes),
        None => {
            let name = parameter.name.share()?;
            notes.add_fault(world.token_fault(parameter.first, Code::MissingLocalAnnot, name))
        }
    }
}

// The annotations of parameters, from left to right.
#[tactic(auto, using(crate::proofs::InOrder::read_none, crate::proofs::InOrder::read_all))]
fn read_parameters(
    world: &World<'_>,
    parameters: &[Parameter],
    notes: &mut Notes,
) -> Result<(), NoMemory>
    ensures { OnOk result (notes_view notes.new ≡ parameters_read (world_view world.now) (parameters_view parameters.now) (notes_view notes.old)) }
{
    for i in 0..parameters.len() {
        read_parameter(world, &parameters[i], notes)?;
    }
    Ok(())
}

/// Reads the annotations of a function's parameters and of its result, from left to right. A parameter
/// without one is a fault at its name.
///
/// # Errors
///
/// `NoMemory` where memory is refused.
pub fn read_signature(
    world: &World<'_>,
    signature: &Signature,
    notes: &mut Notes,
) -> Result<(), NoMemory>
    ensures { OnOk result (notes_view notes.new ≡ sig_read (world_view world.now) (signature_view signature.now) (notes_view notes.old)) }
{
    read_parameters(world, signature.parameters.as_slice(), notes)?;
    read_annotation(world, &signature.output, notes)
}
