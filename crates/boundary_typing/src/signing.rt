// The types of functions whose parameters and results are all annotated.
#![tactic(auto, unfolding(code_tree::specs::Flat::parameter_view, code_tree::specs::Flat::signature_view))]

ghost use Rattle.std.specs.Prelude.{◌≡◌, IfOk};
ghost use Rattle.local_signatures.specs.Boundary.{boundary_param, boundary_params, boundary_sig};
ghost use Rattle.code_tree.specs.Flat.{parameter_view, parameters_view, signature_view};

use code_tree::{Parameter, Signature};
use flow_values::{List, NoMemory, Shared};
use std::alloc::Global;
use tree_typing::{Names, type_of_tree};
use type_values::{FlowType, Param};

// A parameter, where it has an annotation.
fn boundary_param<N: Names>(
    alloc: Global,
    names: &N,
    parameter: &Parameter,
) -> Result<Option<Param>, NoMemory>
    ensures { IfOk result (λ told. told ≡ boundary_param (N.stands_for names.now) (parameter_view parameter.now)) }
{
    match &parameter.annotation {
        None => Ok(None),
        Some(tree) => {
            let ty = type_of_tree(alloc, names, tree)?;
            let optional = parameter.optional;
            Ok(Some(Param { optional, ty }))
        }
    }
}

// All parameters, where each has an annotation.
#[tactic(auto, using(crate::proofs::Told::parameters_told), unfolding(code_tree::specs::Flat::parameters_view))]
fn boundary_params<N: Names>(
    alloc: Global,
    names: &N,
    parameters: &[Parameter],
) -> Result<Option<List<Param>>, NoMemory>
    ensures { IfOk result (λ told. told ≡ boundary_params (N.stands_for names.now) (parameters_view parameters.now)) }
{
    let mut all = List::new(alloc);
    for i in 0..parameters.len() {
        match boundary_param(alloc, names, &parameters[i])? {
            Some(param) => all.push(param)?,
            None => return Ok(None),
        }
    }
    Ok(Some(all))
}

/// The type of a function, where its parameters and its result all have annotations.
///
/// # Errors
///
/// `NoMemory` where memory is refused.
pub fn function_type<N: Names>(
    alloc: Global,
    names: &N,
    signature: &Signature,
) -> Result<Option<FlowType>, NoMemory>
    ensures { IfOk result (λ told. told ≡ boundary_sig (N.stands_for names.now) (signature_view signature.now)) }
{
    let Some(params) = boundary_params(alloc, names, signature.parameters.as_slice())? else {
        return Ok(None);
    };
    let Some(output) = &signature.output else {
        return Ok(None);
    };
    let result = type_of_tree(alloc, names, output)?;
    Ok(Some(FlowType::Function {
        params: Shared::new(alloc, params)?,
        result: Shared::new(alloc, result)?,
    }))
}
