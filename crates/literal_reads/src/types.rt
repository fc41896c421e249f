//! The types of literals.
ghost use Rattle.std.specs.Prelude.{◌≡◌, IfOk, map};
ghost use Rattle.typing.specs.Objects.{object_type, array_type};

use flow_values::{List, NoMemory, Shared};
use std::alloc::Global;
use tree_typing::last_of_each;
use type_terms::{join, widen};
use type_values::{FlowProp, FlowType};

/// The type of an object literal with these properties.
///
/// # Errors
///
/// `NoMemory` where memory is refused.
pub fn object_type(alloc: Global, props: &[FlowProp]) -> Result<FlowType, NoMemory>
    ensures { IfOk result (λ t. t ≡ object_type props.now) }
{
    let props = last_of_each(alloc, props)?;
    Ok(FlowType::Object {
        exact: true,
        props: Shared::new(alloc, props)?,
    })
}

/// The type of an array literal with elements of these types.
///
/// # Errors
///
/// `NoMemory` where memory is refused.
#[tactic(auto, using(crate::proofs::LiteralTypes::of_some))]
pub fn array_type(alloc: Global, types: &[FlowType]) -> Result<FlowType, NoMemory>
    ensures { IfOk result (λ t. t ≡ array_type types.now) }
{
    if types.is_empty() {
        return Ok(FlowType::Array(Shared::new(alloc, FlowType::Any)?));
    }
    let mut wide = List::new(alloc);
    for i in 0..types.len() {
        wide.push(widen(alloc, &types[i])?)?;
    }
    let element = join(alloc, wide.as_slice())?;
    Ok(FlowType::Array(Shared::new(alloc, element)?))
}
