//! Properties of each member.
ghost use Rattle.std.specs.Prelude.{◌≡◌, IfOk};
ghost use Rattle.std.specs.Option.{option_copied};
ghost use Rattle.type_values.specs.declared.types.FlowType.{out-FlowType};
ghost use Rattle.flow_facts.specs.Properties.{prop_of, read_type};
ghost use Rattle.check_world.specs.View.{world_view};
ghost use Rattle.typing.specs.Members.{length_read, read_of_prop, property_read, write_of_prop, property_written, target_of_prop};
ghost use Rattle.member_steps.specs.View.{step_view, part_view};

use crate::part::Part;
use crate::step::Step;
use check_values::Code;
use check_world::World;
use flow_values::NoMemory;
use type_terms::eff;
use type_values::{FlowProp, FlowType, Variance};

/// The first property with a key.
pub fn prop_of<'t>(key: &[u8], props: &'t [FlowProp]) -> Option<&'t FlowProp>
    ensures { option_copied result ≡ prop_of key.now props.now }
{
    for i in 0..props.len() {
        if props[i].key.as_bytes() == key {
            return Some(&props[i]);
        }
    }
    None
}

// Arrays, tuples and strings have a `length`, and no other property.
fn read_length(world: &World<'_>, part: &Part<'_>, key: &[u8]) -> Result<Step, NoMemory>
    ensures { IfOk result (λ step. step_view step ≡ length_read (world_view world.now) (part_view part.now) key.now) }
{
    if key == b"length".as_slice() {
        return Ok(Step::gives(world.alloc, FlowType::Number));
    }
    part.fails(world, Code::PropMissing)
}

// A property of an object, if it has one.
fn read_of_prop(
    world: &World<'_>,
    part: &Part<'_>,
    prop: Option<&FlowProp>,
) -> Result<Step, NoMemory>
    ensures { IfOk result (λ step. step_view step ≡ read_of_prop (world_view world.now) (part_view part.now) (option_copied prop.entry)) }
{
    match prop {
        None => part.fails(world, Code::PropMissing),
        Some(prop) => match prop.variance {
            Variance::Write => part.fails(world, Code::CannotRead),
            Variance::Both | Variance::Read => {
                let ty = eff(world.alloc, prop.optional, &prop.ty)?;
                Ok(Step::gives(world.alloc, ty))
            }
        },
    }
}

/// Reading the property of a key.
///
/// # Errors
///
/// `NoMemory` where memory is refused.
pub fn read_property(
    world: &World<'_>,
    part: &Part<'_>,
    key: &[u8],
    member: &FlowType,
) -> Result<Step, NoMemory>
    ensures { IfOk result (λ step. step_view step ≡ property_read (world_view world.now) (part_view part.now) key.now (out-FlowType member.now)) }
{
    match member {
        FlowType::Any => Ok(Step::gives(world.alloc, FlowType::Any)),
        FlowType::Object { exact: _, props } => {
            read_of_prop(world, part, prop_of(key, props.as_slice()))
        }
        FlowType::Array(_)
        | FlowType::ReadArray(_)
        | FlowType::Tuple(_)
        | FlowType::Str
        | FlowType::StrLit(_) => read_length(world, part, key),
        FlowType::Null | FlowType::Void | FlowType::Mixed => part.object_fails(world),
        _ => part.fails(world, Code::PropMissing),
    }
}

// A property of an object that is written, if it has one.
fn write_of_prop(
    world: &World<'_>,
    part: &Part<'_>,
    prop: Option<&FlowProp>,
) -> Result<Step, NoMemory>
    ensures { IfOk result (λ step. step_view step ≡ write_of_prop (world_view world.now) (part_view part.now) (option_copied prop.entry)) }
{
    match prop {
        None => part.fails(world, Code::PropMissing),
        Some(prop) => match prop.variance {
            Variance::Read => part.fails(world, Code::CannotWrite),
            Variance::Both | Variance::Write => {
                let ty = eff(world.alloc, prop.optional, &prop.ty)?;
                Ok(Step::gives(world.alloc, ty))
            }
        },
    }
}

/// Writing the property of a key.
///
/// # Errors
///
/// `NoMemory` where memory is refused.
pub fn write_property(
    world: &World<'_>,
    part: &Part<'_>,
    key: &[u8],
    member: &FlowType,
) -> Result<Step, NoMemory>
    ensures { IfOk result (λ step. step_view step ≡ property_written (world_view world.now) (part_view part.now) key.now (out-FlowType member.now)) }
{
    match member {
        FlowType::Object { exact: _, props } => {
            write_of_prop(world, part, prop_of(key, props.as_slice()))
        }
        FlowType::Array(_)
        | FlowType::ReadArray(_)
        | FlowType::Tuple(_)
        | FlowType::Str
        | FlowType::StrLit(_) => part.fails(world, Code::CannotWrite),
        _ => read_property(world, part, key, member),
    }
}

/// What a member that is an object with the property takes.
///
/// # Errors
///
/// `NoMemory` where memory is refused.
pub fn target_of_prop(
    world: &World<'_>,
    key: &[u8],
    member: &FlowType,
) -> Result<Option<FlowType>, NoMemory>
    ensures { IfOk result (λ target. target ≡ target_of_prop key.now (out-FlowType member.now)) }
{
    let FlowType::Object { exact: _, props } = member else {
        return Ok(None);
    };
    match prop_of(key, props.as_slice()) {
        None => Ok(None),
        Some(prop) => Ok(Some(eff(world.alloc, prop.optional, &prop.ty)?)),
    }
}
