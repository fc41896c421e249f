//! Elements of each member.
ghost use Rattle.std.specs.Prelude.{◌≡◌, IfOk};
ghost use Rattle.std.specs.Fmt.{decimal};
ghost use Rattle.std.specs.Option.{option_copied};
ghost use Rattle.std.specs.Str.{bytes_eq};
ghost use Rattle.type_values.specs.declared.types.FlowType.{out-FlowType};
ghost use Rattle.type_values.specs.declared.types.FlowType.TheOpen as level;
ghost use Rattle.check_world.specs.View.{world_view};
ghost use Rattle.typing.specs.Members.{element_at, tuple_element, element_read, index_read, index_written, target_of_index};
ghost use Rattle.member_steps.specs.View.{step_view, part_view};

use crate::part::Part;
use crate::property::{read_property, target_of_prop, write_property};
use crate::step::Step;
use check_values::Code;
use check_world::World;
use flow_values::NoMemory;
use type_terms::join;
use type_values::FlowType;

// Whether a spelling is that of a number, in decimal digits.
#[tactic(auto, using(crate::proofs::Spelling::none_spelt, crate::proofs::Spelling::digit_spelt, crate::proofs::Spelling::number_spelt))]
fn spells(spelling: &[u8], number: usize) -> bool
    ensures { result ≡ bytes_eq (decimal number) spelling.now }
{
    let Some((last, front)) = spelling.split_last() else {
        return false;
    };
    if *last != b'0' + (number % 10) as u8 {
        return false;
    }
    if number < 10 {
        return front.is_empty();
    }
    spells(front, number / 10)
}

// The member of a tuple whose place has this spelling.
fn element_at<'t>(spelling: &[u8], all: &'t [FlowType]) -> Option<&'t FlowType>
    ensures { option_copied result ≡ element_at spelling.now 0 all.now }
{
    for i in 0..all.len() {
        if spells(spelling, i) {
            return Some(&all[i]);
        }
    }
    None
}

// A literal in range gives the member, another type below `number` the join of all.
fn tuple_element(
    world: &World<'_>,
    all: &[FlowType],
    index: &FlowType,
) -> Result<Option<FlowType>, NoMemory>
    ensures { IfOk result (λ element. element ≡ tuple_element (world_view world.now) all.now index.now (out-FlowType index.now)) }
{
    if let FlowType::NumLit(spelling) = index {
        if let Some(t) = element_at(spelling.as_bytes(), all) {
            return Ok(Some(t.share()?));
        }
    }
    if world.is_below(index, &FlowType::Number)? {
        return Ok(Some(join(world.alloc, all)?));
    }
    Ok(None)
}

// An array asks a number.
fn read_element(
    world: &World<'_>,
    part: &Part<'_>,
    index: &FlowType,
    element: &FlowType,
) -> Result<Step, NoMemory>
    ensures { IfOk result (λ step. step_view step ≡ element_read (world_view world.now) (part_view part.now) index.now element.now) }
{
    let mut step = Step::gives(world.alloc, element.share()?);
    if !world.is_below(index, &FlowType::Number)? {
        let details = world.two_types(index, &FlowType::Number)?;
        let fault = world.fault(part.first, part.end, Code::IncompatibleType, details);
        step.faults.push(fault)?;
    }
    Ok(step)
}

// The element of a tuple, or a fault at the index where there is none.
fn read_tuple(
    world: &World<'_>,
    part: &Part<'_>,
    index: &FlowType,
    all: &[FlowType],
) -> Result<Step, NoMemory>
    ensures { IfOk result (λ step. step_view step ≡ index_read (world_view world.now) (part_view part.now) index.now (level.Tuple all.now)) }
{
    match tuple_element(world, all, index)? {
        Some(t) => Ok(Step::gives(world.alloc, t)),
        None => part.fails(world, Code::InvalidIndex),
    }
}

/// Reading the element of an index of some type.
///
/// # Errors
///
/// `NoMemory` where memory is refused.
pub fn read_index(
    world: &World<'_>,
    part: &Part<'_>,
    index: &FlowType,
    member: &FlowType,
) -> Result<Step, NoMemory>
    ensures { IfOk result (λ step. step_view step ≡ index_read (world_view world.now) (part_view part.now) index.now (out-FlowType member.now)) }
{
    match member {
        FlowType::Any => Ok(Step::gives(world.alloc, FlowType::Any)),
        FlowType::Array(element) | FlowType::ReadArray(element) => {
            read_element(world, part, index, element.get())
        }
        FlowType::Tuple(all) => read_tuple(world, part, index, all.as_slice()),
        FlowType::Object { .. } => match index {
            FlowType::StrLit(key) => {
                read_property(world, &part.quoted(key), key.as_bytes(), member)
            }
            _ => part.fails(world, Code::InvalidIndex),
        },
        FlowType::Null | FlowType::Void | FlowType::Mixed => part.object_fails(world),
        _ => part.fails(world, Code::InvalidIndex),
    }
}

/// Writing the element of an index of some type.
///
/// # Errors
///
/// `NoMemory` where memory is refused.
pub fn write_index(
    world: &World<'_>,
    part: &Part<'_>,
    index: &FlowType,
    member: &FlowType,
) -> Result<Step, NoMemory>
    ensures { IfOk result (λ step. step_view step ≡ index_written (world_view world.now) (part_view part.now) index.now (out-FlowType member.now)) }
{
    match member {
        FlowType::ReadArray(element) => {
            let mut step = read_element(world, part, index, element.get())?;
            step.faults
                .append(part.fails(world, Code::CannotWrite)?.faults)?;
            Ok(step)
        }
        FlowType::Object { .. } => match index {
            FlowType::StrLit(key) => {
                write_property(world, &part.quoted(key), key.as_bytes(), member)
            }
            _ => part.fails(world, Code::InvalidIndex),
        },
        _ => read_index(world, part, index, member),
    }
}

/// What a member that has such an element takes.
///
/// # Errors
///
/// `NoMemory` where memory is refused.
pub fn target_of_index(
    world: &World<'_>,
    index: &FlowType,
    member: &FlowType,
) -> Result<Option<FlowType>, NoMemory>
    ensures { IfOk result (λ target. target ≡ target_of_index (world_view world.now) index.now (out-FlowType member.now)) }
{
    match member {
        FlowType::Array(element) | FlowType::ReadArray(element) => {
            Ok(Some(element.get().share()?))
        }
        FlowType::Tuple(all) => tuple_element(world, all.as_slice(), index),
        _ => match index {
            FlowType::StrLit(key) => target_of_prop(world, key.as_bytes(), member),
            _ => Ok(None),
        },
    }
}
