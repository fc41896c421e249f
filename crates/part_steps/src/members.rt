//! Properties, elements and calls, over the members of a type.
ghost use Rattle.std.specs.Prelude.{◌≡◌, ◌-◌, suc, map, IfOk};
ghost use Rattle.check_world.specs.View.{world_view, levels_seen};
ghost use Rattle.member_steps.specs.View.{steps_view, summed, part_view, arguments_view};
ghost use Rattle.type_terms.specs.Join.{join_of};
ghost use Rattle.type_terms.specs.Show.{brief};
ghost use Rattle.typing.specs.Members.{levels, property_read, index_read};
ghost use Rattle.part_steps.specs.Members.{part_at, call_at};
ghost use Rattle.part_steps.specs.View.{IsGiven, IsCalled};

use crate::tokens::next;
use check_values::Fault;
use check_world::World;
use flow_values::{List, NoMemory, Text};
use member_steps::{
    Argument, Call, Details, Part, Steps, argument_faults, call_member, read_index, read_property,
};
use type_values::FlowType;

/// What the members of a type give: the join of their types, and their faults.
#[derive(Drop)]
pub struct Given {
    pub ty: FlowType,
    pub faults: List<Fault>,
}

// What steps give.
fn gather(world: &World<'_>, steps: Steps) -> Result<Given, NoMemory>
    ensures { IfOk result (λ g. (g.ty ≡ join_of (steps_view steps).0) × (g.faults ≡ (steps_view steps).1)) }
{
    let ty = steps.ty(world.alloc)?;
    Ok(Given {
        ty,
        faults: steps.faults,
    })
}

// What each member gives where a property is read.
#[tactic(auto, using(crate::proofs::Steps::steps_more, crate::proofs::Steps::all_steps))]
pub(crate) fn read_properties(
    world: &World<'_>,
    part: &Part<'_>,
    key: &Text,
    members: &[&FlowType],
) -> Result<Steps, NoMemory>
    ensures { IfOk result (λ steps. steps_view steps ≡ summed (map (property_read (world_view world.now) (part_view part.now) key.now) (levels_seen members.now))) }
{
    let mut steps = Steps::new(world.alloc);
    for i in 0..members.len() {
        steps.add(read_property(world, part, key.as_bytes(), members[i])?)?;
    }
    Ok(steps)
}

// What each member gives where an element is read.
#[tactic(auto, using(crate::proofs::Steps::steps_more, crate::proofs::Steps::all_steps))]
fn read_elements(
    world: &World<'_>,
    part: &Part<'_>,
    index: &FlowType,
    members: &[&FlowType],
) -> Result<Steps, NoMemory>
    ensures { IfOk result (λ steps. steps_view steps ≡ summed (map (index_read (world_view world.now) (part_view part.now) index.now) (levels_seen members.now))) }
{
    let mut steps = Steps::new(world.alloc);
    for i in 0..members.len() {
        steps.add(read_index(world, part, index, members[i])?)?;
    }
    Ok(steps)
}

/// The property of a key of an object's type, at a part that the key names.
///
/// # Errors
///
/// `NoMemory` where memory is refused.
pub fn property(
    world: &World<'_>,
    tokens: (usize, usize, usize),
    key: &Text,
    object_type: &FlowType,
) -> Result<Given, NoMemory>
    ensures { IfOk result (λ g. IsGiven g (map (property_read (world_view world.now) (part_at tokens.0 tokens.1 object_type.now (suc tokens.1) tokens.2 key.now) key.now) (levels (world_view world.now) object_type.now))) }
{
    let (first, at, end) = tokens;
    let part = Part {
        object_first: first,
        object_end: at,
        object_type,
        first: next(at)?,
        end,
        details: Details::Key(key),
    };
    let all = world.members(object_type)?;
    let steps = read_properties(world, &part, key, all.as_slice())?;
    gather(world, steps)
}

/// The element of an index of some type, at the part in brackets.
///
/// # Errors
///
/// `NoMemory` where memory is refused.
pub fn element(
    world: &World<'_>,
    tokens: (usize, usize, usize),
    index: &FlowType,
    object_type: &FlowType,
) -> Result<Given, NoMemory>
    ensures { IfOk result (λ g. IsGiven g (map (index_read (world_view world.now) (part_at tokens.0 tokens.1 object_type.now (suc tokens.1) (tokens.2 - 1) (brief index.now)) index.now) (levels (world_view world.now) object_type.now))) }
{
    let (first, at, end) = tokens;
    let part = Part {
        object_first: first,
        object_end: at,
        object_type,
        first: next(at)?,
        end: end.saturating_sub(1),
        details: Details::Index(index),
    };
    let all = world.members(object_type)?;
    let steps = read_elements(world, &part, index, all.as_slice())?;
    gather(world, steps)
}

/// A call of a type with arguments.
///
/// # Errors
///
/// `NoMemory` where memory is refused.
#[tactic(auto, using(crate::proofs::Steps::steps_more, crate::proofs::Steps::levels_all))]
pub fn called(
    world: &World<'_>,
    tokens: (usize, usize, usize),
    callee_type: &FlowType,
    arguments: &[Argument],
) -> Result<Given, NoMemory>
    ensures { IfOk result (λ g. IsCalled (world_view world.now) (call_at tokens.0 tokens.1 tokens.2 callee_type.now (arguments_view arguments.now)) g) }
{
    let (first, at, end) = tokens;
    let call = Call {
        first,
        callee_end: at,
        end,
        callee_type,
        arguments,
    };
    let all = world.members(callee_type)?;
    let members = all.as_slice();
    let mut steps = Steps::new(world.alloc);
    for i in 0..members.len() {
        steps.add(call_member(world, &call, members[i])?)?;
    }
    let mut called = gather(world, steps)?;
    called
        .faults
        .append(argument_faults(world, members, arguments)?)?;
    Ok(called)
}
