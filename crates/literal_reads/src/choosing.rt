//! Which object type an object literal is read against.
ghost use Rattle.std.specs.Prelude.{◌≡◌, map, filter, IfOk};
ghost use Rattle.std.specs.List.{filter_map, list_any};
ghost use Rattle.std.specs.Option.{option_copied, option_map};
ghost use Rattle.type_values.specs.declared.types.FlowType.{out-FlowType};
ghost use Rattle.type_terms.specs.Join.{level_is_any};
ghost use Rattle.check_world.specs.View.{world_view};
ghost use Rattle.typing.specs.Members.{the_one};
ghost use Rattle.typing.specs.Objects.{object_of, is_candidate, candidate_for};
ghost use Rattle.literal_reads.specs.View.{entries_view, candidate_view, levels_seen};

use crate::candidate::Candidate;
use crate::entries::Entries;
use check_world::World;
use flow_values::{List, NoMemory};
use type_values::FlowType;

// A member that is an object.
fn object_of<'t>(world: &World<'_>, member: &'t FlowType) -> Result<Option<Candidate<'t>>, NoMemory>
    ensures { IfOk result (λ found. option_map candidate_view found ≡ object_of (out-FlowType member.now)) }
{
    match member {
        FlowType::Object { exact, props } => {
            let candidate = Candidate::new(world, *exact, props.as_slice())?;
            Ok(Some(candidate))
        }
        _ => Ok(None),
    }
}

// The objects among the members of a type.
#[tactic(auto, using(crate::proofs::ObjectsAmong::objects_next, crate::proofs::ObjectsAmong::objects_not))]
fn objects<'t>(world: &World<'_>, members: &[&'t FlowType]) -> Result<List<Candidate<'t>>, NoMemory>
    ensures { IfOk result (λ all. map candidate_view all ≡ filter_map object_of (levels_seen members.now)) }
{
    let mut all = List::new(world.alloc);
    for i in 0..members.len() {
        let member = members[i];
        if let Some(candidate) = object_of(world, member)? {
            all.push(candidate)?;
        }
    }
    Ok(all)
}

// Whether a member is `any`.
fn is_any(member: &FlowType) -> bool
    ensures { result ≡ level_is_any (out-FlowType member.now) }
{
    matches!(member, FlowType::Any)
}

// Whether `any` is among the members of a type.
fn has_any(members: &[&FlowType]) -> bool
    ensures { result ≡ list_any level_is_any (levels_seen members.now) }
{
    for i in 0..members.len() {
        let member = members[i];
        if is_any(member) {
            return true;
        }
    }
    false
}

// The one object that takes each property that counts, if there is exactly one.
#[tactic(auto, using(crate::proofs::ObjectsAmong::one_none, crate::proofs::ObjectsAmong::one_two, crate::proofs::ObjectsAmong::one_new, crate::proofs::ObjectsAmong::one_old))]
fn the_one<'t>(
    world: &World<'_>,
    entries: &Entries,
    all: List<Candidate<'t>>,
) -> Result<Option<Candidate<'t>>, NoMemory>
    ensures { IfOk result (λ found. option_map candidate_view found ≡ the_one (filter (is_candidate (world_view world.now) (entries_view entries.now)) (map candidate_view all.entry))) }
{
    let mut rest = all;
    let mut found = None;
    while let Some(candidate) = rest.pop() {
        if candidate.takes_all(world, entries)? {
            if found.is_some() {
                return Ok(None);
            }
            found = Some(candidate);
        }
    }
    Ok(found)
}

/// The one candidate of the type that a literal is read against, if it has exactly one.
///
/// # Errors
///
/// `NoMemory` where memory is refused.
#[tactic(auto, using(crate::proofs::ObjectsAmong::among_one, crate::proofs::ObjectsAmong::among_any, crate::proofs::ObjectsAmong::among_more))]
pub fn candidate_for<'t>(
    world: &'t World<'_>,
    entries: &Entries,
    want: Option<&'t FlowType>,
) -> Result<Option<Candidate<'t>>, NoMemory>
    ensures { IfOk result (λ found. option_map candidate_view found ≡ candidate_for (world_view world.now) (entries_view entries.now) (option_copied want.entry)) }
{
    let Some(want) = want else {
        return Ok(None);
    };
    let members = world.members(want)?;
    let mut all = objects(world, members.as_slice())?;
    if !has_any(members.as_slice()) && all.len() == 1 {
        return Ok(all.pop());
    }
    the_one(world, entries, all)
}
