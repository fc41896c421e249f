//! Object and array literals on parts that were read.
#![tactic(auto, unfolding(check_moves::specs::View::around, check_moves::specs::View::now))]

ghost use Rattle.std.specs.Prelude.{◌≡◌, None, OnOk, IfOk, is_some, if◌then◌else◌};
ghost use Rattle.std.specs.Option.{option_copied, option_map};
ghost use Rattle.literal_reads.specs.View.{entries_view, candidate_view, elements_view};
ghost use Rattle.literal_reads.specs.Keys.{entry_view};
ghost use Rattle.typing.specs.Objects.{prop_read, element_want, value_want, key_asked, key_bound, all_given};
ghost use Rattle.typing.specs.States.{change_notes};
ghost use Rattle.check_world.specs.View.{world_view};
ghost use Rattle.check_moves.specs.View.{around, now};
ghost use Rattle.check_moves.specs.Follows.{Follows};

use check_moves::State;
use check_world::World;
use flow_values::{NoMemory, Text};
use literal_reads::{Candidate, Elements, Entries, Entry};
use std::alloc::Global;
use type_terms::widen;
use type_values::{FlowProp, FlowType, Variance};

/// The type that the k-th element is read against, by what matches the literal.
pub fn element_want<'t>(matched: &Option<Elements<'t>>, k: usize) -> Option<&'t FlowType>
    ensures { option_copied result ≡ element_want (option_map elements_view matched.now) k }
{
    match matched {
        Some(matched) => matched.want(k),
        None => None,
    }
}

/// What an array literal is read against as a whole, unless its elements are matched.
pub fn whole_array<'t>(
    matched: &Option<Elements<'_>>,
    want: Option<&'t FlowType>,
) -> Option<&'t FlowType>
    ensures { option_copied result ≡ (if is_some (option_map elements_view matched.now) then None else option_copied want.entry) }
{
    match matched {
        Some(_) => None,
        None => want,
    }
}

/// What an object literal is read against as a whole, unless it has a candidate.
pub fn whole_object<'t>(
    candidate: &Option<Candidate<'_>>,
    want: Option<&'t FlowType>,
) -> Option<&'t FlowType>
    ensures { option_copied result ≡ (if is_some (option_map candidate_view candidate.now) then None else option_copied want.entry) }
{
    match candidate {
        Some(_) => None,
        None => want,
    }
}

/// What a property's value is read against, its key's faults noted.
///
/// # Errors
///
/// `NoMemory` where memory is refused.
#[tactic(auto, using(check_moves::proofs::Following::follows_notes), unfolding(check_moves::specs::View::around, check_moves::specs::View::now))]
pub fn ask_entry(
    world: &World<'_>,
    state: &mut State,
    entries: &Entries,
    entry: &Entry,
    candidate: Option<&Candidate<'_>>,
) -> Result<Option<FlowType>, NoMemory>
    ensures want { IfOk result (λ want. want ≡ value_want (option_map (λ c. candidate_view c.now) candidate.entry) (entries_view entries.now) (entry_view entry.now)) }
    ensures now { OnOk result (now state.new ≡ change_notes (λ notes. key_asked (world_view world.now) (option_map (λ c. candidate_view c.now) candidate.entry) (entries_view entries.now) (entry_view entry.now) (key_bound (world_view world.now) (entries_view entries.now) (entry_view entry.now) notes)) (now state.old)) }
    ensures around { OnOk result (around state.new ≡ around state.old) }
    ensures follows { OnOk result (Follows None state.old None state.new) }
{
    entries.bind_key(world, entry, &mut state.notes)?;
    let Some(candidate) = candidate else {
        return Ok(None);
    };
    candidate.ask_key(world, entries, entry, &mut state.notes)?;
    candidate.value_want(world, entries, entry)
}

/// Notes each required property of a candidate that a literal, at these tokens, lacks.
///
/// # Errors
///
/// `NoMemory` where memory is refused.
#[tactic(auto, using(check_moves::proofs::Following::follows_notes, check_moves::proofs::Following::follows_nothing), unfolding(check_moves::specs::View::around, check_moves::specs::View::now))]
pub fn ask_all(
    world: &World<'_>,
    state: &mut State,
    tokens: (usize, usize),
    entries: &Entries,
    candidate: Option<&Candidate<'_>>,
) -> Result<(), NoMemory>
    ensures now { OnOk result (now state.new ≡ change_notes (all_given (world_view world.now) tokens.0 tokens.1 (entries_view entries.now) (option_map (λ c. candidate_view c.now) candidate.entry)) (now state.old)) }
    ensures around { OnOk result (around state.new ≡ around state.old) }
    ensures follows { OnOk result (Follows None state.old None state.new) }
{
    match candidate {
        None => Ok(()),
        Some(candidate) => {
            candidate.ask_all(world, tokens.0, tokens.1, entries, &mut state.notes)
        }
    }
}

/// A property in the type of an object literal.
///
/// # Errors
///
/// `NoMemory` where memory is refused.
pub fn prop_read(alloc: Global, name: &Text, ty: &FlowType) -> Result<FlowProp, NoMemory>
    ensures { IfOk result (λ prop. prop ≡ prop_read name.now ty.now) }
{
    Ok(FlowProp {
        key: name.share()?,
        variance: Variance::Both,
        optional: false,
        ty: widen(alloc, ty)?,
    })
}
