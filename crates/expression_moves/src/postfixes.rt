//! Properties, indices and calls of what was read.
#![tactic(auto, unfolding(check_moves::specs::View::around, check_moves::specs::View::now, check_moves::specs::View::told))]

ghost use Rattle.std.specs.Prelude.{◌≡◌, None, OnOk, IfOk};
ghost use Rattle.member_steps.specs.View.{arguments_view};
ghost use Rattle.typing.specs.States.{Out};
ghost use Rattle.typing.specs.Forms.{property_out, index_out, call_out};
ghost use Rattle.check_world.specs.View.{world_view};
ghost use Rattle.fact_ways.specs.Ways.{Fits};
ghost use Rattle.check_moves.specs.View.{around, now, told};
ghost use Rattle.check_moves.specs.Follows.{Follows};

use crate::places::read_place;
use check_moves::{Read, State};
use check_world::World;
use flow_facts::Place;
use flow_values::{NoMemory, Text};
use member_steps::Argument;
use part_steps::{called, element, property};
use type_values::FlowType;

/// The property `.key` of an object that was read: the chain begins at a token, the object ends at
/// a second one, and the property at a third one.
///
/// # Errors
///
/// `NoMemory` where memory is refused.
#[tactic(auto, using(crate::proofs::Stepping::member_read, check_moves::proofs::Following::follows_past), unfolding(check_moves::specs::View::around, check_moves::specs::View::now, check_moves::specs::View::told))]
pub fn read_member(
    world: &World<'_>,
    state: &mut State,
    tokens: (usize, usize, usize),
    key: &Text,
    place: Option<Place>,
    object: Read,
) -> Result<Read, NoMemory>
    requires { Fits object.fork state.old.facts }
    ensures told { IfOk result (λ r. told r state.new ≡ property_out (world_view world.now) tokens.0 tokens.1 tokens.2 key.now place (told object state.old)) }
    ensures around { OnOk result (around state.new ≡ around state.old) }
    ensures follows { IfOk result (λ r. Follows object.fork state.old r.fork state.new) }
{
    let object_type = state.after(object)?;
    let given = property(world, tokens, key, &object_type)?;
    state.notes.add_faults(given.faults)?;
    read_place(world, state, place, given.ty)
}

/// The element of an index that was read, of an object of a type.
///
/// # Errors
///
/// `NoMemory` where memory is refused.
#[tactic(auto, using(crate::proofs::Stepping::element_read, check_moves::proofs::Following::follows_still), unfolding(check_moves::specs::View::around, check_moves::specs::View::now, check_moves::specs::View::told))]
pub fn read_element(
    world: &World<'_>,
    state: &mut State,
    tokens: (usize, usize, usize),
    object_type: &FlowType,
    index: Read,
) -> Result<Read, NoMemory>
    requires { Fits index.fork state.old.facts }
    ensures told { (o : Out) → o.ty ≡ object_type.now → IfOk result (λ r. told r state.new ≡ index_out (world_view world.now) tokens.0 tokens.1 tokens.2 o (told index state.old)) }
    ensures around { OnOk result (around state.new ≡ around state.old) }
    ensures follows { IfOk result (λ r. Follows index.fork state.old r.fork state.new) }
{
    let index = state.after(index)?;
    let given = element(world, tokens, &index, object_type)?;
    state.notes.add_faults(given.faults)?;
    Ok(Read {
        ty: given.ty,
        fork: None,
    })
}

/// A call of what is of a type, once the arguments were read.
///
/// # Errors
///
/// `NoMemory` where memory is refused.
#[tactic(auto, using(crate::proofs::Stepping::called_read, check_moves::proofs::Following::follows_from), unfolding(check_moves::specs::View::around, check_moves::specs::View::now, check_moves::specs::View::told))]
pub fn read_called(
    world: &World<'_>,
    state: &mut State,
    tokens: (usize, usize, usize),
    callee_type: &FlowType,
    arguments: &[Argument],
) -> Result<Read, NoMemory>
    ensures told { (o : Out) → o.ty ≡ callee_type.now → IfOk result (λ r. told r state.new ≡ call_out (world_view world.now) tokens.0 tokens.1 tokens.2 o (record { args = arguments_view arguments.now; now = now state.old })) }
    ensures around { OnOk result (around state.new ≡ around state.old) }
    ensures follows { IfOk result (λ r. Follows None state.old r.fork state.new) }
{
    let given = called(world, tokens, callee_type, arguments)?;
    state.notes.add_faults(given.faults)?;
    state.forget_properties();
    Ok(Read {
        ty: given.ty,
        fork: None,
    })
}
