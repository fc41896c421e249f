//! Operators: `&&`, `||` and `??`, behind whose left side ways part, and the others.
#![tactic(auto, unfolding(check_moves::specs::View::around, check_moves::specs::View::now, check_moves::specs::View::told))]

ghost use Rattle.std.specs.Prelude.{◌≡◌, ◌∷◌, [], true, Some, OnOk, IfOk, reverse, if◌then◌else◌};
ghost use Rattle.flow_facts.specs.Narrowing.{narrowed};
ghost use Rattle.flow_facts.specs.declared.test.Test as test;
ghost use Rattle.type_terms.specs.Join.{join_of};
ghost use Rattle.code_tree.specs.Flat.{operator_view};
ghost use Rattle.typing.specs.States.{Out, after};
ghost use Rattle.typing.specs.Forms.{nullish_now, nullish_out, operator_out};
ghost use Rattle.check_world.specs.View.{world_view};
ghost use Rattle.fact_ways.specs.Ways.{Fits, AreNested, outermost, way_of, ways_of};
ghost use Rattle.check_moves.specs.View.{around, now, told};
ghost use Rattle.check_moves.specs.Follows.{Follows};
ghost use Rattle.expression_moves.specs.Moves.{goes_on, leaving, met, is_plain, nullish_from};

use crate::places::assume;
use check_moves::{Read, State};
use check_world::World;
use code_tree::Operator;
use fact_ways::Fork;
use flow_facts::{Place, Test};
use flow_values::{List, NoMemory};
use narrowing::narrow;
use part_steps::operator_type;
use refine_flow::Joins;
use type_terms::join;
use type_values::FlowType;

// What holds of the left side of `&&` (true) or `||` where the right one is not read.
fn leaving_test(is_and: bool) -> Test
    ensures { result ≡ (if is_and then test.Falsy else test.Truthy) }
{
    if is_and { Test::Falsy } else { Test::Truthy }
}

/// Goes on where what was read is truthy (true) or falsy. What is handed out has the other way as
/// its arm.
///
/// # Errors
///
/// `NoMemory` where memory is refused.
#[tactic(auto, using(crate::proofs::Choosing::goes_and, crate::proofs::Choosing::goes_or, crate::proofs::Choosing::left_and, crate::proofs::Choosing::left_or, check_moves::proofs::Following::follows_through), unfolding(check_moves::specs::View::around, check_moves::specs::View::now, check_moves::specs::View::told))]
pub fn part(state: &mut State, is_and: bool, fork: Option<Fork>) -> Result<Fork, NoMemory>
    requires { Fits fork state.old.facts }
    ensures now { (ty : FlowType) → OnOk result (now state.new ≡ goes_on is_and (told (record { ty = ty; fork = fork }) state.old)) }
    ensures arm { (ty : FlowType) → IfOk result (λ k. way_of state.new.facts k ≡ leaving is_and (told (record { ty = ty; fork = fork }) state.old)) }
    ensures around { OnOk result (around state.new ≡ around state.old) }
    ensures follows { IfOk result (λ k. Follows fork state.old (Some k) state.new) }
{
    let fork = state.split(fork)?;
    if is_and {
        return Ok(state.turn(fork)?);
    }
    Ok(fork)
}

/// The ways behind `a && b && ..` (true) or `a || b || ..`, of which the last operand was read, with
/// those ways where one before it left the chain.
///
/// # Errors
///
/// `NoMemory` where memory is refused.
#[tactic(auto, using(crate::proofs::Choosing::all_and, crate::proofs::Choosing::all_or, crate::proofs::Rounds::nested_through, crate::proofs::Rounds::ways_through, crate::proofs::Rounds::follows_outer, crate::proofs::Rounds::nested_turned, crate::proofs::Rounds::ways_turned, crate::proofs::Rounds::turned_outer), unfolding(check_moves::specs::View::around, check_moves::specs::View::now, check_moves::specs::View::told))]
pub fn meet_left(
    state: &mut State,
    is_and: bool,
    last: Option<Fork>,
    left: Vec<Fork>,
) -> Result<Option<Fork>, NoMemory>
    requires last { Fits last state.old.facts }
    requires left { AreNested (reverse left.items) last state.old.facts }
    ensures told { (ty : FlowType) → IfOk result (λ fork. told (record { ty = ty; fork = fork }) state.new ≡ met is_and (ways_of state.old.facts (reverse left.items)) (told (record { ty = ty; fork = last }) state.old)) }
    ensures around { OnOk result (around state.new ≡ around state.old) }
    ensures follows { IfOk result (λ fork. Follows (outermost (reverse left.items) last) state.old fork state.new) }
{
    let fork = state.split(last)?;
    if is_and {
        return Ok(Some(state.meet_ways(fork, left)?));
    }
    let turned = state.turn(fork)?;
    let met = state.meet_ways(turned, left)?;
    Ok(Some(state.turn(met)?))
}

// The join of what a test leaves of a type, and another one.
#[tactic(auto, unfolding(check_world::specs::View::world_view))]
fn left_or(
    world: &World<'_>,
    state: &State,
    left: &FlowType,
    test: &Test,
    right: FlowType,
) -> Result<FlowType, NoMemory>
    ensures { IfOk result (λ t. t ≡ join_of (narrowed (world_view world.now).members test.now left.now ∷ right ∷ [])) }
{
    let left = narrow(state.alloc, world.table, left, test)?;
    let mut both = List::new(state.alloc);
    both.push(left)?;
    both.push(right)?;
    Ok(join(state.alloc, both.as_slice())?)
}

/// The type of `a && b` (true) or `a || b`: what is left of a's where the chain is left, and b's.
///
/// # Errors
///
/// `NoMemory` where memory is refused.
pub fn either_type(
    world: &World<'_>,
    state: &State,
    is_and: bool,
    left: &FlowType,
    right: FlowType,
) -> Result<FlowType, NoMemory>
    ensures { IfOk result (λ t. t ≡ join_of (narrowed (world_view world.now).members (if is_and then test.Falsy else test.Truthy) left.now ∷ right ∷ [])) }
{
    left_or(world, state, left, &leaving_test(is_and), right)
}

/// Goes on to the right side of `??`: a place on the left is null or void there. Gives the type of
/// the left side, and its way.
///
/// # Errors
///
/// `NoMemory` where memory is refused.
#[tactic(auto, using(crate::proofs::Operating::nullish_begun, crate::proofs::Operating::arm_begun, check_moves::proofs::Following::way_under, check_moves::proofs::Following::follows_through, check_moves::proofs::Following::follows_under), unfolding(check_moves::specs::View::around, check_moves::specs::View::now, check_moves::specs::View::told))]
pub fn begin_nullish(
    world: &World<'_>,
    state: &mut State,
    place: Option<Place>,
    left: Read,
) -> Result<(FlowType, Fork), NoMemory>
    requires { Fits left.fork state.old.facts }
    ensures now { OnOk result (now state.new ≡ nullish_now (world_view world.now) place (told left state.old)) }
    ensures ty { IfOk result (λ begun. begun.0 ≡ left.ty) }
    ensures arm { IfOk result (λ begun. way_of state.new.facts begun.1 ≡ (after (told left state.old)).facts) }
    ensures around { OnOk result (around state.new ≡ around state.old) }
    ensures follows { IfOk result (λ begun. Follows left.fork state.old (Some begun.1) state.new) }
{
    let ty = state.after(left)?;
    let fork = state.stand()?;
    assume_nullish(world, state, place, &ty)?;
    Ok((ty, fork))
}

// A place of a type, if there is one, is null or void.
#[tactic(auto, using(check_moves::proofs::Following::follows_nothing), unfolding(check_moves::specs::View::around, check_moves::specs::View::now, check_moves::specs::View::told))]
fn assume_nullish(
    world: &World<'_>,
    state: &mut State,
    place: Option<Place>,
    ty: &FlowType,
) -> Result<(), NoMemory>
    ensures now { OnOk result (now state.new ≡ nullish_from (world_view world.now) place ty.now (now state.old)) }
    ensures around { OnOk result (around state.new ≡ around state.old) }
    ensures follows { OnOk result (Follows None state.old None state.new) }
{
    match place {
        Some(place) => assume(world, state, &place, ty, &Test::Nullish),
        None => Ok(()),
    }
}

/// What `a ?? b` gives, once b was read behind a's way.
///
/// # Errors
///
/// `NoMemory` where memory is refused.
#[tactic(auto, using(crate::proofs::Operating::nullish_ended, crate::proofs::Rounds::fits_round, crate::proofs::Rounds::follows_round), unfolding(check_moves::specs::View::around, check_moves::specs::View::now, check_moves::specs::View::told))]
pub fn end_nullish(
    world: &World<'_>,
    state: &mut State,
    left: &FlowType,
    fork: Fork,
    right: Read,
) -> Result<Read, NoMemory>
    requires right { Fits right.fork state.old.facts }
    requires left { AreNested (fork ∷ []) right.fork state.old.facts }
    ensures told { (a : Out) → a.ty ≡ left.now → (after a).facts ≡ way_of state.old.facts fork → IfOk result (λ r. told r state.new ≡ nullish_out (world_view world.now) a (told right state.old)) }
    ensures around { OnOk result (around state.new ≡ around state.old) }
    ensures follows { IfOk result (λ r. Follows (Some fork) state.old r.fork state.new) }
{
    let right = state.after(right)?;
    state.meet(fork, Joins::Made)?;
    let ty = left_or(world, state, left, &Test::NotNullish, right)?;
    Ok(Read { ty, fork: None })
}

/// What an operator gives that is none of `&&`, `||` and `??`, once its right side was read. Its
/// chain begins at a token, its left side ends at a second one, and its right side at a third one.
///
/// # Errors
///
/// `NoMemory` where memory is refused.
#[tactic(auto, using(crate::proofs::Operating::operator_read, check_moves::proofs::Following::follows_still), unfolding(check_moves::specs::View::around, check_moves::specs::View::now, check_moves::specs::View::told))]
pub fn read_operator(
    world: &World<'_>,
    state: &mut State,
    operator: Operator,
    tokens: (usize, usize, usize),
    left: &FlowType,
    right: Read,
) -> Result<Read, NoMemory>
    requires plain { is_plain (operator_view operator) ≡ true }
    requires fits { Fits right.fork state.old.facts }
    ensures told { (a : Out) → a.ty ≡ left.now → IfOk result (λ r. told r state.new ≡ operator_out (world_view world.now) tokens.0 tokens.1 tokens.2 (operator_view operator) a (told right state.old)) }
    ensures around { OnOk result (around state.new ≡ around state.old) }
    ensures follows { IfOk result (λ r. Follows right.fork state.old r.fork state.new) }
{
    let right = state.after(right)?;
    let ty = operator_type(world, operator, tokens, left, &right, &mut state.notes)?;
    Ok(Read { ty, fork: None })
}
