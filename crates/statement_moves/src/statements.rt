//! Statements on parts that were read.
#![tactic(auto, unfolding(check_moves::specs::View::around, check_moves::specs::View::now, check_moves::specs::View::told))]

ghost use Rattle.std.specs.Prelude.{◌≡◌, ℕ, suc, None, Some, OnOk, IfOk};
ghost use Rattle.js_grammar.specs.Code.{Ex};
ghost use Rattle.flow_facts.specs.Known.{joined, live, assigned, without, is_named};
ghost use Rattle.code_tree.specs.Flat.{binder_view};
ghost use Rattle.typing.specs.Names.{declares_type};
ghost use Rattle.typing.specs.States.{Env, change_facts, reach};
ghost use Rattle.typing.specs.Statements.{binder_type, declared_env, declared_facts, returned_bare, returned_value, broken, loop_env, first_of, end_of, assigned_env, target_set};
ghost use Rattle.check_world.specs.View.{world_view};
ghost use Rattle.fact_ways.specs.Ways.{Fits, way_of};
ghost use Rattle.code_changes.specs.View.{changes_view};
ghost use Rattle.part_steps.specs.View.{goal_view, target_view};
ghost use Rattle.check_moves.specs.View.{around, scope, env, now, told, broken_facts};
ghost use Rattle.check_moves.specs.Follows.{Follows};

use check_moves::{Read, State};
use check_values::Code;
use check_world::World;
use code_changes::{Change, killed_by};
use code_tree::Binder;
use fact_ways::Fork;
use flow_facts::Place;
use flow_values::{NoMemory, Text};
use part_steps::{Goal, Target, ask_each, is_const};
use place_tests::variable_place;
use refine_flow::Facts;
use scopes::Binding;
use std::mem;
use type_terms::widen;
use type_values::FlowType;

/// Before a statement at these tokens: where facts are dead, it and the rest of its list are not
/// reached.
///
/// # Errors
///
/// `NoMemory` where memory is refused.
#[tactic(auto, using(crate::proofs::Sequels::stopped_already, crate::proofs::Sequels::reach_live, crate::proofs::Sequels::reach_dead, check_moves::proofs::Following::follows_notes, check_moves::proofs::Following::follows_nothing), unfolding(check_moves::specs::View::around, check_moves::specs::View::now, check_moves::specs::View::told))]
pub fn reach(world: &World<'_>, state: &mut State, first: usize, end: usize) -> Result<(), NoMemory>
    ensures env { OnOk result (env state.new ≡ reach (world_view world.now) first end (env state.old)) }
    ensures follows { OnOk result (Follows None state.old None state.new) }
{
    if state.notes.is_stopped() || !state.facts.is_dead() {
        return Ok(());
    }
    let details = Text::from_bytes(state.alloc, b"")?;
    let code = Code::UnreachableCode;
    state
        .notes
        .add_fault(world.fault(first, end, code, details))?;
    state.notes.set_stopped(true);
    Ok(())
}

/// A bare `return`, at these tokens.
///
/// # Errors
///
/// `NoMemory` where memory is refused.
#[tactic(auto, using(crate::proofs::Sequels::bare_returned, check_moves::proofs::Following::follows_from, check_moves::proofs::Following::follows_through), unfolding(check_moves::specs::View::around, check_moves::specs::View::now, check_moves::specs::View::told))]
pub fn return_bare(
    world: &World<'_>,
    state: &mut State,
    first: usize,
    end: usize,
) -> Result<(), NoMemory>
    ensures env { OnOk result (env state.new ≡ returned_bare (world_view world.now) first end (env state.old)) }
    ensures follows { OnOk result (Follows None state.old None state.new) }
{
    let void = FlowType::Void;
    state
        .notes
        .ask_want(world, first, end, state.scope.result.as_ref(), &void)?;
    state.returns(void)?;
    state.die();
    Ok(())
}

/// The value of a `return`, or of an arrow, was read.
///
/// # Errors
///
/// `NoMemory` where memory is refused.
#[tactic(auto, using(crate::proofs::Sequels::value_returned, check_moves::proofs::Following::follows_through), unfolding(check_moves::specs::View::around, check_moves::specs::View::now, check_moves::specs::View::told))]
pub fn return_value(state: &mut State, value: Read) -> Result<(), NoMemory>
    requires { Fits value.fork state.old.facts }
    ensures env { (before : Env) → before.scope ≡ scope state.old → before.returned ≡ (around state.old).returned → before.breaks ≡ (around state.old).breaks → OnOk result (env state.new ≡ returned_value (told value state.old) before) }
    ensures follows { OnOk result (Follows value.fork state.old None state.new) }
{
    let ty = state.after(value)?;
    state.returns(ty)?;
    state.die();
    Ok(())
}

// The facts are joined with those at each `break` before.
#[tactic(auto, using(check_moves::proofs::Following::follows_nothing), unfolding(check_moves::specs::View::around, check_moves::specs::View::now, check_moves::specs::View::told))]
fn join_breaks(state: &mut State) -> Result<(), NoMemory>
    ensures env { OnOk result (env state.new ≡ record (env state.old) { breaks = joined (env state.old).breaks (env state.old).facts }) }
    ensures follows { OnOk result (Follows None state.old None state.new) }
{
    match &mut state.breaks {
        Some(breaks) => {
            breaks.join(&state.facts)?;
            Ok(())
        }
        None => {
            state.breaks = Some(state.facts.copy()?);
            Ok(())
        }
    }
}

/// A `break` leaves the loop around with its facts.
///
/// # Errors
///
/// `NoMemory` where memory is refused.
#[tactic(auto, using(crate::proofs::Sequels::broken_off, check_moves::proofs::Following::follows_through), unfolding(check_moves::specs::View::around, check_moves::specs::View::now, check_moves::specs::View::told))]
pub fn break_loop(state: &mut State) -> Result<(), NoMemory>
    ensures env { OnOk result (env state.new ≡ broken (env state.old)) }
    ensures follows { OnOk result (Follows None state.old None state.new) }
{
    join_breaks(state)?;
    state.die();
    Ok(())
}

// A value of a type is assigned to a place that has another one.
#[tactic(auto, using(check_moves::proofs::Following::follows_kept), unfolding(check_moves::specs::View::around, check_moves::specs::View::now, check_moves::specs::View::told, check_world::specs::View::world_view))]
fn assign(
    world: &World<'_>,
    state: &mut State,
    place: &Place,
    declared: &FlowType,
    value: &FlowType,
) -> Result<(), NoMemory>
    ensures now { OnOk result (now state.new ≡ change_facts (live (assigned (world_view world.now).members (world_view world.now).below place.now declared.now value.now)) (now state.old)) }
    ensures around { OnOk result (around state.new ≡ around state.old) }
    ensures follows { OnOk result (Follows None state.old None state.new) }
{
    state.facts.assign(world.table, place, declared, value)?;
    Ok(())
}

// What is known of properties of a name is forgotten.
#[tactic(auto, using(check_moves::proofs::Following::follows_kept), unfolding(check_moves::specs::View::around, check_moves::specs::View::now, check_moves::specs::View::told))]
fn forget_named(state: &mut State, name: &Text)
    ensures now { now state.new ≡ change_facts (live (without (is_named name.now))) (now state.old) }
    ensures around { around state.new ≡ around state.old }
    ensures follows { Follows None state.old None state.new }
{
    state.facts.forget_named(name);
}

// The value of a declaration with this type is assigned to it.
#[tactic(auto, using(crate::proofs::Sequels::not_assigned, crate::proofs::Sequels::is_assigned, check_moves::proofs::Following::follows_nothing), unfolding(check_moves::specs::View::around, check_moves::specs::View::now, check_moves::specs::View::told))]
fn assign_declared(
    world: &World<'_>,
    state: &mut State,
    number: u32,
    declared: &FlowType,
    value: &FlowType,
) -> Result<(), NoMemory>
    ensures now { OnOk result (now state.new ≡ change_facts (declared_facts (world_view world.now) (scope state.old) number (Some declared.now) value.now) (now state.old)) }
    ensures around { OnOk result (around state.new ≡ around state.old) }
    ensures follows { OnOk result (Follows None state.old None state.new) }
{
    if state.scope.is_shared(number) {
        return Ok(());
    }
    let place = variable_place(number);
    assign(world, state, &place, declared, value)?;
    Ok(())
}

/// The value of a declaration was read, whose name stands at a token.
///
/// # Errors
///
/// `NoMemory` where memory is refused.
#[tactic(auto, using(crate::proofs::Sequels::plainly_declared, crate::proofs::Sequels::annotated_declared, check_moves::proofs::Following::follows_through), unfolding(check_moves::specs::View::around, check_moves::specs::View::now, check_moves::specs::View::told))]
pub fn declare(
    world: &World<'_>,
    state: &mut State,
    token: usize,
    binder: Binder,
    annotation: Option<FlowType>,
    value: Read,
) -> Result<(), NoMemory>
    requires { Fits value.fork state.old.facts }
    ensures env { (f : ℕ) (before : Env) → token ≡ suc f → before.scope ≡ scope state.old → before.returned ≡ (around state.old).returned → before.breaks ≡ (around state.old).breaks → OnOk result (env state.new ≡ declared_env (world_view world.now) f (binder_view binder) annotation (told value state.old) before) }
    ensures follows { OnOk result (Follows value.fork state.old None state.new) }
{
    let value = state.after(value)?;
    let number = Binding::number_at(is_const(binder), token)?;
    let Some(declared) = annotation else {
        let ty = bound_type(state, binder, value)?;
        return declare_type(state, number, &ty);
    };
    assign_declared(world, state, number, &declared, &value)?;
    declare_type(state, number, &declared)
}

// The type of a variable without annotation.
fn bound_type(state: &State, binder: Binder, value: FlowType) -> Result<FlowType, NoMemory>
    ensures { IfOk result (λ ty. ty ≡ binder_type (binder_view binder) value) }
{
    match binder {
        Binder::Const => Ok(value),
        Binder::Let => widen(state.alloc, &value),
    }
}

// The declaration of the name with a number was read, and this is its type.
#[tactic(auto, using(check_moves::proofs::Following::follows_scope), unfolding(check_moves::specs::View::around, check_moves::specs::View::now, check_moves::specs::View::told))]
fn declare_type(state: &mut State, number: u32, ty: &FlowType) -> Result<(), NoMemory>
    ensures env { OnOk result (env state.new ≡ record (env state.old) { scope = declares_type number ty.now (env state.old).scope }) }
    ensures follows { OnOk result (Follows None state.old None state.new) }
{
    state.scope.declare(number, ty)
}

// A value of a type was assigned to a target.
#[tactic(auto, using(check_moves::proofs::Following::follows_nothing), unfolding(check_moves::specs::View::around, check_moves::specs::View::now, check_moves::specs::View::told))]
fn set_target(
    world: &World<'_>,
    state: &mut State,
    target: Target,
    ty: &FlowType,
) -> Result<(), NoMemory>
    ensures now { OnOk result (now state.new ≡ change_facts (target_set (world_view world.now) (target_view target) ty.now) (now state.old)) }
    ensures around { OnOk result (around state.new ≡ around state.old) }
    ensures follows { OnOk result (Follows None state.old None state.new) }
{
    match target {
        Target::Nothing => Ok(()),
        Target::Place(place, declared) => assign(world, state, &place, &declared, ty),
        Target::Property(key) => {
            forget_named(state, &key);
            Ok(())
        }
        Target::Element => {
            state.forget_properties();
            Ok(())
        }
    }
}

/// The value of an assignment, at these tokens, was read.
///
/// # Errors
///
/// `NoMemory` where memory is refused.
#[tactic(auto, using(crate::proofs::Sequels::value_assigned, check_moves::proofs::Following::follows_past), unfolding(check_moves::specs::View::around, check_moves::specs::View::now, check_moves::specs::View::told))]
pub fn assigned(
    world: &World<'_>,
    state: &mut State,
    tokens: (usize, usize),
    goal: Goal,
    value: Read,
) -> Result<(), NoMemory>
    requires { Fits value.fork state.old.facts }
    ensures env { (e : Ex) (before : Env) → first_of e ≡ tokens.0 → end_of e ≡ tokens.1 → before.scope ≡ scope state.old → before.returned ≡ (around state.old).returned → before.breaks ≡ (around state.old).breaks → OnOk result (env state.new ≡ assigned_env (world_view world.now) e (goal_view goal) (told value state.old) before) }
    ensures follows { OnOk result (Follows value.fork state.old None state.new) }
{
    let ty = state.after(value)?;
    let Goal {
        wants,
        faults,
        target,
    } = goal;
    ask_each(world, tokens, wants.as_slice(), &ty, &mut state.notes)?;
    state.notes.add_faults(faults)?;
    set_target(world, state, target, &ty)?;
    Ok(())
}

/// Before the test of a loop with these changes. Gives the facts at each `break` of the loop
/// around.
///
/// # Errors
///
/// `NoMemory` where memory is refused.
#[tactic(auto, using(crate::proofs::Sequels::loop_entered, check_moves::proofs::Following::follows_kept), unfolding(check_moves::specs::View::around, check_moves::specs::View::now, check_moves::specs::View::told))]
pub fn enter_loop(state: &mut State, changes: &[Change]) -> Result<Option<Facts>, NoMemory>
    ensures env { OnOk result (env state.new ≡ loop_env (changes_view changes.now) (env state.old)) }
    ensures outer { IfOk result (λ outer. outer ≡ state.old.breaks) }
    ensures follows { OnOk result (Follows None state.old None state.new) }
{
    let killed = killed_by(state.alloc, &state.scope, changes)?;
    state.facts.enter_loop(&killed);
    Ok(state.breaks.take())
}

/// After a loop, whose test is falsy on the way of the arm: the facts there, and those at each
/// `break`.
///
/// # Errors
///
/// `NoMemory` where memory is refused.
#[tactic(auto, using(crate::proofs::Sequels::loop_left, check_moves::proofs::Following::follows_past), unfolding(check_moves::specs::View::around, check_moves::specs::View::now, check_moves::specs::View::told))]
pub fn leave_loop(state: &mut State, test: Fork, outer: Option<Facts>) -> Result<(), NoMemory>
    requires { Fits (Some test) state.old.facts }
    ensures env { OnOk result (env state.new ≡ record (env state.old) { facts = joined (way_of state.old.facts test) (around state.old).breaks; breaks = broken_facts outer }) }
    ensures follows { OnOk result (Follows (Some test) state.old None state.new) }
{
    state.take(test)?;
    let breaks = mem::replace(&mut state.breaks, outer);
    join_some(state, breaks)
}

// Joins the facts with others, if there are some.
#[tactic(auto, using(crate::proofs::Sequels::none_joined, check_moves::proofs::Following::follows_nothing, check_moves::proofs::Following::follows_kept), unfolding(check_moves::specs::View::around, check_moves::specs::View::now, check_moves::specs::View::told))]
fn join_some(state: &mut State, others: Option<Facts>) -> Result<(), NoMemory>
    ensures now { OnOk result (now state.new ≡ record (now state.old) { facts = joined (now state.old).facts (broken_facts others) }) }
    ensures around { OnOk result (around state.new ≡ around state.old) }
    ensures follows { OnOk result (Follows None state.old None state.new) }
{
    match others {
        Some(others) => {
            state.facts.join(&others)?;
            Ok(())
        }
        None => Ok(()),
    }
}
