//! Functions and blocks, before and after their statements.
#![tactic(auto, unfolding(check_moves::specs::View::around, check_moves::specs::View::now, code_tree::specs::Flat::signature_view))]

ghost use Rattle.std.specs.Prelude.{◌≡◌, List, None, Some, OnOk, IfOk};
ghost use Rattle.std.specs.Option.{option_map};
ghost use Rattle.check_world.specs.View.{world_view};
ghost use Rattle.code_tree.specs.Flat.{signature_view};
ghost use Rattle.code_tree.specs.View.{statements_view};
ghost use Rattle.refine_flow.specs.Standing.{IsLast};
ghost use Rattle.scopes.specs.Rows.{binding_view};
ghost use Rattle.typing.specs.Names.{meaning_of};
ghost use Rattle.typing.specs.Changes.{Change};
ghost use Rattle.typing.specs.States as typing;
ghost use Rattle.typing.specs.States.{change_notes};
ghost use Rattle.typing.specs.Functions.{ended, enter_block};
ghost use Rattle.typing.specs.Statements.{variable_goal, variable_named};
ghost use Rattle.typing.specs.Typing.{made_from};
ghost use Rattle.part_steps.specs.View.{goal_view};
ghost use Rattle.binders.specs.View.{TellsInner};
ghost use Rattle.check_moves.specs.declared.state.State.{State};
ghost use Rattle.check_moves.specs.View.{around, scope, env, now};
ghost use Rattle.check_moves.specs.Follows.{Follows};
ghost use Rattle.statement_moves.specs.Outside.{IsOutside};
ghost use Rattle.statement_moves.specs.Bodies.{entered_env, bound_env, IsInside};

use crate::functions::{Outside, enter_function, leave_function};
use binders::{annotated, bind_signature, bind_statements, function_type, read_signature};
use check_moves::State;
use check_world::World;
use code_tree::{Signature, Statement};
use flow_values::{NoMemory, Text};
use part_steps::{Goal, variable_goal};
use scopes::{Binding, Height};
use std::collections::BTreeSet;
use type_terms::join;
use type_values::FlowType;

/// What stands around a block while its statements are read.
#[derive(Clone, Copy)]
pub struct Outer {
    pub height: Height,
    pub stopped: bool,
}

/// Enters a function, whose signature is read.
///
/// # Errors
///
/// `NoMemory` where memory is refused.
#[tactic(auto, using(crate::proofs::Entering::entered, crate::proofs::Entering::outside_read), unfolding(check_moves::specs::View::around, check_moves::specs::View::now, code_tree::specs::Flat::signature_view))]
pub fn enter(
    world: &World<'_>,
    state: &mut State,
    own: Option<Binding>,
    keeps: bool,
    signature: &Signature,
) -> Result<Outside, NoMemory>
    ensures env { OnOk result (env state.new ≡ entered_env (world_view world.now) (option_map binding_view own) keeps (signature_view signature.now) (env state.old)) }
    ensures outside { IfOk result (λ o. IsOutside o state.old state.new) }
{
    let output = annotated(world, &signature.output)?;
    let outside = enter_function(state, own, keeps, output)?;
    read_signature(world, signature, &mut state.notes)?;
    Ok(outside)
}

/// Leaves a function, and gives its type.
///
/// # Errors
///
/// `NoMemory` where memory is refused.
#[tactic(auto, using(crate::proofs::Entering::made), unfolding(check_moves::specs::View::around, check_moves::specs::View::now, code_tree::specs::Flat::signature_view))]
pub fn leave(
    world: &World<'_>,
    state: &mut State,
    outside: Outside,
    signature: &Signature,
) -> Result<FlowType, NoMemory>
    requires { IsLast outside.mark state.old.facts }
    ensures made { IfOk result (λ t. (before : State) → IsOutside outside before state.old → record { ty = t; now = now state.new } ≡ made_from (world_view world.now) (signature_view signature.now) (now before) (env state.old)) }
    ensures around { OnOk result ((before : State) → IsOutside outside before state.old → around state.new ≡ around before) }
    ensures follows { OnOk result ((before : State) → IsOutside outside before state.old → Follows None before None state.new) }
{
    let returned = leave_function(state, outside)?;
    let result = join(world.alloc, returned.as_slice())?;
    function_type(world, signature, result)
}

/// Binds the names of a function's body, which are assigned inside as told: its parameters, and what
/// its statements declare.
///
/// # Errors
///
/// `NoMemory` where memory is refused.
#[tactic(auto, using(crate::proofs::Entering::height_top, crate::proofs::Entering::height_bound, crate::proofs::Entering::body_bound, crate::proofs::Entering::follows_bound), unfolding(check_moves::specs::View::around, check_moves::specs::View::now, code_tree::specs::Flat::signature_view))]
pub fn bind_body(
    world: &World<'_>,
    state: &mut State,
    signature: &Signature,
    statements: &[Statement],
    set_inside: &BTreeSet<Text>,
) -> Result<(), NoMemory>
    ensures env { (changes : List Change) → TellsInner set_inside.now changes → OnOk result (env state.new ≡ bound_env (world_view world.now) changes (signature_view signature.now) (statements_view statements.now) (env state.old)) }
    ensures follows { OnOk result (Follows None state.old None state.new) }
{
    let since = state.scope.height();
    let (scope, notes) = (&mut state.scope, &mut state.notes);
    bind_signature(world, scope, notes, since, signature, set_inside)?;
    bind_statements(world, scope, notes, since, statements, set_inside)?;
    Ok(())
}

/// The end of a body: where it is live, `void` is returned.
///
/// # Errors
///
/// `NoMemory` where memory is refused.
#[tactic(auto, using(crate::proofs::Entering::end_dead, crate::proofs::Entering::end_bare, check_moves::proofs::Following::follows_nothing, check_moves::proofs::Following::follows_notes), unfolding(check_moves::specs::View::around, check_moves::specs::View::now, code_tree::specs::Flat::signature_view))]
pub fn end_body(world: &World<'_>, state: &mut State, signature: &Signature) -> Result<(), NoMemory>
    ensures env { OnOk result (env state.new ≡ ended (world_view world.now) (signature_view signature.now) (env state.old)) }
    ensures follows { OnOk result (Follows None state.old None state.new) }
{
    if state.facts.is_dead() {
        return Ok(());
    }
    match &signature.output {
        None => {
            state.returns(FlowType::Void)?;
            Ok(())
        }
        Some(tree) => {
            let want = world.written(tree)?;
            let void = FlowType::Void;
            state.notes.ask(world, tree.first, tree.end, &want, &void)?;
            Ok(())
        }
    }
}

/// Enters a block, whose statements bind names that change as told.
///
/// # Errors
///
/// `NoMemory` where memory is refused.
#[tactic(auto, using(crate::proofs::Entering::height_top, crate::proofs::Entering::block_bound, crate::proofs::Entering::follows_names), unfolding(check_moves::specs::View::around, check_moves::specs::View::now, code_tree::specs::Flat::signature_view))]
pub fn enter_block(
    world: &World<'_>,
    state: &mut State,
    statements: &[Statement],
    set_inside: &BTreeSet<Text>,
) -> Result<Outer, NoMemory>
    ensures env { (changes : List Change) → TellsInner set_inside.now changes → OnOk result (env state.new ≡ enter_block (world_view world.now) changes (statements_view statements.now) (env state.old)) }
    ensures inside { IfOk result (λ o. IsInside o state.old state.new) }
    ensures follows { OnOk result (Follows None state.old None state.new) }
{
    let outer = Outer {
        height: state.scope.height(),
        stopped: state.notes.is_stopped(),
    };
    let (scope, notes) = (&mut state.scope, &mut state.notes);
    bind_statements(world, scope, notes, outer.height, statements, set_inside)?;
    Ok(outer)
}

/// Leaves a block: its scope ends, and with it what could not be reached.
#[tactic(auto, using(crate::proofs::Entering::block_left, crate::proofs::Entering::block_left_follows), unfolding(check_moves::specs::View::around, check_moves::specs::View::now, code_tree::specs::Flat::signature_view))]
pub fn leave_block(state: &mut State, outer: Outer)
    ensures env { (before : State) → IsInside outer before state.old → env state.new ≡ typing.leave (env before) (env state.old) }
    ensures follows { (before : State) → IsInside outer before state.old → Follows None before None state.old → Follows None before None state.new }
{
    state.scope.leave(outer.height);
    state.notes.set_stopped(outer.stopped);
}

/// What the function around is to return.
///
/// # Errors
///
/// `NoMemory` where memory is refused.
pub fn wanted_result(state: &State) -> Result<Option<FlowType>, NoMemory>
    ensures { IfOk result (λ want. want ≡ (scope state.now).result) }
{
    match &state.scope.result {
        Some(t) => Ok(Some(t.share()?)),
        None => Ok(None),
    }
}

/// A variable as a target, at a token.
///
/// # Errors
///
/// `NoMemory` where memory is refused.
#[tactic(auto, using(check_moves::proofs::Following::follows_notes), unfolding(check_moves::specs::View::around, check_moves::specs::View::now, code_tree::specs::Flat::signature_view))]
pub fn read_variable_goal(
    world: &World<'_>,
    state: &mut State,
    token: usize,
    name: &Text,
) -> Result<Goal, NoMemory>
    ensures goal { IfOk result (λ g. goal_view g ≡ variable_goal (world_view world.now) token name.now (meaning_of (scope state.old) name.now)) }
    ensures now { OnOk result (now state.new ≡ change_notes (variable_named (world_view world.now) token name.now (meaning_of (scope state.old) name.now)) (now state.old)) }
    ensures around { OnOk result (around state.new ≡ around state.old) }
    ensures follows { OnOk result (Follows None state.old None state.new) }
{
    variable_goal(world, &state.scope, token, name, &mut state.notes)
}
