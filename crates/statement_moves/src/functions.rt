//! Functions, while their bodies are read.
#![tactic(auto, unfolding(check_moves::specs::View::around, check_moves::specs::View::now, check_moves::specs::View::told))]

ghost use Rattle.std.specs.Prelude.{◌≡◌, suc, ◌++◌, None, Some, OnOk, IfOk};
ghost use Rattle.std.specs.Option.{option_map, option_to_list};
ghost use Rattle.refine_flow.specs.Standing.{known, IsLast};
ghost use Rattle.scopes.specs.Rows.{binding_view};
ghost use Rattle.scopes.specs.View.{scope_view, names_at, IsTop, KeepsHeights};
ghost use Rattle.check_moves.specs.View.{around, scope, env, now};
ghost use Rattle.check_moves.specs.Follows.{Follows};
ghost use Rattle.statement_moves.specs.Outside.{IsOutside, function_env, entered_env};
ghost use Rattle.check_moves.specs.declared.state.State.{State};

use check_moves::State;
use flow_values::{List, NoMemory};
use refine_flow::{Facts, Mark};
use scopes::{Binding, Height, Scope};
use std::mem;
use type_values::FlowType;

/// What stands around a function while its body is read. The facts around are those at the mark.
#[derive(Drop)]
pub struct Outside {
    pub mark: Mark,
    pub height: Height,
    pub depth: usize,
    pub result: Option<FlowType>,
    pub returned: List<FlowType>,
    pub breaks: Option<Facts>,
    pub stopped: bool,
}

// Goes back to the names of a height, in a function at a depth that is to return a type.
#[tactic(auto, using(crate::proofs::Outsides::left_names, crate::proofs::Outsides::left_heights), unfolding(check_moves::specs::View::around, check_moves::specs::View::now, check_moves::specs::View::told))]
fn leave_names(scope: &mut Scope, height: Height, depth: usize, wanted: Option<FlowType>)
    ensures scope { scope_view scope.new ≡ record { names = names_at height scope.old; depth = depth; result = wanted } }
    ensures heights { (before : Scope) → IsTop height before → KeepsHeights before scope.old → KeepsHeights before scope.new }
{
    scope.leave(height);
    scope.stand(depth, wanted);
}

// Binds the name of a function expression round its scope, if it has one.
#[tactic(auto, using(check_moves::proofs::Following::follows_scope, check_moves::proofs::Following::follows_nothing), unfolding(check_moves::specs::View::around, check_moves::specs::View::now, check_moves::specs::View::told))]
fn bind_own(state: &mut State, own: Option<Binding>) -> Result<(), NoMemory>
    ensures scope { OnOk result (scope state.new ≡ record (scope state.old) { names = option_to_list (option_map binding_view own) ++ (scope state.old).names }) }
    ensures env { OnOk result (env state.new ≡ record (env state.old) { scope = scope state.new }) }
    ensures follows { OnOk result (Follows None state.old None state.new) }
{
    match own {
        Some(own) => state.scope.bind(own),
        None => Ok(()),
    }
}

// One more function stands around, which is to return a type. Gives how many stood around before,
// and what the one around was to return.
#[tactic(auto, using(check_moves::proofs::Following::follows_scope), unfolding(check_moves::specs::View::around, check_moves::specs::View::now, check_moves::specs::View::told))]
fn enter_depth(
    state: &mut State,
    output: Option<FlowType>,
) -> Result<(usize, Option<FlowType>), NoMemory>
    ensures env { OnOk result (env state.new ≡ record (env state.old) { scope = record { names = (scope state.old).names; depth = suc (scope state.old).depth; result = output } }) }
    ensures depth { IfOk result (λ outer. outer.0 ≡ (scope state.old).depth) }
    ensures wanted { IfOk result (λ outer. outer.1 ≡ (scope state.old).result) }
    ensures follows { OnOk result (Follows None state.old None state.new) }
{
    let depth = state.scope.depth;
    let Some(inner) = depth.checked_add(1) else {
        return Err(NoMemory);
    };
    Ok((depth, state.scope.stand(inner, output)))
}

// Binds its own name and stands in it, as `enter_function` does, and gives what `enter_depth` does.
#[tactic(auto, using(crate::proofs::Outsides::names_entered, crate::proofs::Outsides::depth_before, crate::proofs::Outsides::wanted_before), unfolding(check_moves::specs::View::around, check_moves::specs::View::now, check_moves::specs::View::told))]
fn enter_names(
    state: &mut State,
    own: Option<Binding>,
    output: Option<FlowType>,
) -> Result<(usize, Option<FlowType>), NoMemory>
    ensures env { OnOk result (env state.new ≡ entered_env (option_map binding_view own) output (env state.old)) }
    ensures depth { IfOk result (λ outer. outer.0 ≡ (scope state.old).depth) }
    ensures wanted { IfOk result (λ outer. outer.1 ≡ (scope state.old).result) }
    ensures follows { OnOk result (Follows None state.old None state.new) }
{
    bind_own(state, own)?;
    let outer = enter_depth(state, output)?;
    Ok(outer)
}

/// Enters a function that is to return a type: it sees its own name, where it is an expression with
/// one, and keeps the facts on constant variables, or none.
///
/// # Errors
///
/// `NoMemory` where memory is refused.
#[tactic(auto, using(crate::proofs::Outsides::function_entered, crate::proofs::Outsides::is_outside), unfolding(check_moves::specs::View::around, check_moves::specs::View::now, check_moves::specs::View::told))]
pub fn enter_function(
    state: &mut State,
    own: Option<Binding>,
    keeps: bool,
    output: Option<FlowType>,
) -> Result<Outside, NoMemory>
    ensures env { OnOk result (env state.new ≡ function_env (option_map binding_view own) keeps output (env state.old)) }
    ensures outside { IfOk result (λ o. IsOutside o state.old state.new) }
{
    let height = state.scope.height();
    let mark = state.facts.begin_function(keeps)?;
    let returned = mem::replace(&mut state.returned, List::new(state.alloc));
    let breaks = state.breaks.take();
    let stopped = state.notes.is_stopped();
    let (depth, result) = enter_names(state, own, output)?;
    Ok(Outside {
        mark,
        height,
        depth,
        result,
        returned,
        breaks,
        stopped,
    })
}

/// Leaves a function, whose facts and names end with it, and gives the types that it returned.
///
/// # Errors
///
/// `NoMemory` where memory is refused. The state may only be dropped then.
#[tactic(auto, using(crate::proofs::Outsides::around_left, crate::proofs::Outsides::now_left), unfolding(check_moves::specs::View::around, check_moves::specs::View::now, check_moves::specs::View::told))]
pub fn leave_function(state: &mut State, outside: Outside) -> Result<List<FlowType>, NoMemory>
    requires { IsLast outside.mark state.old.facts }
    ensures returned { IfOk result (λ types. types ≡ (around state.old).returned) }
    ensures now { OnOk result ((before : State) → IsOutside outside before state.old → now state.new ≡ record { facts = known before.facts; notes = record (now state.old).notes { stopped = (now before).notes.stopped } }) }
    ensures around { OnOk result ((before : State) → IsOutside outside before state.old → around state.new ≡ around before) }
    ensures follows { OnOk result ((before : State) → IsOutside outside before state.old → Follows None before None state.new) }
{
    let Outside {
        mark,
        height,
        depth,
        result,
        returned,
        breaks,
        stopped,
    } = outside;
    state.facts.end_function(mark)?;
    leave_names(&mut state.scope, height, depth, result);
    state.breaks = breaks;
    state.notes.set_stopped(stopped);
    Ok(mem::replace(&mut state.returned, returned))
}
