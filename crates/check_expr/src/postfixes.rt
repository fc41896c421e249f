//! Properties, indices and calls.
#![tactic(auto, using(crate::proofs::Steps::fits_of))]

ghost use Rattle.std.specs.Prelude.{◌≡◌, ℕ, None, OnOk, IfOk};
ghost use Rattle.std.specs.Option.{option_copied};
ghost use Rattle.code_tree.specs.View.{postfix_expr_view, exprs_view, links_view, link_form_view};
ghost use Rattle.code_tree.specs.declared.types.Link.{out-Link};
ghost use Rattle.member_steps.specs.View.{arguments_view};
ghost use Rattle.typing.specs.Members.{levels, one_function};
ghost use Rattle.typing.specs.Typing.{read_form, read_links, read_link, read_args, arg_want};
ghost use Rattle.fact_ways.specs.Ways.{Fits};
ghost use Rattle.check_world.specs.View.{world_view};
ghost use Rattle.check_moves.specs.View.{around, scope, now, told};
ghost use Rattle.check_moves.specs.Follows.{Follows};

use crate::expressions::read;
use check_moves::{Read, State};
use check_world::World;
use code_tree::{Expr, Link, LinkForm, PostfixExpr};
use expression_moves::{read_called, read_element, read_member};
use flow_facts::Place;
use flow_values::{List, NoMemory};
use member_steps::{Argument, one_function, param_at};
use place_tests::{step_place, variable_in};
use type_values::{FlowType, Param};

/// An expression and its links, which begin at a token.
#[cycle(reading)]
pub(crate) fn read_postfix(
    world: &World<'_>,
    state: &mut State,
    e: &PostfixExpr,
    first: usize,
) -> Result<Read, NoMemory>
    ensures told { (end : ℕ) → IfOk result (λ r. told r state.new ≡ read_form (world_view world.now) first end (postfix_expr_view e.now) (scope state.old) None (now state.old)) }
    ensures around { OnOk result (around state.new ≡ around state.old) }
    ensures follows { IfOk result (λ r. Follows None state.old r.fork state.new) }
{
    let inner = e.base.get();
    let from = variable_in(&state.scope, inner);
    let base = read(world, state, inner, None)?;
    let chain = read_links(world, state, e.links.as_slice(), first, from, base)?;
    Ok(chain)
}

/// Links behind an expression that was read, which begins at a token and may be a variable.
#[cycle(reading)]
pub(crate) fn read_links(
    world: &World<'_>,
    state: &mut State,
    links: &[Link],
    first: usize,
    from: Option<u32>,
    base: Read,
) -> Result<Read, NoMemory>
    requires { Fits base.fork state.old.facts }
    ensures told { IfOk result (λ r. told r state.new ≡ read_links (world_view world.now) first (links_view links.now) from (scope state.old) (told base state.old)) }
    ensures around { OnOk result (around state.new ≡ around state.old) }
    ensures follows { IfOk result (λ r. Follows base.fork state.old r.fork state.new) }
{
    let mut chain = base;
    for i in 0..links.len() {
        let link = &links[i];
        let place = step_place(from, &links[..i + 1])?;
        let read = read_link(world, state, link, first, place, chain)?;
        chain = state.noted(world, first, link.end, read)?;
    }
    Ok(chain)
}

// A link behind an expression that begins at a token.
#[cycle(reading)]
fn read_link(
    world: &World<'_>,
    state: &mut State,
    link: &Link,
    first: usize,
    place: Option<Place>,
    object: Read,
) -> Result<Read, NoMemory>
    requires { Fits object.fork state.old.facts }
    ensures told { IfOk result (λ r. told r state.new ≡ read_link (world_view world.now) first (out-Link link.now).first (out-Link link.now).end (link_form_view (out-Link link.now).form) place (scope state.old) (told object state.old)) }
    ensures around { OnOk result (around state.new ≡ around state.old) }
    ensures follows { IfOk result (λ r. Follows object.fork state.old r.fork state.new) }
{
    let tokens = (first, link.first, link.end);
    match &link.form {
        LinkForm::Member(key) => read_member(world, state, tokens, key, place, object),
        LinkForm::Index(index) => {
            let object_type = state.after(object)?;
            let index = read(world, state, index, None)?;
            let element = read_element(world, state, tokens, &object_type, index)?;
            Ok(element)
        }
        LinkForm::Call {
            arguments,
            comma: _,
        } => {
            let callee_type = state.after(object)?;
            let given = read_called_with(&*world, state, arguments.as_slice(), &callee_type)?;
            let called = read_called(world, state, tokens, &callee_type, given.as_slice())?;
            Ok(called)
        }
    }
}

// The type that the k-th argument is read against.
fn argument_want(
    world: &World<'_>,
    params: Option<&[Param]>,
    k: usize,
) -> Result<Option<FlowType>, NoMemory>
    ensures { IfOk result (λ want. want ≡ arg_want (option_copied params.entry) k) }
{
    match params {
        Some(params) => param_at(world, params, k),
        None => Ok(None),
    }
}

// The arguments of a call, against the parameters of the one function.
#[cycle(reading)]
fn read_called_with<'t>(
    world: &'t World<'_>,
    state: &mut State,
    arguments: &[Expr],
    callee_type: &'t FlowType,
) -> Result<List<Argument>, NoMemory>
    ensures read { IfOk result (λ given. record { args = arguments_view given; now = now state.new } ≡ read_args (world_view world.now) (exprs_view arguments.now) (scope state.old) (one_function (levels (world_view world.now) callee_type.now)) (now state.old)) }
    ensures around { OnOk result (around state.new ≡ around state.old) }
    ensures follows { OnOk result (Follows None state.old None state.new) }
{
    let members = world.members(callee_type)?;
    let params = one_function(members.as_slice());
    let given = read_arguments(world, state, arguments, params)?;
    Ok(given)
}

// Arguments, in order, against parameters, if they are told.
#[cycle(reading)]
fn read_arguments(
    world: &World<'_>,
    state: &mut State,
    arguments: &[Expr],
    params: Option<&[Param]>,
) -> Result<List<Argument>, NoMemory>
    ensures read { IfOk result (λ given. record { args = arguments_view given; now = now state.new } ≡ read_args (world_view world.now) (exprs_view arguments.now) (scope state.old) (option_copied params.entry) (now state.old)) }
    ensures around { OnOk result (around state.new ≡ around state.old) }
    ensures follows { OnOk result (Follows None state.old None state.new) }
{
    let mut given = List::new(world.alloc);
    for k in 0..arguments.len() {
        let argument = &arguments[k];
        let want = argument_want(world, params, k)?;
        let read = read(&*world, state, argument, want.as_ref())?;
        let ty = state.after(read)?;
        let (first, end) = (argument.first, argument.end);
        given.push(Argument { first, end, ty })?;
    }
    Ok(given)
}
