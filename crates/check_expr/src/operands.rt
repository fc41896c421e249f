//! Chains of operators.
#![tactic(auto, using(crate::proofs::Steps::fits_of))]

ghost use Rattle.std.specs.Prelude.{◌≡◌, ◌<◌, ◌≤◌, ◌-◌, Option, true, None, Some, OnOk, IfOk, length, map, take, drop};
ghost use Rattle.std.specs.List.{slice_get};
ghost use Rattle.code_tree.specs.View.{expr_view, operand_view, operands_view, operand_form_view};
ghost use Rattle.code_tree.specs.declared.types.Operand.{Operand, out-Operand};
ghost use Rattle.check_world.specs.View.{world_view};
ghost use Rattle.flow_facts.specs.declared.place.Place.{Place};
ghost use Rattle.typing.specs.States.{noted_out};
ghost use Rattle.typing.specs.Forms.{first_want, place_before, nullish_now, nullish_out};
ghost use Rattle.typing.specs.Typing.{read, read_operands, read_operand};
ghost use Rattle.fact_ways.specs.Ways.{Fits};
ghost use Rattle.check_moves.specs.View.{around, scope, now, told};
ghost use Rattle.check_moves.specs.Follows.{Follows};
ghost use Rattle.check_expr.specs.Runs.{run_of, are_run, side_out};

use crate::expressions::read;
use check_moves::{Read, State};
use check_world::World;
use code_tree::{Expr, Operand, OperandForm, Operator};
use expression_moves::{
    begin_nullish, either_type, end_nullish, meet_left, part, read_cast, read_operator,
};
use flow_facts::Place;
use flow_values::NoMemory;
use type_values::FlowType;

/// The type that a chain's first part is read against: that behind its first operator, where it is
/// `as`.
#[tactic(auto, using(crate::proofs::Fronts::wants_none, crate::proofs::Fronts::wants_first), unfolding(code_tree::specs::View::operand_view, code_tree::specs::View::operand_form_view))]
pub(crate) fn first_want(
    world: &World<'_>,
    operands: &[Operand],
) -> Result<Option<FlowType>, NoMemory>
    ensures { IfOk result (λ want. want ≡ first_want (world_view world.now) (operands_view operands.now)) }
{
    let Some(operand) = operands.first() else {
        return Ok(None);
    };
    match &operand.form {
        OperandForm::As(tree) => Ok(Some(world.written(tree)?)),
        OperandForm::Right { .. } => Ok(None),
    }
}

// Whether an operand goes on a chain of `&&` (true) or of `||` (false).
#[tactic(auto, unfolding(code_tree::specs::View::operand_view, code_tree::specs::View::operand_form_view))]
fn run_of(operand: &Operand) -> Option<bool>
    ensures { result ≡ run_of (operand_view operand.now) }
{
    match &operand.form {
        OperandForm::Right { operator, side: _ } => match operator {
            Operator::And => Some(true),
            Operator::Or => Some(false),
            _ => None,
        },
        OperandForm::As(_) => None,
    }
}

// Where the operands end that go on a chain as the one at a place does.
#[tactic(auto, using(crate::proofs::Fronts::run_first, crate::proofs::Fronts::run_more, crate::proofs::Fronts::run_all))]
fn run_end(operands: &[Operand], at: usize, is_and: bool) -> usize
    requires within { at < length operands.now }
    requires first { (o : Operand) → slice_get operands.now at ≡ Some o → run_of (operand_view o) ≡ Some is_and }
    ensures run { are_run is_and (map operand_view (take (result - at) (drop at operands.now))) ≡ true }
    ensures within { result ≤ length operands.now }
    ensures some { at < result }
{
    for end in at + 1..operands.len() {
        if run_of(&operands[end]) != Some(is_and) {
            return end;
        }
    }
    operands.len()
}

/// The operands behind the first part of a chain, which begins at a token and may be a place.
#[cycle(reading)]
pub(crate) fn read_operands(
    world: &World<'_>,
    state: &mut State,
    operands: &[Operand],
    first: usize,
    place: Option<Place>,
    left: Read,
) -> Result<Read, NoMemory>
    requires { Fits left.fork state.old.facts }
    ensures told { IfOk result (λ r. told r state.new ≡ read_operands (world_view world.now) first (operands_view operands.now) place (scope state.old) (told left state.old)) }
    ensures around { OnOk result (around state.new ≡ around state.old) }
    ensures follows { IfOk result (λ r. Follows left.fork state.old r.fork state.new) }
{
    let mut place = place;
    let mut chain = left;
    let mut at = 0;
    while at < operands.len() {
        let operand = &operands[at];
        let Some(is_and) = run_of(operand) else {
            let before = (at > 0, place.take());
            chain = read_more(world, state, operand, first, before, chain)?;
            at += 1;
            continue;
        };
        let end = run_end(operands, at, is_and);
        chain = read_run(world, state, &operands[at..end], first, is_and, chain)?;
        at = end;
        place = None;
    }
    Ok(chain)
}

// The operands of `&&` (true) or `||` behind what was read. Each is read where all before it are
// truthy, or falsy; the ways meet once the last one was read, so that each change is looked at once.
#[cycle(reading)]
fn read_run(
    world: &World<'_>,
    state: &mut State,
    operands: &[Operand],
    first: usize,
    is_and: bool,
    left: Read,
) -> Result<Read, NoMemory>
    requires fits { Fits left.fork state.old.facts }
    requires run { are_run is_and (map operand_view operands.now) ≡ true }
    requires some { 0 < length operands.now }
    ensures told { (place : Option Place) → IfOk result (λ r. told r state.new ≡ read_operands (world_view world.now) first (operands_view operands.now) place (scope state.old) (told left state.old)) }
    ensures around { OnOk result (around state.new ≡ around state.old) }
    ensures follows { IfOk result (λ r. Follows left.fork state.old r.fork state.new) }
{
    let Read { mut ty, mut fork } = left;
    let mut ways = Vec::new(world.alloc);
    for i in 0..operands.len() {
        let operand = &operands[i];
        let way = part(state, is_and, fork)?;
        ways.push(way)?;
        let side = read_side(world, state, operand, is_and, ty)?;
        let chain = state.noted(world, first, operand.end, side)?;
        ty = chain.ty;
        fork = chain.fork;
    }
    let met = meet_left(state, is_and, fork, ways)?;
    Ok(Read { ty, fork: met })
}

// The right side of `&&` or `||`, with the type of the whole.
#[cycle(reading)]
fn read_side(
    world: &World<'_>,
    state: &mut State,
    operand: &Operand,
    is_and: bool,
    left: FlowType,
) -> Result<Read, NoMemory>
    requires { run_of (operand_view operand.now) ≡ Some is_and }
    ensures told { IfOk result (λ r. told r state.new ≡ side_out (world_view world.now) is_and (operand_view operand.now) left (scope state.old) (now state.old)) }
    ensures around { OnOk result (around state.new ≡ around state.old) }
    ensures follows { IfOk result (λ r. Follows None state.old r.fork state.new) }
{
    match &operand.form {
        OperandForm::Right { operator: _, side } => {
            let right = read(world, state, side, None)?;
            let ty = either_type(world, state, is_and, &left, right.ty)?;
            Ok(Read {
                ty,
                fork: right.fork,
            })
        }
        OperandForm::As(_) => Ok(state.plainly(left)),
    }
}

// Another operand, with the type of the chain up to it noted; whether the chain has operands already,
// and the place that it is, if it is one.
#[cycle(reading)]
fn read_more(
    world: &World<'_>,
    state: &mut State,
    operand: &Operand,
    first: usize,
    before: (bool, Option<Place>),
    left: Read,
) -> Result<Read, NoMemory>
    requires fits { Fits left.fork state.old.facts }
    requires other { run_of (operand_view operand.now) ≡ None }
    ensures told { (place : Option Place) → before.1 ≡ place_before before.0 place → IfOk result (λ r. told r state.new ≡ noted_out (world_view world.now) first (out-Operand operand.now).end (read_operand (world_view world.now) first (out-Operand operand.now).first (out-Operand operand.now).end (operand_form_view (out-Operand operand.now).form) before.0 place (scope state.old) (told left state.old))) }
    ensures around { OnOk result (around state.new ≡ around state.old) }
    ensures follows { IfOk result (λ r. Follows left.fork state.old r.fork state.new) }
{
    let read = read_operand(world, state, operand, first, before, left)?;
    let noted = state.noted(world, first, operand.end, read)?;
    Ok(noted)
}

// What another operand gives.
#[cycle(reading)]
fn read_operand(
    world: &World<'_>,
    state: &mut State,
    operand: &Operand,
    first: usize,
    before: (bool, Option<Place>),
    left: Read,
) -> Result<Read, NoMemory>
    requires fits { Fits left.fork state.old.facts }
    requires other { run_of (operand_view operand.now) ≡ None }
    ensures told { (place : Option Place) → before.1 ≡ place_before before.0 place → IfOk result (λ r. told r state.new ≡ read_operand (world_view world.now) first (out-Operand operand.now).first (out-Operand operand.now).end (operand_form_view (out-Operand operand.now).form) before.0 place (scope state.old) (told left state.old)) }
    ensures around { OnOk result (around state.new ≡ around state.old) }
    ensures follows { IfOk result (λ r. Follows left.fork state.old r.fork state.new) }
{
    let (goes_on, place) = before;
    match &operand.form {
        OperandForm::Right { operator, side } => match operator {
            Operator::Nullish => read_nullish(world, state, side, place, left),
            _ => {
                let left = state.after(left)?;
                let right = read(world, state, side, None)?;
                let tokens = (first, operand.first, operand.end);
                let both = read_operator(world, state, *operator, tokens, &left, right)?;
                Ok(both)
            }
        },
        OperandForm::As(tree) => read_cast(
            world,
            state,
            tree,
            (first, operand.first),
            goes_on,
            left,
        ),
    }
}

// The right side of `??`, where a place on the left is null or void.
#[cycle(reading)]
fn read_nullish(
    world: &World<'_>,
    state: &mut State,
    side: &Expr,
    place: Option<Place>,
    left: Read,
) -> Result<Read, NoMemory>
    requires { Fits left.fork state.old.facts }
    ensures told { IfOk result (λ r. told r state.new ≡ nullish_out (world_view world.now) (told left state.old) (read (world_view world.now) (expr_view side.now) (scope state.old) None (nullish_now (world_view world.now) place (told left state.old)))) }
    ensures around { OnOk result (around state.new ≡ around state.old) }
    ensures follows { IfOk result (λ r. Follows left.fork state.old r.fork state.new) }
{
    let (left, fork) = begin_nullish(world, state, place, left)?;
    let right = read(world, state, side, None)?;
    let both = end_nullish(world, state, &left, fork, right)?;
    Ok(both)
}
