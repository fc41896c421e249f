//! Variables, places and the tests of places.
#![tactic(auto, unfolding(check_moves::specs::View::around, check_moves::specs::View::now, check_moves::specs::View::told))]

ghost use Rattle.std.specs.Prelude.{◌≡◌, None, Some, OnOk, IfOk, if◌then◌else◌};
ghost use Rattle.std.specs.Option.{option_map};
ghost use Rattle.flow_facts.specs.declared.test.Test as test;
ghost use Rattle.scopes.specs.Rows.{kind_view};
ghost use Rattle.place_tests.specs.View.{comparison_view};
ghost use Rattle.code_tree.specs.Flat.{prefix_view, prefixes_view};
ghost use Rattle.typing.specs.Names.{Binding};
ghost use Rattle.typing.specs.Tests.{assume_on_property};
ghost use Rattle.typing.specs.States.{change_facts, assume, on_yes, plainly};
ghost use Rattle.typing.specs.Forms.{variable_place_of, maybe_place_out, variable_out, compared_out, swapped, signed_out, prefix_out, prefixes_out};
ghost use Rattle.typing.specs.Typing.{truth_out};
ghost use Rattle.check_world.specs.View.{world_view};
ghost use Rattle.fact_ways.specs.Ways.{Fits};
ghost use Rattle.check_moves.specs.View.{around, scope, now, told};
ghost use Rattle.check_moves.specs.Follows.{Follows};
ghost use Rattle.expression_moves.specs.Moves.{assume_by};

use check_moves::{Read, State};
use check_world::World;
use code_tree::{Prefix, PrefixMark};
use flow_facts::{Place, Test};
use flow_values::{Boxed, NoMemory, Text};
use part_steps::ask_number;
use place_tests::{Comparison, variable_place};
use scopes::{Meaning, Variable};
use type_values::FlowType;

// The place of a variable, where it has facts.
#[tactic(auto, using(crate::proofs::Stepping::place_known, crate::proofs::Stepping::no_place_known), unfolding(check_moves::specs::View::around, check_moves::specs::View::now, check_moves::specs::View::told))]
fn place_of(variable: Variable) -> Option<Place>
    ensures { (b : Binding) → variable.number ≡ b.number → kind_view variable.kind ≡ b.kind → result ≡ variable_place_of b }
{
    if variable.kind.has_facts() {
        Some(variable_place(variable.number))
    } else {
        None
    }
}

// The test that holds where a comparison is true, and the one that holds where it is false.
fn in_order(negated: bool, equal: Test, differ: Test) -> (Test, Test)
    ensures { result ≡ (if negated then differ else equal, if negated then equal else differ) }
{
    if negated {
        (differ, equal)
    } else {
        (equal, differ)
    }
}

/// Narrows a place that has a type by a test.
///
/// # Errors
///
/// `NoMemory` where memory is refused.
#[tactic(auto, using(check_moves::proofs::Following::follows_kept), unfolding(check_moves::specs::View::around, check_moves::specs::View::now, check_moves::specs::View::told, check_world::specs::View::world_view))]
pub fn assume(
    world: &World<'_>,
    state: &mut State,
    place: &Place,
    declared: &FlowType,
    test: &Test,
) -> Result<(), NoMemory>
    ensures now { OnOk result (now state.new ≡ change_facts (assume (world_view world.now) test.now place.now declared.now) (now state.old)) }
    ensures around { OnOk result (around state.new ≡ around state.old) }
    ensures follows { OnOk result (Follows None state.old None state.new) }
{
    state.facts.assume(world.table, place, declared, test)?;
    Ok(())
}

// Narrows a place by two opposite tests: by the first one where it is truthy, by the other one
// where it is falsy.
#[tactic(auto, using(crate::proofs::Ways::two_ways, check_moves::proofs::Following::follows_two, check_moves::proofs::Following::fits_under), unfolding(check_moves::specs::View::around, check_moves::specs::View::now, check_moves::specs::View::told))]
fn test_place(
    world: &World<'_>,
    state: &mut State,
    place: &Place,
    declared: &FlowType,
    ty: FlowType,
) -> Result<Read, NoMemory>
    ensures told { IfOk result (λ r. told r state.new ≡ record { ty = ty; yes = assume (world_view world.now) test.Truthy place.now declared.now (now state.old).facts; no = Some (assume (world_view world.now) test.Falsy place.now declared.now (now state.old).facts); notes = (now state.old).notes }) }
    ensures around { OnOk result (around state.new ≡ around state.old) }
    ensures follows { IfOk result (λ r. Follows None state.old r.fork state.new) }
{
    let fork = state.stand()?;
    assume(world, state, place, declared, &Test::Truthy)?;
    let fork = state.turn(fork)?;
    assume(world, state, place, declared, &Test::Falsy)?;
    Ok(Read {
        ty,
        fork: Some(fork),
    })
}

/// A type that may be that of a place: one that has no fact has this type, and it is narrowed by
/// truthy and falsy.
///
/// # Errors
///
/// `NoMemory` where memory is refused.
#[tactic(auto, using(crate::proofs::Stepping::place_read, check_moves::proofs::Following::follows_nothing), unfolding(check_moves::specs::View::around, check_moves::specs::View::now, check_moves::specs::View::told))]
pub fn read_place(
    world: &World<'_>,
    state: &mut State,
    place: Option<Place>,
    declared: FlowType,
) -> Result<Read, NoMemory>
    ensures told { IfOk result (λ r. told r state.new ≡ maybe_place_out (world_view world.now) place declared (now state.old)) }
    ensures around { OnOk result (around state.new ≡ around state.old) }
    ensures follows { IfOk result (λ r. Follows None state.old r.fork state.new) }
{
    let Some(place) = place else {
        return Ok(Read {
            ty: declared,
            fork: None,
        });
    };
    let ty = state.facts.type_at(&place, &declared)?;
    test_place(world, state, &place, &declared, ty)
}

/// A variable, at these tokens.
///
/// # Errors
///
/// `NoMemory` where memory is refused.
#[tactic(auto, using(crate::proofs::Stepping::variable_read, crate::proofs::Stepping::no_variable_read, check_moves::proofs::Following::follows_notes, check_moves::proofs::Following::follows_nothing), unfolding(check_moves::specs::View::around, check_moves::specs::View::now, check_moves::specs::View::told))]
pub fn read_variable(
    world: &World<'_>,
    state: &mut State,
    first: usize,
    end: usize,
    name: &Text,
) -> Result<Read, NoMemory>
    ensures told { IfOk result (λ r. told r state.new ≡ variable_out (world_view world.now) first end name.now (scope state.old) (now state.old)) }
    ensures around { OnOk result (around state.new ≡ around state.old) }
    ensures follows { IfOk result (λ r. Follows None state.old r.fork state.new) }
{
    match state.scope.meaning(name)? {
        Meaning::Variable(variable, declared) => read_place(
            world,
            state,
            place_of(variable),
            declared,
        ),
        Meaning::NoVariable(code) => {
            let fault = world.fault(first, end, code, name.share()?);
            state.notes.name_fault(fault)?;
            Ok(Read {
                ty: FlowType::Any,
                fork: None,
            })
        }
    }
}

/// `true` is never falsy, `false` never truthy.
///
/// # Errors
///
/// `NoMemory` where memory is refused.
#[tactic(auto, using(crate::proofs::Ways::truthy_alone, crate::proofs::Ways::falsy_alone, check_moves::proofs::Following::follows_under, check_moves::proofs::Following::follows_through, check_moves::proofs::Following::fits_under), unfolding(check_moves::specs::View::around, check_moves::specs::View::now, check_moves::specs::View::told))]
pub fn read_truth(state: &mut State, value: bool) -> Result<Read, NoMemory>
    ensures told { IfOk result (λ r. told r state.new ≡ truth_out value (now state.old)) }
    ensures around { OnOk result (around state.new ≡ around state.old) }
    ensures follows { IfOk result (λ r. Follows None state.old r.fork state.new) }
{
    let fork = state.stand()?;
    state.die();
    if value {
        return Ok(Read {
            ty: FlowType::BoolLit(value),
            fork: Some(fork),
        });
    }
    let fork = state.turn(fork)?;
    Ok(Read {
        ty: FlowType::BoolLit(value),
        fork: Some(fork),
    })
}

// A test of a property narrows its variable by the test on the property.
#[tactic(auto, using(check_moves::proofs::Following::follows_nothing), unfolding(check_moves::specs::View::around, check_moves::specs::View::now, check_moves::specs::View::told))]
fn assume_on_property(
    world: &World<'_>,
    state: &mut State,
    place: &Place,
    test: Test,
) -> Result<(), NoMemory>
    ensures now { OnOk result (now state.new ≡ change_facts (assume_on_property (world_view world.now) test place.now.binding place.now.prop) (now state.old)) }
    ensures around { OnOk result (around state.new ≡ around state.old) }
    ensures follows { OnOk result (Follows None state.old None state.new) }
{
    let Some(key) = &place.prop else {
        return Ok(());
    };
    let test = Test::OnProp {
        key: key.share()?,
        test: Boxed::new(state.alloc, test)?,
    };
    assume(
        world,
        state,
        &variable_place(place.binding),
        &FlowType::Any,
        &test,
    )
}

// The facts where a test of a comparison holds. One of a property with a literal narrows the
// variable too.
#[tactic(auto, using(crate::proofs::Stepping::literal_compared, crate::proofs::Stepping::plainly_compared, check_moves::proofs::Following::follows_through), unfolding(check_moves::specs::View::around, check_moves::specs::View::now, check_moves::specs::View::told))]
fn assume_compared(
    world: &World<'_>,
    state: &mut State,
    place: &Place,
    is_literal: bool,
    test: Test,
) -> Result<(), NoMemory>
    ensures now { OnOk result (now state.new ≡ change_facts (assume_by (world_view world.now) is_literal place.now test) (now state.old)) }
    ensures around { OnOk result (around state.new ≡ around state.old) }
    ensures follows { OnOk result (Follows None state.old None state.new) }
{
    assume(world, state, place, &FlowType::Any, &test)?;
    if is_literal {
        return assume_on_property(world, state, place, test);
    }
    Ok(())
}

// Goes on where an expression is truthy, and there alone.
#[tactic(auto, using(crate::proofs::Ways::yes_taken, check_moves::proofs::Following::follows_through), unfolding(check_moves::specs::View::around, check_moves::specs::View::now, check_moves::specs::View::told))]
fn go_on_yes(state: &mut State, read: Read) -> Result<FlowType, NoMemory>
    requires { Fits read.fork state.old.facts }
    ensures now { OnOk result (now state.new ≡ on_yes (told read state.old)) }
    ensures ty { IfOk result (λ ty. ty ≡ read.ty) }
    ensures around { OnOk result (around state.new ≡ around state.old) }
    ensures follows { OnOk result (Follows read.fork state.old None state.new) }
{
    let Read { ty, fork } = read;
    let fork = state.split(fork)?;
    state.take(fork)?;
    Ok(ty)
}

// Narrows a place by two tests of a comparison: by the first one where it is truthy, by the other
// one where it is falsy.
#[tactic(auto, using(crate::proofs::Ways::two_ways, check_moves::proofs::Following::follows_two, check_moves::proofs::Following::fits_under), unfolding(check_moves::specs::View::around, check_moves::specs::View::now, check_moves::specs::View::told))]
fn test_both(
    world: &World<'_>,
    state: &mut State,
    ty: FlowType,
    place: &Place,
    is_literal: bool,
    tests: (Test, Test),
) -> Result<Read, NoMemory>
    ensures told { IfOk result (λ r. told r state.new ≡ record { ty = ty; yes = assume_by (world_view world.now) is_literal place.now tests.0 (now state.old).facts; no = Some (assume_by (world_view world.now) is_literal place.now tests.1 (now state.old).facts); notes = (now state.old).notes }) }
    ensures around { OnOk result (around state.new ≡ around state.old) }
    ensures follows { IfOk result (λ r. Follows None state.old r.fork state.new) }
{
    let (holds, fails) = tests;
    let fork = state.stand()?;
    assume_compared(world, state, place, is_literal, holds)?;
    let fork = state.turn(fork)?;
    assume_compared(world, state, place, is_literal, fails)?;
    Ok(Read {
        ty,
        fork: Some(fork),
    })
}

// Narrows the place of a comparison where it is truthy and where it is falsy.
#[tactic(auto, using(crate::proofs::Stepping::compared_ways), unfolding(check_moves::specs::View::around, check_moves::specs::View::now, check_moves::specs::View::told))]
fn test_compared(
    world: &World<'_>,
    state: &mut State,
    ty: FlowType,
    comparison: Comparison,
) -> Result<Read, NoMemory>
    ensures told { IfOk result (λ r. told r state.new ≡ compared_out (world_view world.now) (Some (comparison_view comparison)) (plainly ty (now state.old))) }
    ensures around { OnOk result (around state.new ≡ around state.old) }
    ensures follows { IfOk result (λ r. Follows None state.old r.fork state.new) }
{
    let Comparison {
        place,
        equal,
        differ,
        is_literal,
        negated,
    } = comparison;
    let tests = in_order(negated, equal, differ);
    test_both(world, state, ty, &place, is_literal, tests)
}

/// A chain that compares a place tells of it where it is true and where it is false.
///
/// # Errors
///
/// `NoMemory` where memory is refused.
#[tactic(auto, using(crate::proofs::Stepping::compared_behind, check_moves::proofs::Following::follows_through), unfolding(check_moves::specs::View::around, check_moves::specs::View::now, check_moves::specs::View::told))]
pub fn compare_place(
    world: &World<'_>,
    state: &mut State,
    comparison: Option<Comparison>,
    read: Read,
) -> Result<Read, NoMemory>
    requires { Fits read.fork state.old.facts }
    ensures told { IfOk result (λ r. told r state.new ≡ compared_out (world_view world.now) (option_map comparison_view comparison) (told read state.old)) }
    ensures around { OnOk result (around state.new ≡ around state.old) }
    ensures follows { IfOk result (λ r. Follows read.fork state.old r.fork state.new) }
{
    match comparison {
        None => Ok(read),
        Some(comparison) => {
            let ty = go_on_yes(state, read)?;
            test_compared(world, state, ty, comparison)
        }
    }
}

// Yes and no change places.
#[tactic(auto, using(crate::proofs::Ways::ways_swapped), unfolding(check_moves::specs::View::around, check_moves::specs::View::now, check_moves::specs::View::told))]
fn swap_ways(state: &mut State, read: Read) -> Result<Read, NoMemory>
    requires { Fits read.fork state.old.facts }
    ensures told { IfOk result (λ r. told r state.new ≡ swapped (told read state.old)) }
    ensures around { OnOk result (around state.new ≡ around state.old) }
    ensures follows { IfOk result (λ r. Follows read.fork state.old r.fork state.new) }
{
    let Read { ty: _, fork } = read;
    let Some(fork) = fork else {
        return Ok(Read {
            ty: FlowType::Boolean,
            fork: None,
        });
    };
    let fork = state.turn(fork)?;
    Ok(Read {
        ty: FlowType::Boolean,
        fork: Some(fork),
    })
}

// `-` or `+` before what stands at these tokens.
#[tactic(auto, using(crate::proofs::Stepping::sign_read, check_moves::proofs::Following::follows_still), unfolding(check_moves::specs::View::around, check_moves::specs::View::now, check_moves::specs::View::told))]
fn sign(
    world: &World<'_>,
    state: &mut State,
    first: usize,
    end: usize,
    read: Read,
) -> Result<Read, NoMemory>
    requires { Fits read.fork state.old.facts }
    ensures told { IfOk result (λ r. told r state.new ≡ signed_out (world_view world.now) first end (told read state.old)) }
    ensures around { OnOk result (around state.new ≡ around state.old) }
    ensures follows { IfOk result (λ r. Follows read.fork state.old r.fork state.new) }
{
    let ty = state.after(read)?;
    ask_number(world, first, end, &ty, &mut state.notes)?;
    Ok(Read {
        ty: FlowType::Number,
        fork: None,
    })
}

// A mark before what stands at these tokens.
#[tactic(auto, using(crate::proofs::Stepping::kind_read, check_moves::proofs::Following::follows_through), unfolding(check_moves::specs::View::around, check_moves::specs::View::now, check_moves::specs::View::told))]
fn read_prefix(
    world: &World<'_>,
    state: &mut State,
    prefix: Prefix,
    first: usize,
    end: usize,
    read: Read,
) -> Result<Read, NoMemory>
    requires { Fits read.fork state.old.facts }
    ensures told { IfOk result (λ r. told r state.new ≡ prefix_out (world_view world.now) (prefix_view prefix) first end (told read state.old)) }
    ensures around { OnOk result (around state.new ≡ around state.old) }
    ensures follows { IfOk result (λ r. Follows read.fork state.old r.fork state.new) }
{
    match prefix {
        Prefix::Not => swap_ways(state, read),
        Prefix::TypeOf => {
            state.after(read)?;
            Ok(Read {
                ty: FlowType::Str,
                fork: None,
            })
        }
        Prefix::Minus | Prefix::Plus => sign(world, state, first, end, read),
    }
}

/// Marks before what stands at these tokens, the last one first.
///
/// # Errors
///
/// `NoMemory` where memory is refused.
#[tactic(auto, using(crate::proofs::Prefixing::marks_none, crate::proofs::Prefixing::marks_one, crate::proofs::Prefixing::marks_all))]
pub fn read_prefixes(
    world: &World<'_>,
    state: &mut State,
    marks: &[PrefixMark],
    first: usize,
    end: usize,
    read: Read,
) -> Result<Read, NoMemory>
    requires { Fits read.fork state.old.facts }
    ensures told { IfOk result (λ r. told r state.new ≡ prefixes_out (world_view world.now) (prefixes_view marks.now) first end (told read state.old)) }
    ensures around { OnOk result (around state.new ≡ around state.old) }
    ensures follows { IfOk result (λ r. Follows read.fork state.old r.fork state.new) }
{
    let mut read = read;
    let mut from = first;
    let mut i = marks.len();
    while i > 0 {
        i -= 1;
        let mark = marks[i];
        read = read_prefix(world, state, mark.prefix, from, end, read)?;
        from = mark.at;
        read = state.noted(world, from, end, read)?;
    }
    Ok(read)
}
