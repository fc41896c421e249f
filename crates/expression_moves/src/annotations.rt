//! Annotations, and types behind `as`.
#![tactic(auto, unfolding(check_moves::specs::View::around, check_moves::specs::View::now, check_moves::specs::View::told))]

ghost use Rattle.std.specs.Prelude.{◌≡◌, None, OnOk, IfOk};
ghost use Rattle.std.specs.Option.{option_map};
ghost use Rattle.type_tree.specs.View.{type_view};
ghost use Rattle.check_world.specs.View.{world_view, notes_view};
ghost use Rattle.typing.specs.Forms.{cast_asked};
ghost use Rattle.typing.specs.States.{change_notes};
ghost use Rattle.typing.specs.TypeFaults.{annotated, annotation_read};
ghost use Rattle.fact_ways.specs.Ways.{Fits};
ghost use Rattle.check_moves.specs.View.{around, now, told};
ghost use Rattle.check_moves.specs.Follows.{Follows};
ghost use Rattle.expression_moves.specs.Moves.{cast_out};

use binders::annotated;
use check_moves::{Read, State};
use check_world::{Notes, World};
use flow_values::NoMemory;
use type_reads::{read_annotation, read_type};
use type_tree::TypeTree;
use type_values::FlowType;

/// Reads an annotation, and gives its type, if there is one.
///
/// # Errors
///
/// `NoMemory` where memory is refused.
#[tactic(auto, using(check_moves::proofs::Following::follows_notes), unfolding(check_moves::specs::View::around, check_moves::specs::View::now, check_moves::specs::View::told))]
pub fn read_annotated(
    world: &World<'_>,
    state: &mut State,
    annotation: &Option<TypeTree>,
) -> Result<Option<FlowType>, NoMemory>
    ensures ty { IfOk result (λ t. t ≡ annotated (world_view world.now) (option_map type_view annotation.now)) }
    ensures now { OnOk result (now state.new ≡ change_notes (annotation_read (world_view world.now) (option_map type_view annotation.now)) (now state.old)) }
    ensures around { OnOk result (around state.new ≡ around state.old) }
    ensures follows { OnOk result (Follows None state.old None state.new) }
{
    read_annotation(world, annotation, &mut state.notes)?;
    annotated(world, annotation)
}

// A part that is not the first of its chain is asked to be below the type behind `as`.
fn ask_cast(
    world: &World<'_>,
    tokens: (usize, usize),
    goes_on: bool,
    ty: &FlowType,
    left: &FlowType,
    notes: &mut Notes,
) -> Result<(), NoMemory>
    ensures { OnOk result (notes_view notes.new ≡ cast_asked (world_view world.now) tokens.0 tokens.1 goes_on ty.now left.now (notes_view notes.old)) }
{
    if !goes_on {
        return Ok(());
    }
    notes.ask(world, tokens.0, tokens.1, ty, left)
}

/// The type behind `as`; a part that is not the first was not read against it.
///
/// # Errors
///
/// `NoMemory` where memory is refused.
#[tactic(auto, using(check_moves::proofs::Following::follows_notes, check_moves::proofs::Following::follows_through), unfolding(check_moves::specs::View::around, check_moves::specs::View::now, check_moves::specs::View::told))]
pub fn read_cast(
    world: &World<'_>,
    state: &mut State,
    tree: &TypeTree,
    tokens: (usize, usize),
    goes_on: bool,
    left: Read,
) -> Result<Read, NoMemory>
    requires { Fits left.fork state.old.facts }
    ensures told { IfOk result (λ r. told r state.new ≡ cast_out (world_view world.now) tokens.0 tokens.1 (type_view tree.now) goes_on (told left state.old)) }
    ensures around { OnOk result (around state.new ≡ around state.old) }
    ensures follows { IfOk result (λ r. Follows left.fork state.old r.fork state.new) }
{
    let left = state.after(left)?;
    let ty = world.written(tree)?;
    read_type(world, tree, &mut state.notes)?;
    ask_cast(world, tokens, goes_on, &ty, &left, &mut state.notes)?;
    Ok(state.plainly(ty))
}
