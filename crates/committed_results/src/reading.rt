//! What stands at the entities of the modules.
ghost use Rattle.std.specs.Prelude.{◌≡◌, ◌<◌, ◌^◌, true, IfOk, length, slice_get, Some};
ghost use Rattle.std.specs.Arc.{arc_value};
ghost use Rattle.std.specs.List.{AllByRecursion};
ghost use Rattle.heap_core.specs.Meaning.{none_of};
ghost use Rattle.state_law.specs.payloads.specs.Entities.{errors_entity};
ghost use Rattle.state_law.specs.payloads.specs.declared.payload.Payload.TheVariants as the_payload;
ghost use Rattle.recheck_staging.specs.check_phases.specs.Whole.{AreMade};
ghost use Rattle.recheck_staging.specs.Staging.{state_of, HasState};
ghost use Rattle.committed_results.specs.Held.{is_root, IsOfKind, AreHeld};

use check_values::{Deps, Errs, Root, RootRow, Sig};
use export_counts::source_front::Parse;
use flow_values::{NoMemory, Shared};
use heap_core::HeapWriter;
use recheck_staging::check_phases::{Made, Sources};
use recheck_staging::result_parts::Part;
use state_law::payloads::Payload;
use std::alloc::Global;
use std::sync::Arc;

// The committed payload of an entity, where nothing is staged.
fn committed<W: HeapWriter<Payload>>(writer: &W, entity: u32) -> Result<Arc<Payload>, NoMemory>
    requires bare { (W.meaning writer.now).staged ≡ none_of (W.meaning writer.now).staged }
    requires within { entity < length (W.meaning writer.now).committed }
    ensures { IfOk result (λ payload. slice_get (W.meaning writer.now).committed entity ≡ Some (arc_value payload)) }
{
    writer.latest(entity)
}

// The root that a payload is.
fn root_in(held: &Payload) -> Result<Shared<Root>, NoMemory>
    requires { is_root held.now ≡ true }
    ensures { IfOk result (λ root. held.now ≡ the_payload.Root root) }
{
    match held {
        Payload::Root(root) => root.share(),
        _ => unreachable!(),
    }
}

// The committed root.
#[tactic(auto, using(crate::proofs::Taken::root_held))]
fn root_of<W: HeapWriter<Payload>>(writer: &W) -> Result<Shared<Root>, NoMemory>
    requires bare { (W.meaning writer.now).staged ≡ none_of (W.meaning writer.now).staged }
    ensures { IfOk result (λ root. slice_get (W.meaning writer.now).committed 0 ≡ Some (the_payload.Root root)) }
{
    let held = committed(writer, 0)?;
    let root = root_in(&held)?;
    Ok(root)
}

// The result of one kind of the module of a row.
#[tactic(auto, using(crate::proofs::Taken::kind_there, crate::proofs::Taken::part_held))]
fn part_of<W: HeapWriter<Payload>, P: Part>(writer: &W, row: u32) -> Result<P, NoMemory>
    requires bare { (W.meaning writer.now).staged ≡ none_of (W.meaning writer.now).staged }
    requires within { errors_entity row < length (W.meaning writer.now).committed }
    requires numbered { length (W.meaning writer.now).committed < 2 ^ 32 }
    requires kind { IsOfKind P.is_of (W.meaning writer.now).committed (P.place row) }
    ensures { IfOk result (λ part. slice_get (W.meaning writer.now).committed (P.place row) ≡ Some (P.put part)) }
{
    let entity = P::entity(row);
    let held = committed(writer, entity)?;
    let part = P::read(&held)?;
    Ok(part)
}

// The results of one kind of the modules.
#[tactic(auto, using(crate::proofs::Taken::held_all))]
fn parts_of<W: HeapWriter<Payload>, P: Part>(
    alloc: Global,
    writer: &W,
    modules: &[RootRow],
) -> Result<Vec<P>, NoMemory>
    requires bare { (W.meaning writer.now).staged ≡ none_of (W.meaning writer.now).staged }
    requires within { AllByRecursion (λ m. errors_entity m.row < length (W.meaning writer.now).committed) modules.now }
    requires numbered { length (W.meaning writer.now).committed < 2 ^ 32 }
    requires kinds { AllByRecursion (λ m. IsOfKind P.is_of (W.meaning writer.now).committed (P.place m.row)) modules.now }
    ensures { IfOk result (λ parts. AreHeld (W.meaning writer.now).committed P.place P.put modules.now parts.items) }
{
    let mut parts = Vec::new(alloc);
    for i in 0..modules.len() {
        let module = &modules[i];
        let part = part_of(writer, module.row)?;
        parts.push(part)?;
    }
    Ok(parts)
}

/// All results of the committed program, where nothing is staged: the modules of the committed root, with the four results of each,
/// shared with the heap. They are the full check of that program, and give the payload of each entity. It takes time in proportion to
/// the modules.
///
/// # Errors
///
/// `NoMemory` where memory is refused.
pub fn committed_results<W: HeapWriter<Payload>>(
    alloc: Global,
    writer: &W,
) -> Result<Made, NoMemory>
    requires bare { (W.meaning writer.now).staged ≡ none_of (W.meaning writer.now).staged }
    ensures made { IfOk result AreMade }
    ensures held { IfOk result (λ made. HasState (state_of made) (W.meaning writer.now).committed) }
{
    full_law::program_check::one_full();
    full_law::each_full();
    full_law::each_module_has_a_tree();
    state_law::each_state_has_a_check();
    export_counts::few_exports();
    merged_signatures::few_exports();
    let root = root_of(writer)?;
    let modules = root.get().modules.as_slice();
    let parses: Vec<Shared<Parse>> = parts_of(alloc, writer, modules)?;
    let lists: Vec<Shared<Deps>> = parts_of(alloc, writer, modules)?;
    let signatures: Vec<Shared<Sig>> = parts_of(alloc, writer, modules)?;
    let errors: Vec<Shared<Errs>> = parts_of(alloc, writer, modules)?;
    Ok(Made {
        sources: Sources {
            root,
            parses,
            lists,
        },
        signatures,
        errors,
    })
}
