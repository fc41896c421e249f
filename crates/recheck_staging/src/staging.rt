ghost use Rattle.std.specs.Prelude.{◌≡◌, ◌<◌, ◌^◌, true, length, get_or, Some, OnOk};
ghost use Rattle.std.specs.List.{AllByRecursion};
ghost use Rattle.std.specs.Arc.{arc_value};
ghost use Rattle.heap_core.specs.Meaning.{AllFit, none_of, staging};
ghost use Rattle.heap_core.specs.Transactions.{IsStaging, all_staged};
ghost use Rattle.check_phases.specs.payloads.specs.Entities.{errors_entity};
ghost use Rattle.check_phases.specs.payloads.specs.State.{IsRoot, fits};
ghost use Rattle.check_phases.specs.payloads.specs.declared.payload.Payload.TheVariants as payload;
ghost use Rattle.check_phases.specs.Whole.{AreMade};
ghost use Rattle.recheck_staging.specs.Staging.{flagged_one, flagged, vacated_row, vacated, parts_of, changes_of, state_of, HasState, KeepsTheRest, Frees, HaveSizes};

use check_phases::Made;
use check_phases::payloads::{Payload, deps_entity, errors_entity, parse_entity, signature_entity};
use check_values::RootRow;
use flow_values::NoMemory;
use heap_core::HeapWriter;
use result_parts::Part;
use std::alloc::Global;
use std::sync::Arc;

/// Which of the results of each module were made anew.
#[derive(Drop)]
pub struct Anew {
    /// What its source says by itself.
    pub fresh: Vec<bool>,
    /// Its dependency list.
    pub relisted: Vec<bool>,
    /// Its merged signature.
    pub moved: Vec<bool>,
    /// Its errors.
    pub checked: Vec<bool>,
}

// Stages one payload.
#[tactic(auto, using(crate::proofs::Steps::staging_either, crate::proofs::Steps::still_open, crate::proofs::Steps::same_size))]
fn stage<W: HeapWriter<Payload>>(
    writer: &mut W,
    entity: u32,
    payload: Arc<Payload>,
) -> Result<(), NoMemory>
    requires is_open { (W.meaning writer.old).is_open ≡ true }
    requires within { entity < length (W.meaning writer.old).committed }
    ensures ok { OnOk result (W.meaning writer.new ≡ staging entity (arc_value payload) (W.meaning writer.old)) }
    ensures staging { IsStaging (W.meaning writer.old) (W.meaning writer.new) }
    ensures is_open { (W.meaning writer.new).is_open ≡ true }
    ensures size { length (W.meaning writer.new).committed ≡ length (W.meaning writer.old).committed }
    ensures told { W.told writer.new ≡ W.told writer.old }
    ensures part { W.part writer.new ≡ W.part writer.old }
{
    writer.stage(entity, payload)
}

// Stages a result of the module of a row, where it was made anew.
#[tactic(auto, using(crate::proofs::Steps::one_flagged, crate::proofs::Steps::none_flagged, crate::proofs::Steps::staging_none))]
fn stage_one<W: HeapWriter<Payload>, P: Part>(
    alloc: Global,
    writer: &mut W,
    row: u32,
    part: &P,
    flag: bool,
) -> Result<(), NoMemory>
    requires is_open { (W.meaning writer.old).is_open ≡ true }
    requires within { errors_entity row < length (W.meaning writer.old).committed }
    requires numbered { length (W.meaning writer.old).committed < 2 ^ 32 }
    ensures ok { OnOk result (W.meaning writer.new ≡ all_staged (flagged_one P.place P.put row part.now flag) (W.meaning writer.old)) }
    ensures staging { IsStaging (W.meaning writer.old) (W.meaning writer.new) }
    ensures is_open { (W.meaning writer.new).is_open ≡ true }
    ensures size { length (W.meaning writer.new).committed ≡ length (W.meaning writer.old).committed }
    ensures told { W.told writer.new ≡ W.told writer.old }
    ensures part { W.part writer.new ≡ W.part writer.old }
{
    if flag {
        let payload = Arc::new(alloc, part.payload()?)?;
        stage(writer, P::entity(row), payload)?;
    }
    Ok(())
}

// Stages the results of one kind that were made anew.
fn stage_parts<W: HeapWriter<Payload>, P: Part>(
    alloc: Global,
    writer: &mut W,
    modules: &[RootRow],
    parts: &[P],
    flags: &[bool],
) -> Result<(), NoMemory>
    requires is_open { (W.meaning writer.old).is_open ≡ true }
    requires within { AllByRecursion (λ m. errors_entity m.row < length (W.meaning writer.old).committed) modules.now }
    requires numbered { length (W.meaning writer.old).committed < 2 ^ 32 }
    requires parts { length parts.now ≡ length modules.now }
    requires flags { length flags.now ≡ length modules.now }
    ensures ok { OnOk result (W.meaning writer.new ≡ all_staged (flagged P.place P.put modules.now parts.now flags.now) (W.meaning writer.old)) }
    ensures staging { IsStaging (W.meaning writer.old) (W.meaning writer.new) }
    ensures is_open { (W.meaning writer.new).is_open ≡ true }
    ensures size { length (W.meaning writer.new).committed ≡ length (W.meaning writer.old).committed }
    ensures told { W.told writer.new ≡ W.told writer.old }
    ensures part { W.part writer.new ≡ W.part writer.old }
{
    for i in 0..modules.len() {
        let module = &modules[i];
        let part = &parts[i];
        let flag = &flags[i];
        stage_one(alloc, writer, module.row, part, *flag)?;
    }
    Ok(())
}

// Stages nothing at the entities of a row.
#[tactic(auto, using(crate::proofs::Steps::staging_none))]
fn vacate<W: HeapWriter<Payload>>(
    writer: &mut W,
    row: u32,
    absent: &Arc<Payload>,
) -> Result<(), NoMemory>
    requires is_open { (W.meaning writer.old).is_open ≡ true }
    requires within { errors_entity row < length (W.meaning writer.old).committed }
    requires numbered { length (W.meaning writer.old).committed < 2 ^ 32 }
    requires absent { arc_value absent.now ≡ payload.Absent }
    ensures ok { OnOk result (W.meaning writer.new ≡ all_staged (vacated_row row) (W.meaning writer.old)) }
    ensures staging { IsStaging (W.meaning writer.old) (W.meaning writer.new) }
    ensures is_open { (W.meaning writer.new).is_open ≡ true }
    ensures size { length (W.meaning writer.new).committed ≡ length (W.meaning writer.old).committed }
    ensures told { W.told writer.new ≡ W.told writer.old }
    ensures part { W.part writer.new ≡ W.part writer.old }
{
    let parse = Arc::try_clone(absent)?;
    let deps = Arc::try_clone(absent)?;
    let signature = Arc::try_clone(absent)?;
    let errors = Arc::try_clone(absent)?;
    stage(writer, parse_entity(row), parse)?;
    stage(writer, deps_entity(row), deps)?;
    stage(writer, signature_entity(row), signature)?;
    stage(writer, errors_entity(row), errors)?;
    Ok(())
}

// Stages nothing at the entities of some rows.
fn vacate_all<W: HeapWriter<Payload>>(
    alloc: Global,
    writer: &mut W,
    rows: &[u32],
) -> Result<(), NoMemory>
    requires is_open { (W.meaning writer.old).is_open ≡ true }
    requires within { AllByRecursion (λ row. errors_entity row < length (W.meaning writer.old).committed) rows.now }
    requires numbered { length (W.meaning writer.old).committed < 2 ^ 32 }
    ensures ok { OnOk result (W.meaning writer.new ≡ all_staged (vacated rows.now) (W.meaning writer.old)) }
    ensures staging { IsStaging (W.meaning writer.old) (W.meaning writer.new) }
    ensures is_open { (W.meaning writer.new).is_open ≡ true }
    ensures size { length (W.meaning writer.new).committed ≡ length (W.meaning writer.old).committed }
    ensures told { W.told writer.new ≡ W.told writer.old }
    ensures part { W.part writer.new ≡ W.part writer.old }
{
    let absent = Arc::new(alloc, Payload::Absent)?;
    for i in 0..rows.len() {
        vacate(writer, rows[i], &absent)?;
    }
    Ok(())
}

// Stages the results that were made anew.
fn stage_modules<W: HeapWriter<Payload>>(
    alloc: Global,
    writer: &mut W,
    made: &Made,
    anew: &Anew,
) -> Result<(), NoMemory>
    requires is_open { (W.meaning writer.old).is_open ≡ true }
    requires numbered { length (W.meaning writer.old).committed < 2 ^ 32 }
    requires root { IsRoot (length (W.meaning writer.old).committed) made.now.sources.root }
    requires sizes { HaveSizes made.now anew.now }
    ensures ok { OnOk result (W.meaning writer.new ≡ all_staged (parts_of made.now anew.now) (W.meaning writer.old)) }
    ensures staging { IsStaging (W.meaning writer.old) (W.meaning writer.new) }
    ensures is_open { (W.meaning writer.new).is_open ≡ true }
    ensures size { length (W.meaning writer.new).committed ≡ length (W.meaning writer.old).committed }
    ensures told { W.told writer.new ≡ W.told writer.old }
    ensures part { W.part writer.new ≡ W.part writer.old }
{
    let root = made.sources.root.get();
    let modules = root.modules.as_slice();
    let parses = made.sources.parses.as_slice();
    let lists = made.sources.lists.as_slice();
    let signatures = made.signatures.as_slice();
    let errors = made.errors.as_slice();
    let fresh = anew.fresh.as_slice();
    let relisted = anew.relisted.as_slice();
    let moved = anew.moved.as_slice();
    let checked = anew.checked.as_slice();
    stage_parts(alloc, writer, modules, parses, fresh)?;
    stage_parts(alloc, writer, modules, lists, relisted)?;
    stage_parts(alloc, writer, modules, signatures, moved)?;
    stage_parts(alloc, writer, modules, errors, checked)?;
    Ok(())
}

/// Stages what differs: the root, of each module the results that were made anew, and nothing at the freed rows. What was not made
/// anew is what is committed at the entity of its row; so the latest state is that of all results, and it fits where these are a
/// full check. Exactly the entities of `changes_of` are staged.
///
/// # Errors
///
/// `NoMemory` where memory is refused. Some of them may be staged then.
#[tactic(auto, using(crate::proofs::Steps::staging_none))]
pub fn stage_anew<W: HeapWriter<Payload>>(
    alloc: Global,
    writer: &mut W,
    made: &Made,
    anew: &Anew,
    freed: &[u32],
) -> Result<(), NoMemory>
    requires is_open { (W.meaning writer.old).is_open ≡ true }
    requires bare { (W.meaning writer.old).staged ≡ none_of (W.meaning writer.old).staged }
    requires numbered { length (W.meaning writer.old).committed < 2 ^ 32 }
    requires root { IsRoot (length (W.meaning writer.old).committed) made.now.sources.root }
    requires kept { KeepsTheRest (W.meaning writer.old).committed made.now anew.now }
    requires freed { Frees (W.meaning writer.old).committed made.now.sources.root freed.now }
    ensures ok { OnOk result (W.meaning writer.new ≡ all_staged (changes_of made.now anew.now freed.now) (W.meaning writer.old)) }
    ensures state { OnOk result (HasState (state_of made.now) (W.meaning writer.new).latest) }
    ensures fit { OnOk result (∥ AreMade made.now ∥₁ → AllFit fits (W.meaning writer.new).latest) }
    ensures staging { IsStaging (W.meaning writer.old) (W.meaning writer.new) }
    ensures is_open { (W.meaning writer.new).is_open ≡ true }
    ensures told { W.told writer.new ≡ W.told writer.old }
    ensures part { W.part writer.new ≡ W.part writer.old }
{
    let root = Arc::new(alloc, Payload::Root(made.sources.root.share()?))?;
    stage(writer, 0, root)?;
    stage_modules(alloc, writer, made, anew)?;
    vacate_all(alloc, writer, freed)?;
    Ok(())
}
