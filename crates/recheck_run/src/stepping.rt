//! One stage of work.
ghost use Rattle.std.specs.Prelude.{◌≡◌, ◌<◌, true, IfOk, length, map};
ghost use Rattle.heap_core.specs.Meaning.{none_of};
ghost use Rattle.heap_core.specs.Transactions.{IsStaging};
ghost use Rattle.recheck_reach.specs.analyst.specs.Work.{Work, IsCounted};
ghost use Rattle.recheck_run.specs.Stages.{IsBase, IsBaseIn, Holds, IsMerging, IsChecking};
ghost use Rattle.recheck_run.specs.Steps.{HoldsNext, StepsOn, LeadsOn};
ghost use Rattle.recheck_run.specs.declared.stages.Stage.TheVariants as stage;
ghost use Rattle.recheck_reach.specs.work_totals.specs.Totals.{total};

use crate::checking::begin_checks;
use crate::laws::{counted, reach_laws};
use crate::merging::list_all;
use crate::stages::{Base, Checking, Merging, Next, Stage};
use crate::staging::stage_all;
use committed_results::source_front::Parse;
use flow_values::{NoMemory, Shared};
use heap_core::HeapWriter;
use recheck_checking::check_batch;
use recheck_checking::payloads::Payload;
use recheck_reach::analyst::Analyst;
use recheck_reach::recheck_merging::{Edit, merge_wave};
use recheck_reach::recheck_sources::edited_parses;
use std::alloc::Global;
use std::sync::Wait;
use std::thread::Threads;

// The sources that are new or differ are read.
fn front_next<R: Threads + Wait + Sync, A: Analyst + Send>(
    rt: &R,
    alloc: Global,
    analysts: &mut [A],
    base: &Base,
) -> Result<Stage, NoMemory>
    requires some { 0 < length analysts.old }
    requires base { IsBase base.now }
    ensures holds { IfOk result (Holds base.now) }
    ensures steps { StepsOn base.now stage.Fronts result (total (map A.work analysts.old)) (total (map A.work analysts.new)) }
    ensures many { length analysts.new ≡ length analysts.old }
{
    counted(&*analysts);
    reach_laws();
    let root = base.root.get();
    let from = base.from.as_slice();
    let fresh = base.fresh.as_slice();
    let parses = edited_parses(rt, alloc, analysts, &base.was.sources, root, from, fresh)?;
    Ok(Stage::Lists { parses })
}

// The dependency lists are made, and it is planned what is merged.
fn list_next(alloc: Global, base: &Base, parses: Vec<Shared<Parse>>) -> Result<Stage, NoMemory>
    requires base { IsBase base.now }
    requires holds { Holds base.now (stage.Lists parses) }
    ensures holds { IfOk result (Holds base.now) }
    ensures steps { (work : Work) → IsCounted work → StepsOn base.now (stage.Lists parses) result work work }
{
    reach_laws();
    committed_results::program_check::one_full();
    recheck_reach::recheck_merging::plans_are_of_merged();
    let merging = list_all(alloc, base, parses)?;
    Ok(Stage::Merges(merging))
}

// A wave is merged.
fn merge_next<R: Threads + Wait + Sync, A: Analyst + Send>(
    rt: &R,
    alloc: Global,
    analysts: &mut [A],
    base: &Base,
    mut merging: Merging,
) -> Result<Stage, NoMemory>
    requires some { 0 < length analysts.old }
    requires base { IsBase base.now }
    requires merging { IsMerging base.now merging }
    requires low { merging.wave < length merging.plan.waves }
    ensures holds { IfOk result (Holds base.now) }
    ensures steps { StepsOn base.now (stage.Merges merging) result (total (map A.work analysts.old)) (total (map A.work analysts.new)) }
    ensures many { length analysts.new ≡ length analysts.old }
{
    reach_laws();
    recheck_reach::recheck_merging::members_add_up();
    let wave = merging.wave;
    let edit = Edit {
        was: &base.was,
        from: base.from.as_slice(),
        touched: merging.touched.as_slice(),
        sources: &merging.listed.sources,
        plan: &merging.plan,
    };
    merge_wave(
        rt,
        alloc,
        analysts,
        &edit,
        wave,
        &mut merging.slots,
        merging.same.as_mut_slice(),
    )?;
    merging.wave = wave + 1;
    Ok(Stage::Merges(merging))
}

// The next modules are checked, at most 64.
fn check_more<R: Threads + Wait + Sync, A: Analyst + Send>(
    rt: &R,
    alloc: Global,
    analysts: &mut [A],
    base: &Base,
    mut checking: Checking,
) -> Result<Stage, NoMemory>
    requires some { 0 < length analysts.old }
    requires checking { IsChecking base.now checking }
    requires low { checking.done < length checking.checked }
    ensures holds { IfOk result (Holds base.now) }
    ensures steps { StepsOn base.now (stage.Checks checking) result (total (map A.work analysts.old)) (total (map A.work analysts.new)) }
    ensures many { length analysts.new ≡ length analysts.old }
{
    counted(&*analysts);
    let done = checking.done;
    let numbers = checking.checked.as_slice();
    let end = usize::min(numbers.len(), done + 64);
    let signatures = checking.signatures.as_slice();
    check_batch(
        rt,
        alloc,
        analysts,
        &checking.sources,
        signatures,
        &checking.table,
        numbers,
        done,
        &mut checking.errors,
    )?;
    checking.done = end;
    Ok(Stage::Checks(checking))
}

// The next modules are checked; behind the last one all is staged.
fn check_next<R: Threads + Wait + Sync, W: HeapWriter<Payload>, A: Analyst + Send>(
    rt: &R,
    alloc: Global,
    writer: &mut W,
    analysts: &mut [A],
    base: &Base,
    mut checking: Checking,
) -> Result<Next, NoMemory>
    requires some { 0 < length analysts.old }
    requires is_open { (W.meaning writer.old).is_open ≡ true }
    requires bare { (W.meaning writer.old).staged ≡ none_of (W.meaning writer.old).staged }
    requires base { IsBaseIn (W.meaning writer.old).committed base.now }
    requires checking { IsChecking base.now checking }
    ensures holds { IfOk result (HoldsNext base.now (W.meaning writer.old) (W.meaning writer.new)) }
    ensures leads { LeadsOn base.now (stage.Checks checking) result (total (map A.work analysts.old)) (total (map A.work analysts.new)) }
    ensures staging { IsStaging (W.meaning writer.old) (W.meaning writer.new) }
    ensures is_open { (W.meaning writer.new).is_open ≡ true }
    ensures told { W.told writer.new ≡ W.told writer.old }
    ensures part { W.part writer.new ≡ W.part writer.old }
    ensures many { length analysts.new ≡ length analysts.old }
{
    counted(&*analysts);
    reach_laws();
    if checking.done < checking.checked.len() {
        let stage = check_more(rt, alloc, analysts, base, checking)?;
        return Ok(Next::GoesTo(stage));
    }
    let staged = stage_all(alloc, writer, base, checking)?;
    Ok(Next::Ready(staged))
}

/// One stage of work.
///
/// # Errors
///
/// `NoMemory` where memory is refused.
pub(crate) fn step<R: Threads + Wait + Sync, W: HeapWriter<Payload>, A: Analyst + Send>(
    rt: &R,
    alloc: Global,
    writer: &mut W,
    analysts: &mut [A],
    base: &Base,
    stage: Stage,
) -> Result<Next, NoMemory>
    requires some { 0 < length analysts.old }
    requires is_open { (W.meaning writer.old).is_open ≡ true }
    requires bare { (W.meaning writer.old).staged ≡ none_of (W.meaning writer.old).staged }
    requires base { IsBaseIn (W.meaning writer.old).committed base.now }
    requires holds { Holds base.now stage }
    ensures holds { IfOk result (HoldsNext base.now (W.meaning writer.old) (W.meaning writer.new)) }
    ensures leads { LeadsOn base.now stage result (total (map A.work analysts.old)) (total (map A.work analysts.new)) }
    ensures staging { IsStaging (W.meaning writer.old) (W.meaning writer.new) }
    ensures is_open { (W.meaning writer.new).is_open ≡ true }
    ensures told { W.told writer.new ≡ W.told writer.old }
    ensures part { W.part writer.new ≡ W.part writer.old }
    ensures many { length analysts.new ≡ length analysts.old }
{
    counted(&*analysts);
    recheck_reach::recheck_merging::members_add_up();
    match stage {
        Stage::Fronts => {
            let next = front_next(rt, alloc, analysts, base)?;
            Ok(Next::GoesTo(next))
        }
        Stage::Lists { parses } => {
            let next = list_next(alloc, base, parses)?;
            Ok(Next::GoesTo(next))
        }
        Stage::Merges(merging) => {
            if merging.wave < merging.plan.wave_count() {
                let next = merge_next(rt, alloc, analysts, base, merging)?;
                return Ok(Next::GoesTo(next));
            }
            let checking = begin_checks(alloc, base, merging)?;
            check_next(rt, alloc, writer, analysts, base, checking)
        }
        Stage::Checks(checking) => check_next(rt, alloc, writer, analysts, base, checking),
    }
}
