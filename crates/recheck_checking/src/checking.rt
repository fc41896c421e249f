//! The errors of the modules that are checked.
ghost use Rattle.std.specs.Prelude.{◌≡◌, ◌-◌, ◌<◌, ◌≤◌, ◌∷◌, [], All, IfOk, OnOk, length, map};
ghost use Rattle.std.specs.List.{AllZip};
ghost use Rattle.recheck_merging.specs.analyst.specs.Work.{Works, checks_of};
ghost use Rattle.recheck_merging.specs.work_totals.specs.Totals.{total};
ghost use Rattle.recheck_merging.specs.check_phases.specs.Checking.{IsJobOf, batch_after};
ghost use Rattle.recheck_merging.specs.check_phases.specs.Sourced.{AreSources};
ghost use Rattle.recheck_checking.specs.Checking.{rows_by, TellsAll, IsCheckedBy, AreCheckedTo};
ghost use Rattle.recheck_checking.specs.Keeping.{put_all};

use crate::keeping::ErrorSlots;
use crate::reading::{SharedTable, modules_of};
use check_values::{Errs, Sig};
use flow_values::{List, NoMemory, Shared};
use recheck_merging::analyst::Analyst;
use recheck_merging::check_job::CheckJob;
use recheck_merging::check_phases::Sources;
use recheck_merging::worker_jobs::run_checks;
use std::alloc::Global;
use std::sync::Wait;
use std::thread::Threads;

/// The most modules that are checked between two polls.
const BATCH: usize = 64;

// The job of the module of a number.
#[tactic(auto, using(crate::proofs::Handed::many_parses, crate::proofs::Handed::many_lists))]
fn job_of(
    sources: &Sources,
    signatures: &[Shared<Sig>],
    table: &SharedTable,
    x: usize,
) -> Result<CheckJob, NoMemory>
    requires sources { AreSources sources.now }
    requires within { x < length sources.now.root.modules }
    requires told { TellsAll sources.now signatures.now (x ∷ []) table.now.rows }
    ensures { IfOk result (IsJobOf sources.now (rows_by sources.now signatures.now) x) }
{
    let modules = modules_of(sources);
    let module = &modules[x];
    let parse = &sources.parses[x];
    let deps = &sources.lists[x];
    Ok(CheckJob {
        path: module.path.share()?,
        text: module.text.share()?,
        parse: parse.share()?,
        deps: deps.share()?,
        sigs: table.share()?,
    })
}

// The jobs of the modules of some numbers.
fn jobs_for(
    alloc: Global,
    sources: &Sources,
    signatures: &[Shared<Sig>],
    table: &SharedTable,
    numbers: &[u32],
) -> Result<Vec<CheckJob>, NoMemory>
    requires sources { AreSources sources.now }
    requires within { All (λ x. x < length sources.now.root.modules) numbers.now }
    requires told { TellsAll sources.now signatures.now numbers.now table.now.rows }
    ensures { IfOk result (λ jobs. AllZip (IsJobOf sources.now (rows_by sources.now signatures.now)) numbers.now jobs.items) }
{
    let mut jobs = Vec::new(alloc);
    for i in 0..numbers.len() {
        let job = job_of(sources, signatures, table, numbers[i] as usize)?;
        jobs.push(job)?;
    }
    Ok(jobs)
}

// Errors, each shared.
fn shared_all(alloc: Global, errors: List<Errs>) -> Result<Vec<Shared<Errs>>, NoMemory>
    ensures { IfOk result (λ all. all.items ≡ errors) }
{
    let mut all = Vec::new(alloc);
    for errs in errors.into_vec() {
        let kept = Shared::new(alloc, errs)?;
        all.push(kept)?;
    }
    Ok(all)
}

// The errors of the modules of some numbers, by the analysts.
#[tactic(auto, using(crate::proofs::Handed::none_within))]
fn errors_of<R: Threads + Wait + Sync, A: Analyst + Send>(
    rt: &R,
    alloc: Global,
    analysts: &mut [A],
    sources: &Sources,
    signatures: &[Shared<Sig>],
    table: &SharedTable,
    numbers: &[u32],
) -> Result<Vec<Shared<Errs>>, NoMemory>
    requires some { 0 < length analysts.old }
    requires sources { AreSources sources.now }
    requires within { All (λ x. x < length sources.now.root.modules) numbers.now }
    requires told { TellsAll sources.now signatures.now numbers.now table.now.rows }
    ensures errors { IfOk result (λ errors. AllZip (IsCheckedBy sources.now signatures.now) numbers.now errors.items) }
    ensures work { Works result (checks_of (length numbers.now)) (total (map A.work analysts.old)) (total (map A.work analysts.new)) }
    ensures many { length analysts.new ≡ length analysts.old }
{
    reach_law::key_law();
    let jobs = jobs_for(alloc, sources, signatures, table, numbers)?;
    let errors = run_checks(rt, alloc, analysts, jobs.as_slice())?;
    shared_all(alloc, errors)
}

// Puts the errors of the modules of some numbers into their slots.
fn keep_all(
    numbers: &[u32],
    errors: &[Shared<Errs>],
    slots: &mut ErrorSlots,
) -> Result<(), NoMemory>
    requires many { length errors.now ≡ length numbers.now }
    requires within { All (λ x. x < length slots.old.items) numbers.now }
    ensures { OnOk result (slots.new.items ≡ put_all numbers.now errors.now slots.old.items) }
{
    for i in 0..numbers.len() {
        let kept = errors[i].share()?;
        slots[numbers[i] as usize] = Some(kept);
    }
    Ok(())
}

/// Checks the next modules of `checked`, at most 64 of them, by the analysts, and puts their errors into their slots: `done` of them are
/// checked, and behind the call those of one more batch. `signatures` are the merged signatures of the modules of `sources`, in order, and
/// `table` says what they do where the modules of `checked` reach.
///
/// # Errors
///
/// `NoMemory` where memory is refused. The errors of some of them may be in their slots then, or of none.
pub fn check_batch<R: Threads + Wait + Sync, A: Analyst + Send>(
    rt: &R,
    alloc: Global,
    analysts: &mut [A],
    sources: &Sources,
    signatures: &[Shared<Sig>],
    table: &SharedTable,
    checked: &[u32],
    done: usize,
    slots: &mut ErrorSlots,
) -> Result<(), NoMemory>
    requires some { 0 < length analysts.old }
    requires sources { AreSources sources.now }
    requires told { TellsAll sources.now signatures.now checked.now table.now.rows }
    requires within { All (λ x. x < length sources.now.root.modules) checked.now }
    requires begun { done ≤ length checked.now }
    requires checked { AreCheckedTo sources.now signatures.now checked.now done slots.old.items }
    ensures checked { OnOk result (AreCheckedTo sources.now signatures.now checked.now (batch_after done (length checked.now)) slots.new.items) }
    ensures work { Works result (checks_of (batch_after done (length checked.now) - done)) (total (map A.work analysts.old)) (total (map A.work analysts.new)) }
    ensures many { length analysts.new ≡ length analysts.old }
{
    let end = usize::min(checked.len(), done + BATCH);
    let numbers = &checked[done..end];
    let found = errors_of(rt, alloc, analysts, sources, signatures, table, numbers)?;
    let errors = found.as_slice();
    keep_all(numbers, errors, slots)
}
