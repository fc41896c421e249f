//! What the sources of an edited program say by themselves.
ghost use Rattle.std.specs.Prelude.{◌≡◌, ◌+◌, ◌++◌, ◌<◌, [], ◌∷◌, IfOk, OnOk, None, Some, cond, count_by, length, map, slice_get};
ghost use Rattle.std.specs.List.{AllZip};
ghost use Rattle.export_counts.specs.source_front.specs.Front.{IsParse};
ghost use Rattle.check_phases.specs.analyst.specs.Work.{Works, fronts_of};
ghost use Rattle.work_totals.specs.Totals.{total};
ghost use Rattle.check_phases.specs.payloads.specs.State.{program_of};
ghost use Rattle.check_phases.specs.Phases.{AreParsed};
ghost use Rattle.check_phases.specs.Sourced.{AreSources};
ghost use Rattle.edited_root.specs.From.{numbers_from, fresh_from};
ghost use Rattle.recheck_sources.specs.Keeping.{made_for, where_on, IsInPlace};
ghost use Rattle.recheck_sources.specs.Parts.{AreKeptBy};

use crate::keeping::{kept_or_next, kept_part};
use check_phases::Sources;
use check_phases::analyst::Analyst;
use check_values::{Root, RootRow};
use export_counts::source_front::Parse;
use flow_values::{List, NoMemory, Shared, Text};
use std::alloc::Global;
use std::sync::Wait;
use std::thread::Threads;
use worker_jobs::run_fronts;

// Adds the text of a module, where it is fresh.
fn add_fresh(texts: &mut List<Text>, row: &RootRow, fresh: bool) -> Result<(), NoMemory>
    ensures { OnOk result (texts.new ≡ texts.old ++ cond fresh (row.now.text ∷ []) []) }
{
    if fresh {
        let text = row.text.share()?;
        texts.push(text)?;
    }
    Ok(())
}

// The texts of the modules that are fresh, in order.
fn fresh_texts(alloc: Global, modules: &[RootRow], fresh: &[bool]) -> Result<List<Text>, NoMemory>
    requires { length fresh.now ≡ length modules.now }
    ensures { IfOk result (λ texts. texts ≡ map (λ m. m.text) (where_on fresh.now modules.now)) }
{
    let mut texts = List::new(alloc);
    for i in 0..modules.len() {
        add_fresh(&mut texts, &modules[i], fresh[i])?;
    }
    Ok(texts)
}

// What sources say, each shared.
fn shared_all(alloc: Global, parses: List<Parse>) -> Result<Vec<Shared<Parse>>, NoMemory>
    ensures { IfOk result (λ all. all.items ≡ parses) }
{
    let mut all = Vec::new(alloc);
    for parse in parses.into_vec() {
        let kept = Shared::new(alloc, parse)?;
        all.push(kept)?;
    }
    Ok(all)
}

// What the sources of the modules that are fresh say by themselves, in order, by the analysts.
#[tactic(auto, using(work_totals::proofs::Totals::none_within))]
fn fresh_parses<R: Threads + Wait + Sync, A: Analyst + Send>(
    rt: &R,
    alloc: Global,
    analysts: &mut [A],
    modules: &[RootRow],
    fresh: &[bool],
) -> Result<Vec<Shared<Parse>>, NoMemory>
    requires some { 0 < length analysts.old }
    requires many { length fresh.now ≡ length modules.now }
    ensures parses { IfOk result (λ said. AllZip (λ m parse. IsParse m.text parse) (where_on fresh.now modules.now) said.items) }
    ensures work { Works result (fronts_of (count_by (λ on. on) fresh.now)) (total (map A.work analysts.old)) (total (map A.work analysts.new)) }
    ensures many { length analysts.new ≡ length analysts.old }
{
    let texts = fresh_texts(alloc, modules, fresh)?;
    let said = run_fronts(rt, alloc, analysts, texts.as_slice())?;
    shared_all(alloc, said)
}

// What the source of each module says by itself: what is kept, and elsewhere `said` in order.
#[tactic(auto, using(crate::proofs::Serves::low_number))]
fn placed_parses(
    alloc: Global,
    was: &Sources,
    root: &Root,
    from: &[Option<u32>],
    fresh: &[bool],
    said: &[Shared<Parse>],
) -> Result<Vec<Shared<Parse>>, NoMemory>
    requires was { AreSources was.now }
    requires from { from.now ≡ numbers_from was.now.root root.now }
    requires fresh { fresh.now ≡ fresh_from was.now.root root.now }
    requires said { AllZip (λ m parse. IsParse m.text parse) (where_on fresh.now root.now.modules) said.now }
    ensures parsed { IfOk result (λ parses. AreParsed (program_of root.now) parses.items) }
    ensures kept { IfOk result (λ parses. AreKeptBy was.now.parses.items from.now fresh.now parses.items) }
{
    let old = was.parses.as_slice();
    let mut parses = Vec::new(alloc);
    let mut next = 0;
    for i in 0..fresh.len() {
        let kept = kept_part(old, from[i], fresh[i])?;
        let parse = kept_or_next(kept, said, &mut next)?;
        parses.push(parse)?;
    }
    Ok(parses)
}

/// What the source of each module of an edited program says by itself, in order: read by one of the analysts where the module is new or
/// has another text, and kept elsewhere. `was` is what was known of the old modules, `from` has for each module the number that it had,
/// if it was one, and `fresh` whether it is new or has another text.
///
/// # Errors
///
/// `NoMemory` where memory is refused.
#[tactic(auto, using(work_totals::proofs::Totals::done_anyhow))]
pub fn edited_parses<R: Threads + Wait + Sync, A: Analyst + Send>(
    rt: &R,
    alloc: Global,
    analysts: &mut [A],
    was: &Sources,
    root: &Root,
    from: &[Option<u32>],
    fresh: &[bool],
) -> Result<Vec<Shared<Parse>>, NoMemory>
    requires some { 0 < length analysts.old }
    requires was { AreSources was.now }
    requires from { from.now ≡ numbers_from was.now.root root.now }
    requires fresh { fresh.now ≡ fresh_from was.now.root root.now }
    ensures parsed { IfOk result (λ parses. AreParsed (program_of root.now) parses.items) }
    ensures kept { IfOk result (λ parses. AreKeptBy was.now.parses.items from.now fresh.now parses.items) }
    ensures work { Works result (fronts_of (count_by (λ on. on) fresh.now)) (total (map A.work analysts.old)) (total (map A.work analysts.new)) }
    ensures many { length analysts.new ≡ length analysts.old }
{
    let modules = root.modules.as_slice();
    let parses = fresh_parses(rt, alloc, analysts, modules, fresh)?;
    let said = parses.as_slice();
    placed_parses(alloc, was, root, from, fresh, said)
}
