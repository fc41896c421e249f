//! The merged signatures of the modules of a plan, wave by wave.
ghost use Rattle.std.specs.Prelude.{◌≡◌, ◌+◌, ◌<◌, ◌++◌, ◌↔◌, [], All, IfOk, IfSome, IsTrue, OnOk, map, take, length, slice_get, get_or, Some, None};
ghost use Rattle.std.specs.List.{AllZip, flat_map};
ghost use Rattle.job_ends.specs.Jobs.{job_view, member_view};
ghost use Rattle.check_phases.specs.analyst.specs.Work.{Works, IsWithin, merging};
ghost use Rattle.work_totals.specs.Totals.{total};
ghost use Rattle.check_phases.specs.Sourced.{AreSources};
ghost use Rattle.check_phases.specs.Merging.{AreRight, known_rows, member_at, made_at, put_all};
ghost use Rattle.recheck_merging.specs.Plans.{IsPlan, numbers_at, edges_at, size_of, members_of, members_in};
ghost use Rattle.recheck_merging.specs.Keeping.{kept_in};
ghost use Rattle.recheck_merging.specs.Still.{IsEdit, AreOld, lacking, members_anew};
ghost use Rattle.recheck_merging.specs.Merging.{outside_by, job_by, job_in, AreSigsOf, AreMergedTo, AreMergedIn};

use crate::keeping::Slots;
use crate::planning::MergePlan;
use crate::still::{Edit, wave_old};
use asked_exports::{asked_is_enough, asked_job};
use check_phases::Sources;
use check_phases::analyst::Analyst;
use check_values::{RootRow, Sig};
use flow_values::{List, NoMemory, Path, Shared};
use job_ends::{MergeJob, MergeMember};
use signature_equality::same_sig;
use std::alloc::Global;
use std::sync::Wait;
use std::thread::Threads;
use work_totals::totals_rise;
use worker_jobs::run_merges;

// The modules, with their rows.
fn modules_of(sources: &Sources) -> &[RootRow]
    ensures { result.now ≡ sources.now.root.modules }
{
    sources.root.get().modules.as_slice()
}

// A module as a member of a job.
#[tactic(auto, using(check_phases::proofs::Merges::many_parses, check_phases::proofs::Merges::many_lists, check_phases::proofs::Merges::known_member))]
fn member_of(sources: &Sources, x: usize) -> Result<MergeMember, NoMemory>
    requires sources { AreSources sources.now }
    requires within { x < length sources.now.root.modules }
    ensures { IfOk result (λ m. slice_get (known_rows sources.now) x ≡ Some (member_view m)) }
{
    let modules = modules_of(sources);
    let module = &modules[x];
    let parse = sources.parses[x].get();
    let deps = &sources.lists[x];
    Ok(MergeMember {
        path: module.path.share()?,
        sig: parse.sig.share()?,
        deps: deps.share()?,
    })
}

// Puts the signature of a module behind others, if it is made.
#[tactic(auto, using(check_phases::proofs::Merges::adds_made, check_phases::proofs::Merges::adds_unmade))]
fn add_made(
    sources: &Sources,
    slots: &[Option<Shared<Sig>>],
    y: usize,
    outside: &mut List<(Path, Shared<Sig>)>,
) -> Result<(), NoMemory>
    requires many { length slots.now ≡ length sources.now.root.modules }
    requires within { y < length slots.now }
    ensures { OnOk result (outside.new ≡ outside.old ++ made_at sources.now slots.now y) }
{
    let modules = modules_of(sources);
    let module = &modules[y];
    match &slots[y] {
        Some(sig) => outside.push((module.path.share()?, sig.share()?)),
        None => Ok(()),
    }
}

// Puts the signatures of the modules to which a module leads, where they are made, behind others.
fn add_outside(
    sources: &Sources,
    edges: &[u32],
    slots: &[Option<Shared<Sig>>],
    outside: &mut List<(Path, Shared<Sig>)>,
) -> Result<(), NoMemory>
    requires many { length slots.now ≡ length sources.now.root.modules }
    requires within { All (λ y. y < length slots.now) edges.now }
    ensures { OnOk result (outside.new ≡ outside.old ++ flat_map (made_at sources.now slots.now) edges.now) }
{
    for i in 0..edges.len() {
        add_made(sources, slots, edges[i] as usize, outside)?;
    }
    Ok(())
}

/// The numbers of the modules at some places of a plan.
#[tactic(auto, using(crate::proofs::Loops::numbers_more))]
pub(crate) fn numbers_of(
    alloc: Global,
    plan: &MergePlan,
    places: &[u32],
) -> Result<List<u32>, NoMemory>
    requires { All (λ i. i < length plan.now.merged) places.now }
    ensures { IfOk result (λ numbers. numbers ≡ numbers_at plan.now.merged places.now) }
{
    let merged = plan.merged.as_slice();
    let mut numbers = List::new(alloc);
    for i in 0..places.len() {
        numbers.push(merged[places[i] as usize])?;
    }
    Ok(numbers)
}

// The members of the job of some modules.
fn members_for(
    alloc: Global,
    sources: &Sources,
    group: &[u32],
) -> Result<List<MergeMember>, NoMemory>
    requires sources { AreSources sources.now }
    requires within { All (λ x. x < length sources.now.root.modules) group.now }
    ensures members { IfOk result (λ members. map member_view members ≡ flat_map (member_at sources.now) group.now) }
    ensures many { IfOk result (λ members. length members ≡ length group.now) }
{
    let mut members = List::new(alloc);
    for i in 0..group.len() {
        let member = member_of(sources, group[i] as usize)?;
        members.push(member)?;
    }
    Ok(members)
}

// The signatures of the modules to which the modules at some places lead, where they are made.
#[tactic(auto, using(crate::proofs::Outside::edges_low))]
fn outside_for(
    alloc: Global,
    sources: &Sources,
    plan: &MergePlan,
    places: &[u32],
    slots: &[Option<Shared<Sig>>],
) -> Result<List<(Path, Shared<Sig>)>, NoMemory>
    requires plan { IsPlan sources.now plan.now }
    requires many { length slots.now ≡ length sources.now.root.modules }
    requires within { All (λ i. i < length plan.now.edges.items) places.now }
    ensures { IfOk result (λ outside. outside ≡ outside_by sources.now slots.now (edges_at plan.now.edges.items places.now)) }
{
    let mut outside = List::new(alloc);
    for i in 0..places.len() {
        let edges = plan.edges[places[i] as usize].as_slice();
        add_outside(sources, edges, slots, &mut outside)?;
    }
    Ok(outside)
}

// The job of the modules at some places, whose numbers are these.
fn job_of(
    alloc: Global,
    sources: &Sources,
    plan: &MergePlan,
    places: &[u32],
    group: &[u32],
    slots: &[Option<Shared<Sig>>],
) -> Result<MergeJob, NoMemory>
    requires sources { AreSources sources.now }
    requires plan { IsPlan sources.now plan.now }
    requires many { length slots.now ≡ length sources.now.root.modules }
    requires within { All (λ i. i < length plan.now.edges.items) places.now }
    requires low { All (λ x. x < length sources.now.root.modules) group.now }
    ensures job { IfOk result (λ job. job_view job ≡ job_by sources.now slots.now group.now (edges_at plan.now.edges.items places.now)) }
    ensures many { IfOk result (λ job. length job.members ≡ length group.now) }
{
    Ok(MergeJob {
        members: members_for(alloc, sources, group)?,
        outside: outside_for(alloc, sources, plan, places, slots)?,
    })
}

// The signatures of a component, each shared.
fn shared_all(alloc: Global, signatures: List<Sig>) -> Result<Vec<Shared<Sig>>, NoMemory>
    ensures { IfOk result (λ all. all.items ≡ signatures) }
{
    let mut all = Vec::new(alloc);
    for signature in signatures.into_vec() {
        let kept = Shared::new(alloc, signature)?;
        all.push(kept)?;
    }
    Ok(all)
}

// The signatures of each component, each shared.
fn shared_each(
    alloc: Global,
    signatures: List<List<Sig>>,
) -> Result<Vec<Vec<Shared<Sig>>>, NoMemory>
    ensures { IfOk result (λ all. map (λ own. own.items) all.items ≡ signatures) }
{
    let mut all = Vec::new(alloc);
    for own in signatures.into_vec() {
        let kept = shared_all(alloc, own)?;
        all.push(kept)?;
    }
    Ok(all)
}

// Whether a signature is the old one of a module.
fn is_old(edit: &Edit<'_>, x: usize, signature: &Sig) -> bool
    requires { x < length edit.now.from.now }
    ensures { IsTrue result ↔ (kept_in edit.now.was.now.signatures.items (get_or edit.now.from.now x None) ≡ Some signature.now) }
{
    let Some(number) = edit.from[x] else {
        return false;
    };
    match edit.was.signatures.get(number as usize) {
        Some(old) => same_sig(old.get(), signature),
        None => false,
    }
}

// Puts the signatures of a component into the slots of its modules, and tells which of them are the old ones.
fn keep_all(
    edit: &Edit<'_>,
    group: &[u32],
    signatures: &[Shared<Sig>],
    slots: &mut Slots,
    same: &mut [bool],
) -> Result<(), NoMemory>
    requires many { length signatures.now ≡ length group.now }
    requires within { All (λ x. x < length slots.old.items) group.now }
    requires from { length edit.now.from.now ≡ length slots.old.items }
    requires same { AreOld edit.now.was.now.signatures.items edit.now.from.now slots.old.items same.old }
    ensures put { OnOk result (slots.new.items ≡ put_all group.now signatures.now slots.old.items) }
    ensures same { OnOk result (AreOld edit.now.was.now.signatures.items edit.now.from.now slots.new.items same.new) }
{
    for i in 0..group.len() {
        let x = group[i] as usize;
        let kept = signatures[i].share()?;
        same[x] = is_old(edit, x, kept.get());
        slots[x] = Some(kept);
    }
    Ok(())
}

/// The numbers of the components of a wave.
#[tactic(auto, using(crate::proofs::Groups::wave_numbers))]
pub(crate) fn wave_at<'p>(plan: &'p MergePlan, wave: usize) -> &'p [u32]
    requires { wave < length plan.now.waves }
    ensures { result.now ≡ get_or plan.now.waves wave [] }
{
    let waves = plan.waves.as_slice();
    waves[wave].as_slice()
}

/// The places of the members of a component of a wave.
#[tactic(auto, using(crate::proofs::Groups::component_there))]
pub(crate) fn group_at<'p>(plan: &'p MergePlan, wave: usize, i: usize) -> &'p [u32]
    requires wave { wave < length plan.now.waves }
    requires within { i < length (get_or plan.now.waves wave []) }
    requires component { get_or (get_or plan.now.waves wave []) i 0 < length plan.now.components }
    ensures { slice_get plan.now.components (get_or (get_or plan.now.waves wave []) i 0) ≡ Some result.now }
{
    let numbers = wave_at(plan, wave);
    let components = plan.components.as_slice();
    let component = numbers[i] as usize;
    components[component].as_slice()
}

// The job of a component of a wave, with what its members ask of larger modules outside.
fn component_job(
    alloc: Global,
    sources: &Sources,
    plan: &MergePlan,
    wave: usize,
    i: usize,
    slots: &[Option<Shared<Sig>>],
) -> Result<MergeJob, NoMemory>
    requires sources { AreSources sources.now }
    requires plan { IsPlan sources.now plan.now }
    requires wave { wave < length plan.now.waves }
    requires within { i < length (get_or plan.now.waves wave []) }
    requires right { AreRight sources.now slots.now }
    ensures job { IfOk result (λ job. job_view job ≡ job_in sources.now plan.now slots.now (get_or (get_or plan.now.waves wave []) i 0)) }
    ensures many { IfOk result (λ job. length job.members ≡ size_of plan.now (get_or (get_or plan.now.waves wave []) i 0)) }
{
    let places = group_at(plan, wave, i);
    let numbers = numbers_of(alloc, plan, places)?;
    let group = numbers.as_slice();
    let whole = job_of(alloc, sources, plan, places, group, slots)?;
    let job = asked_job(alloc, whole)?;
    Ok(job)
}

// The jobs of the components of a wave for which nothing is there.
fn wave_jobs(
    alloc: Global,
    edit: &Edit<'_>,
    wave: usize,
    olds: &[Option<Vec<Shared<Sig>>>],
    slots: &[Option<Shared<Sig>>],
) -> Result<List<MergeJob>, NoMemory>
    requires sources { AreSources edit.now.sources.now }
    requires plan { IsPlan edit.now.sources.now edit.now.plan.now }
    requires wave { wave < length edit.now.plan.now.waves }
    requires many { length olds.now ≡ length (get_or edit.now.plan.now.waves wave []) }
    requires right { AreRight edit.now.sources.now slots.now }
    ensures jobs { IfOk result (λ jobs. map job_view jobs ≡ map (job_in edit.now.sources.now edit.now.plan.now slots.now) (lacking (get_or edit.now.plan.now.waves wave []) olds.now)) }
    ensures many { IfOk result (λ jobs. map (λ job. length job.members) jobs ≡ map (size_of edit.now.plan.now) (lacking (get_or edit.now.plan.now.waves wave []) olds.now)) }
{
    let mut jobs = List::new(alloc);
    for i in 0..olds.len() {
        if olds[i].is_none() {
            let job = component_job(alloc, edit.sources, edit.plan, wave, i, slots)?;
            jobs.push(job)?;
        }
    }
    Ok(jobs)
}

// Puts the signatures of a component of a wave into the slots of its modules.
#[tactic(auto, using(crate::proofs::Groups::component_low, crate::proofs::Groups::places_low, crate::proofs::Outside::group_low))]
fn keep_component(
    alloc: Global,
    edit: &Edit<'_>,
    wave: usize,
    i: usize,
    signatures: &[Shared<Sig>],
    slots: &mut Slots,
    same: &mut [bool],
) -> Result<(), NoMemory>
    requires edit { IsEdit edit.now }
    requires wave { wave < length edit.now.plan.now.waves }
    requires within { i < length (get_or edit.now.plan.now.waves wave []) }
    requires signatures { AreSigsOf edit.now.sources.now edit.now.plan.now (get_or (get_or edit.now.plan.now.waves wave []) i 0) signatures.now }
    requires merged { AreMergedIn edit.now.sources.now edit.now.plan.now wave (take i (get_or edit.now.plan.now.waves wave [])) slots.old.items }
    requires same { AreOld edit.now.was.now.signatures.items edit.now.from.now slots.old.items same.old }
    ensures merged { OnOk result (AreMergedIn edit.now.sources.now edit.now.plan.now wave (take (i + 1) (get_or edit.now.plan.now.waves wave [])) slots.new.items) }
    ensures same { OnOk result (AreOld edit.now.was.now.signatures.items edit.now.from.now slots.new.items same.new) }
{
    let places = group_at(edit.plan, wave, i);
    let numbers = numbers_of(alloc, edit.plan, places)?;
    let group = numbers.as_slice();
    keep_all(edit, group, signatures, slots, same)?;
    Ok(())
}

// Puts the signatures of the components of a wave into the slots of their modules: the old ones where they are there, and else the next ones
// of those that were merged.
fn keep_wave(
    alloc: Global,
    edit: &Edit<'_>,
    wave: usize,
    olds: &[Option<Vec<Shared<Sig>>>],
    merged: &[Vec<Shared<Sig>>],
    slots: &mut Slots,
    same: &mut [bool],
) -> Result<(), NoMemory>
    requires edit { IsEdit edit.now }
    requires wave { wave < length edit.now.plan.now.waves }
    requires olds { AllZip (λ k o. IfSome o (λ own. AreSigsOf edit.now.sources.now edit.now.plan.now k own.items)) (get_or edit.now.plan.now.waves wave []) olds.now }
    requires anew { AllZip (λ k own. AreSigsOf edit.now.sources.now edit.now.plan.now k own.items) (lacking (get_or edit.now.plan.now.waves wave []) olds.now) merged.now }
    requires merged { AreMergedTo edit.now.sources.now edit.now.plan.now wave slots.old.items }
    requires same { AreOld edit.now.was.now.signatures.items edit.now.from.now slots.old.items same.old }
    ensures merged { OnOk result (AreMergedTo edit.now.sources.now edit.now.plan.now (wave + 1) slots.new.items) }
    ensures same { OnOk result (AreOld edit.now.was.now.signatures.items edit.now.from.now slots.new.items same.new) }
{
    let mut next = 0;
    for i in 0..olds.len() {
        let own = match &olds[i] {
            Some(old) => old.as_slice(),
            None => {
                let own = merged[next].as_slice();
                next += 1;
                own
            }
        };
        keep_component(alloc, edit, wave, i, own, slots, same)?;
    }
    Ok(())
}

// The signatures of the components of a wave for which nothing is there, by the slots before it.
fn wave_signatures<R: Threads + Wait + Sync, A: Analyst + Send>(
    rt: &R,
    alloc: Global,
    analysts: &mut [A],
    edit: &Edit<'_>,
    wave: usize,
    olds: &[Option<Vec<Shared<Sig>>>],
    slots: &[Option<Shared<Sig>>],
) -> Result<Vec<Vec<Shared<Sig>>>, NoMemory>
    requires some { 0 < length analysts.old }
    requires sources { AreSources edit.now.sources.now }
    requires plan { IsPlan edit.now.sources.now edit.now.plan.now }
    requires wave { wave < length edit.now.plan.now.waves }
    requires many { length olds.now ≡ length (get_or edit.now.plan.now.waves wave []) }
    requires merged { AreMergedTo edit.now.sources.now edit.now.plan.now wave slots.now }
    ensures signatures { IfOk result (λ all. AllZip (λ k own. AreSigsOf edit.now.sources.now edit.now.plan.now k own.items) (lacking (get_or edit.now.plan.now.waves wave []) olds.now) all.items) }
    ensures work { Works result (merging (members_of edit.now.plan.now (lacking (get_or edit.now.plan.now.waves wave []) olds.now))) (total (map A.work analysts.old)) (total (map A.work analysts.new)) }
    ensures many { length analysts.new ≡ length analysts.old }
{
    totals_rise();
    merged_signatures::a_job_tells_the_program();
    asked_is_enough();
    let jobs = wave_jobs(alloc, edit, wave, olds, slots)?;
    let asked = jobs.as_slice();
    let told = run_merges(rt, alloc, analysts, asked)?;
    let shared = shared_each(alloc, told)?;
    Ok(shared)
}

/// Merges the components of a wave of the plan by at least one analyst, where those of the waves before it are merged, and puts their
/// signatures into the slots of their modules. A component has its old signatures, and is not merged, where none of its members is touched
/// and `same` says of each module that they import that it has its old signature; what it says of the members is put there. Each other
/// component is merged by the slots as they stand before the wave, so the analysts work beside one another. It takes time in proportion to
/// the members of the wave, their edges, imports and exports: of a large module outside a job has the rows that its members ask for.
///
/// # Errors
///
/// `NoMemory` where memory is refused.
pub fn merge_wave<R: Threads + Wait + Sync, A: Analyst + Send>(
    rt: &R,
    alloc: Global,
    analysts: &mut [A],
    edit: &Edit<'_>,
    wave: usize,
    slots: &mut Slots,
    same: &mut [bool],
) -> Result<(), NoMemory>
    requires some { 0 < length analysts.old }
    requires edit { IsEdit edit.now }
    requires within { wave < length edit.now.plan.now.waves }
    requires merged { AreMergedTo edit.now.sources.now edit.now.plan.now wave slots.old.items }
    requires same { AreOld edit.now.was.now.signatures.items edit.now.from.now slots.old.items same.old }
    ensures merged { OnOk result (AreMergedTo edit.now.sources.now edit.now.plan.now (wave + 1) slots.new.items) }
    ensures same { OnOk result (AreOld edit.now.was.now.signatures.items edit.now.from.now slots.new.items same.new) }
    ensures work { Works result (merging (members_anew edit.now.touched.now same.old edit.now.plan.now wave)) (total (map A.work analysts.old)) (total (map A.work analysts.new)) }
    ensures most { IsWithin (total (map A.work analysts.old)) (total (map A.work analysts.new)) (merging (members_in edit.now.plan.now wave)) }
    ensures many { length analysts.new ≡ length analysts.old }
{
    totals_rise();
    let olds = wave_old(alloc, edit, wave, slots.as_slice(), &*same)?;
    let own = olds.as_slice();
    let anew = wave_signatures(rt, alloc, analysts, edit, wave, own, slots.as_slice())?;
    keep_wave(alloc, edit, wave, own, anew.as_slice(), slots, same)?;
    Ok(())
}
