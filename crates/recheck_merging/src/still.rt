//! Which components of a wave an edit leaves as they were.
#![tactic(auto)]

ghost use Rattle.std.specs.Prelude.{◌≡◌, ◌<◌, All, IfOk, IfSome, [], get_or, length, Some, None, true, false};
ghost use Rattle.std.specs.List.{AllZip, list_all};
ghost use Rattle.recheck_merging.specs.Plans.{IsPlan, numbers_at};
ghost use Rattle.recheck_merging.specs.Keeping.{kept_in};
ghost use Rattle.recheck_merging.specs.Merging.{AreSigsOf, AreMergedTo};
ghost use Rattle.recheck_merging.specs.Still.{IsEdit, AreOld, HasOld, is_still, are_still, is_kept, TellsKept};

use crate::keeping::kept;
use crate::merging::{group_at, numbers_of, wave_at};
use crate::planning::MergePlan;
use check_phases::{Made, Sources};
use check_values::Sig;
use flow_values::{NoMemory, Shared};
use std::alloc::Global;

/// The modules of an edited program beside what they were.
#[derive(Clone, Copy)]
pub struct Edit<'e> {
    /// The results of the program before.
    pub was: &'e Made,
    /// For each module the number that it had, if it had one.
    pub from: &'e [Option<u32>],
    /// For each module whether it is touched: it is new, or its local signature or its dependency list differs.
    pub touched: &'e [bool],
    /// What is known of each module by itself.
    pub sources: &'e Sources,
    /// Which modules are merged, and in which order.
    pub plan: &'e MergePlan,
}

// Whether the flag of each of these numbers is on.
fn all_on(numbers: &[u32], flags: &[bool]) -> bool
    requires { All (λ y. y < length flags.now) numbers.now }
    ensures { result ≡ list_all (λ y. get_or flags.now y false) numbers.now }
{
    for i in 0..numbers.len() {
        if !flags[numbers[i] as usize] {
            return false;
        }
    }
    true
}

// Whether the module at a place of the plan is not touched, and each that it imports has its old signature.
fn is_still(edit: &Edit<'_>, place: usize, same: &[bool]) -> bool
    requires edit { IsEdit edit.now }
    requires many { length same.now ≡ length edit.now.sources.now.root.modules }
    requires low { place < length edit.now.plan.now.merged }
    ensures { result ≡ is_still edit.now.touched.now same.now edit.now.plan.now place }
{
    let merged = edit.plan.merged.as_slice();
    let imports = edit.plan.edges[place].as_slice();
    !edit.touched[merged[place] as usize] && all_on(imports, same)
}

// Whether this is so of all members of a component.
fn are_still(edit: &Edit<'_>, places: &[u32], same: &[bool]) -> bool
    requires edit { IsEdit edit.now }
    requires many { length same.now ≡ length edit.now.sources.now.root.modules }
    requires low { All (λ i. i < length edit.now.plan.now.merged) places.now }
    ensures { result ≡ are_still edit.now.touched.now same.now edit.now.plan.now places.now }
{
    for i in 0..places.len() {
        if !is_still(edit, places[i] as usize, same) {
            return false;
        }
    }
    true
}

// The old signatures of modules that were modules.
fn old_of(alloc: Global, edit: &Edit<'_>, group: &[u32]) -> Result<Vec<Shared<Sig>>, NoMemory>
    requires low { All (λ x. x < length edit.now.from.now) group.now }
    requires old { All (λ x. HasOld edit.now.was.now.signatures.items edit.now.from.now x) group.now }
    ensures { IfOk result (λ olds. AllZip (λ x sig. kept_in edit.now.was.now.signatures.items (get_or edit.now.from.now x None) ≡ Some sig) group.now olds.items) }
{
    let was = edit.was.signatures.as_slice();
    let mut olds = Vec::new(alloc);
    for i in 0..group.len() {
        match kept(was, edit.from[group[i] as usize])? {
            Some(signature) => olds.push(signature)?,
            None => unreachable!(),
        }
    }
    Ok(olds)
}

// The old signatures of a component of a wave, where the edit leaves it as it was.
fn component_old(
    alloc: Global,
    edit: &Edit<'_>,
    wave: usize,
    i: usize,
    slots: &[Option<Shared<Sig>>],
    same: &[bool],
) -> Result<Option<Vec<Shared<Sig>>>, NoMemory>
    requires edit { IsEdit edit.now }
    requires wave { wave < length edit.now.plan.now.waves }
    requires within { i < length (get_or edit.now.plan.now.waves wave []) }
    requires merged { AreMergedTo edit.now.sources.now edit.now.plan.now wave slots.now }
    requires same { AreOld edit.now.was.now.signatures.items edit.now.from.now slots.now same.now }
    ensures kept { IfOk result (TellsKept edit.now.touched.now same.now edit.now.plan.now (get_or (get_or edit.now.plan.now.waves wave []) i 0)) }
    ensures right { IfOk result (λ o. IfSome o (λ own. AreSigsOf edit.now.sources.now edit.now.plan.now (get_or (get_or edit.now.plan.now.waves wave []) i 0) own.items)) }
{
    merged_signatures::a_job_tells_the_program();
    let places = group_at(edit.plan, wave, i);
    if !are_still(edit, places, same) {
        return Ok(None);
    }
    let numbers = numbers_of(alloc, edit.plan, places)?;
    let olds = old_of(alloc, edit, numbers.as_slice())?;
    Ok(Some(olds))
}

/// For each component of a wave its old signatures, where the edit leaves it as it was.
///
/// # Errors
///
/// `NoMemory` where memory is refused.
pub(crate) fn wave_old(
    alloc: Global,
    edit: &Edit<'_>,
    wave: usize,
    slots: &[Option<Shared<Sig>>],
    same: &[bool],
) -> Result<Vec<Option<Vec<Shared<Sig>>>>, NoMemory>
    requires edit { IsEdit edit.now }
    requires wave { wave < length edit.now.plan.now.waves }
    requires merged { AreMergedTo edit.now.sources.now edit.now.plan.now wave slots.now }
    requires same { AreOld edit.now.was.now.signatures.items edit.now.from.now slots.now same.now }
    ensures kept { IfOk result (λ olds. AllZip (TellsKept edit.now.touched.now same.now edit.now.plan.now) (get_or edit.now.plan.now.waves wave []) olds.items) }
    ensures right { IfOk result (λ olds. AllZip (λ k o. IfSome o (λ own. AreSigsOf edit.now.sources.now edit.now.plan.now k own.items)) (get_or edit.now.plan.now.waves wave []) olds.items) }
{
    let numbers = wave_at(edit.plan, wave);
    let mut olds = Vec::new(alloc);
    for i in 0..numbers.len() {
        let own = component_old(alloc, edit, wave, i, slots, same)?;
        olds.push(own)?;
    }
    Ok(olds)
}
