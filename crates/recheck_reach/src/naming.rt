//! Which modules the merged signatures name, by numbers.
ghost use Rattle.std.specs.Prelude.{◌≡◌, ◌<◌, ◌+◌, ◌^◌, [], All, IfOk, OnOk, length, replicate, take, Some};
ghost use Rattle.flow_values.specs.Path.{IsRising};
ghost use Rattle.check_values.specs.Roots.{paths_of};
ghost use Rattle.recheck_merging.specs.recheck_law.specs.Names.{Names};
ghost use Rattle.recheck_merging.specs.check_phases.specs.Sourced.{AreSources, paths_in};
ghost use Rattle.recheck_merging.specs.check_phases.specs.Whole.{sigs_by};
ghost use Rattle.recheck_merging.specs.Rows.{AddsFound};
ghost use Rattle.recheck_reach.specs.Named.{FollowPaths, FollowNames, FollowNamesOf, AreStepsOf};

use check_values::{Root, Sig};
use flow_values::{List, NoMemory, Path, Shared};
use named_modules::add_named;
use pending_edits::place_of;
use recheck_merging::check_phases::Sources;
use std::alloc::Global;

// Adds the number of the module at a path, if there is one.
#[tactic(auto, using(crate::proofs::Named::number_missing, crate::proofs::Named::number_found))]
fn add_number(root: &Root, path: &Path, numbers: &mut List<u32>) -> Result<(), NoMemory>
    requires rising { IsRising (paths_of root.now) }
    requires few { length root.now.modules < 2 ^ 32 }
    ensures { OnOk result (AddsFound (paths_of root.now) (Some path.now) numbers.old numbers.new) }
{
    match place_of(root.modules.as_slice(), path) {
        Some(number) => numbers.push(number as u32),
        None => Ok(()),
    }
}

// The numbers of the modules at some paths.
#[tactic(auto, using(crate::proofs::Named::no_paths, crate::proofs::Named::more_paths, crate::proofs::Named::paths_done))]
fn numbers_of(alloc: Global, root: &Root, paths: &[Path]) -> Result<List<u32>, NoMemory>
    requires rising { IsRising (paths_of root.now) }
    requires few { length root.now.modules < 2 ^ 32 }
    ensures { IfOk result (FollowPaths (paths_of root.now) paths.now (length paths.now)) }
{
    let mut numbers = List::new(alloc);
    for i in 0..paths.len() {
        add_number(root, &paths[i], &mut numbers)?;
    }
    Ok(numbers)
}

// The numbers of the modules that a signature names.
#[tactic(auto, using(crate::proofs::Named::names_done))]
fn numbers_named(alloc: Global, root: &Root, signature: &Sig) -> Result<List<u32>, NoMemory>
    requires rising { IsRising (paths_of root.now) }
    requires few { length root.now.modules < 2 ^ 32 }
    ensures { IfOk result (FollowNames (paths_of root.now) signature.now) }
{
    let mut named = List::new(alloc);
    add_named(signature, &mut named)?;
    let numbers = numbers_of(alloc, root, named.as_slice())?;
    Ok(numbers)
}

// So many empty lists.
fn no_names(alloc: Global, count: usize) -> Result<Vec<List<u32>>, NoMemory>
    ensures { IfOk result (λ named. named.items ≡ replicate count []) }
{
    let mut named = Vec::new(alloc);
    while named.len() < count {
        named.push(List::new(alloc))?;
    }
    Ok(named)
}

// Tells of one more number what its signature names.
#[tactic(auto, using(crate::proofs::Moved::merged_low, crate::proofs::Named::more_named))]
fn tell_names(
    alloc: Global,
    root: &Root,
    signatures: &[Shared<Sig>],
    numbers: &[u32],
    i: usize,
    named: &mut Vec<List<u32>>,
) -> Result<(), NoMemory>
    requires rising { IsRising (paths_of root.now) }
    requires few { length root.now.modules < 2 ^ 32 }
    requires within { All (λ x. x < length signatures.now) numbers.now }
    requires low { i < length numbers.now }
    requires told { FollowNamesOf (paths_of root.now) signatures.now (take i numbers.now) named.old.items }
    ensures { OnOk result (FollowNamesOf (paths_of root.now) signatures.now (take (i + 1) numbers.now) named.new.items) }
{
    let x = numbers[i] as usize;
    let signature = &signatures[x];
    named[x] = numbers_named(alloc, root, signature.get())?;
    Ok(())
}

// The numbers of the modules that the signatures of these numbers name.
#[tactic(auto, using(crate::proofs::Named::none_named, crate::proofs::Named::whole_named))]
fn named_by(
    alloc: Global,
    root: &Root,
    signatures: &[Shared<Sig>],
    numbers: &[u32],
) -> Result<Vec<List<u32>>, NoMemory>
    requires rising { IsRising (paths_of root.now) }
    requires few { length root.now.modules < 2 ^ 32 }
    requires within { All (λ x. x < length signatures.now) numbers.now }
    ensures { IfOk result (λ named. FollowNamesOf (paths_of root.now) signatures.now numbers.now named.items) }
{
    let mut named = no_names(alloc, signatures.len())?;
    for i in 0..numbers.len() {
        tell_names(alloc, root, signatures, numbers, i, &mut named)?;
    }
    Ok(named)
}

/// For each module the numbers of the modules that its merged signature names, where it is one of `numbers`; for any other none. It takes
/// time in proportion to the signatures of these, with a search by halving for each name in them, and to the number of all modules.
///
/// # Errors
///
/// `NoMemory` where memory is refused.
#[tactic(auto, using(crate::proofs::Named::are_steps))]
pub(crate) fn names_of(
    alloc: Global,
    sources: &Sources,
    signatures: &[Shared<Sig>],
    numbers: &[u32],
) -> Result<Vec<List<u32>>, NoMemory>
    requires sources { AreSources sources.now }
    requires few { length sources.now.root.modules < 2 ^ 32 }
    requires many { length signatures.now ≡ length sources.now.root.modules }
    requires within { All (λ x. x < length signatures.now) numbers.now }
    ensures { IfOk result (λ named. AreStepsOf (Names (sigs_by sources.now signatures.now)) (paths_in sources.now) numbers.now named.items) }
{
    let named = named_by(alloc, sources.root.get(), signatures, numbers)?;
    Ok(named)
}
