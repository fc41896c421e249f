//! Looking at paths among all modules.
ghost use Rattle.std.specs.Prelude.{◌≡◌, ◌<◌, All, IfOk, OnOk, length};
ghost use Rattle.flow_values.specs.Path.{IsRising};
ghost use Rattle.check_values.specs.Rows.{row_at};
ghost use Rattle.check_values.specs.Roots.{paths_of_rows};
ghost use Rattle.signature_reach.specs.Along.{signed, IsMet, AreMet, Knows, Grows, starts_of, AreStarted};

use crate::starts::found_paths;
use check_values::{Deps, RootRow, Sig};
use flow_values::{List, NoMemory, Path, Shared};
use pending_edits::place_of;
use std::alloc::Global;
use std::collections::BTreeSet;

// The merged signature of the module at a path, if there is one.
#[tactic(auto, using(crate::proofs::Signed::none_signed, crate::proofs::Signed::one_signed))]
fn signature_at(
    modules: &[RootRow],
    signatures: &[Shared<Sig>],
    path: &Path,
) -> Result<Option<Shared<Sig>>, NoMemory>
    requires rising { IsRising (paths_of_rows modules.now) }
    requires many { length signatures.now ≡ length modules.now }
    ensures { IfOk result (λ sig. sig ≡ row_at (signed modules.now signatures.now) path.now) }
{
    match place_of(modules, path) {
        Some(at) => Ok(Some(signatures[at].share()?)),
        None => Ok(None),
    }
}

// Looks at a path: adds the signature of its module, where it is one that was not looked at yet.
fn look_at(
    modules: &[RootRow],
    signatures: &[Shared<Sig>],
    path: &Path,
    seen: &mut BTreeSet<Path>,
    found: &mut List<(Path, Shared<Sig>)>,
) -> Result<(), NoMemory>
    requires rising { IsRising (paths_of_rows modules.now) }
    requires many { length signatures.now ≡ length modules.now }
    requires known { Knows (row_at (signed modules.now signatures.now)) seen.old found.old }
    ensures grows { OnOk result (Grows (row_at (signed modules.now signatures.now)) (paths_of_rows modules.now) seen.old found.old seen.new found.new) }
    ensures met { OnOk result (IsMet (row_at (signed modules.now signatures.now)) found.new path.now) }
{
    if !seen.insert(path.share()?)? {
        return Ok(());
    }
    match signature_at(modules, signatures, path)? {
        Some(sig) => found.push((path.share()?, sig)),
        None => Ok(()),
    }
}

/// Looks at paths, one after the other.
///
/// # Errors
///
/// `NoMemory` where memory is refused. Some of them may have been looked at then.
pub(crate) fn look_at_all(
    modules: &[RootRow],
    signatures: &[Shared<Sig>],
    paths: &[Path],
    seen: &mut BTreeSet<Path>,
    found: &mut List<(Path, Shared<Sig>)>,
) -> Result<(), NoMemory>
    requires rising { IsRising (paths_of_rows modules.now) }
    requires many { length signatures.now ≡ length modules.now }
    requires known { Knows (row_at (signed modules.now signatures.now)) seen.old found.old }
    ensures grows { OnOk result (Grows (row_at (signed modules.now signatures.now)) (paths_of_rows modules.now) seen.old found.old seen.new found.new) }
    ensures met { OnOk result (AreMet (row_at (signed modules.now signatures.now)) found.new paths.now) }
{
    for i in 0..paths.len() {
        look_at(modules, signatures, &paths[i], seen, found)?;
    }
    Ok(())
}

// Looks at the modules that the specifiers of a dependency list find.
fn look_at_found(
    alloc: Global,
    modules: &[RootRow],
    signatures: &[Shared<Sig>],
    deps: &Deps,
    seen: &mut BTreeSet<Path>,
    found: &mut List<(Path, Shared<Sig>)>,
) -> Result<(), NoMemory>
    requires rising { IsRising (paths_of_rows modules.now) }
    requires many { length signatures.now ≡ length modules.now }
    requires known { Knows (row_at (signed modules.now signatures.now)) seen.old found.old }
    ensures grows { OnOk result (Grows (row_at (signed modules.now signatures.now)) (paths_of_rows modules.now) seen.old found.old seen.new found.new) }
    ensures met { OnOk result (AreMet (row_at (signed modules.now signatures.now)) found.new (starts_of deps.now)) }
{
    let paths = found_paths(alloc, deps.rows.as_slice())?;
    look_at_all(modules, signatures, paths.as_slice(), seen, found)
}

/// Looks at the modules that the specifiers of the modules of some numbers find. `lists` has the dependency list of each number.
///
/// # Errors
///
/// `NoMemory` where memory is refused. Some of them may have been looked at then.
pub(crate) fn look_at_starts(
    alloc: Global,
    modules: &[RootRow],
    signatures: &[Shared<Sig>],
    lists: &[Shared<Deps>],
    numbers: &[u32],
    seen: &mut BTreeSet<Path>,
    found: &mut List<(Path, Shared<Sig>)>,
) -> Result<(), NoMemory>
    requires rising { IsRising (paths_of_rows modules.now) }
    requires many { length signatures.now ≡ length modules.now }
    requires within { All (λ x. x < length lists.now) numbers.now }
    requires known { Knows (row_at (signed modules.now signatures.now)) seen.old found.old }
    ensures grows { OnOk result (Grows (row_at (signed modules.now signatures.now)) (paths_of_rows modules.now) seen.old found.old seen.new found.new) }
    ensures started { OnOk result (AreStarted (row_at (signed modules.now signatures.now)) found.new lists.now numbers.now) }
{
    for i in 0..numbers.len() {
        let deps = &lists[numbers[i] as usize];
        look_at_found(alloc, modules, signatures, deps.get(), seen, found)?;
    }
    Ok(())
}
