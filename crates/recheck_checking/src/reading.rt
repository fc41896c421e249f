//! The merged signatures that the checks of modules read.
ghost use Rattle.std.specs.Prelude.{◌≡◌, ◌<◌, All, IfOk, length};
ghost use Rattle.check_values.specs.Roots.{paths_of_rows};
ghost use Rattle.check_values.specs.Rows.{row_at};
ghost use Rattle.flow_values.specs.Path.{IsRising};
ghost use Rattle.recheck_merging.specs.check_phases.specs.Sourced.{AreSources};
ghost use Rattle.signature_reach.specs.Along.{signed, AgreeForAll};
ghost use Rattle.recheck_checking.specs.Checking.{TellsAll};

use check_values::{Deps, RootRow, Sig};
use flow_values::{List, NoMemory, Path, Shared};
use recheck_merging::check_job::signature_table::SignatureTable;
use recheck_merging::check_phases::Sources;
use signature_reach::reached_signatures;
use std::alloc::Global;

/// A table of merged signatures that checks share.
pub type SharedTable = Shared<SignatureTable>;

/// The modules, with their rows.
pub(crate) fn modules_of(sources: &Sources) -> &[RootRow]
    ensures { result.now ≡ sources.now.root.modules }
{
    sources.root.get().modules.as_slice()
}

// The signatures of all modules, each with its path.
#[tactic(auto, using(crate::proofs::Signed::signed_whole))]
fn all_signatures(
    alloc: Global,
    modules: &[RootRow],
    signatures: &[Shared<Sig>],
) -> Result<List<(Path, Shared<Sig>)>, NoMemory>
    requires many { length signatures.now ≡ length modules.now }
    ensures { IfOk result (λ rows. rows ≡ signed modules.now signatures.now) }
{
    let mut rows = List::new(alloc);
    for i in 0..modules.len() {
        let module = &modules[i];
        rows.push((module.path.share()?, signatures[i].share()?))?;
    }
    Ok(rows)
}

// The signatures that the checks of some modules read: those that they reach, and where they are all modules, as in a load, those of all,
// so that no name is looked up.
#[tactic(auto, using(crate::proofs::Signed::all_tell))]
fn signatures_for(
    alloc: Global,
    modules: &[RootRow],
    signatures: &[Shared<Sig>],
    lists: &[Shared<Deps>],
    checked: &[u32],
) -> Result<List<(Path, Shared<Sig>)>, NoMemory>
    requires rising { IsRising (paths_of_rows modules.now) }
    requires many { length signatures.now ≡ length modules.now }
    requires within { All (λ x. x < length lists.now) checked.now }
    ensures { IfOk result (λ some. AgreeForAll (row_at (signed modules.now signatures.now)) lists.now checked.now (row_at some)) }
{
    if checked.len() == modules.len() {
        let all = all_signatures(alloc, modules, signatures)?;
        return Ok(all);
    }
    reached_signatures(alloc, modules, signatures, lists, checked)
}

/// The one table of merged signatures that the checks of some modules share: of those that they reach. `checked` has the numbers of the
/// modules, and `signatures` one for each module of `sources`, in order. It looks at each signature once, however many modules reach it.
/// Where as many modules are checked as there are, it has all signatures, and no name is looked up.
///
/// # Errors
///
/// `NoMemory` where memory is refused.
pub fn table_for(
    alloc: Global,
    sources: &Sources,
    signatures: &[Shared<Sig>],
    checked: &[u32],
) -> Result<SharedTable, NoMemory>
    requires sources { AreSources sources.now }
    requires within { All (λ x. x < length sources.now.root.modules) checked.now }
    requires many { length signatures.now ≡ length sources.now.root.modules }
    ensures { IfOk result (λ table. TellsAll sources.now signatures.now checked.now table.rows) }
{
    let modules = modules_of(sources);
    let lists = sources.lists.as_slice();
    let rows = signatures_for(alloc, modules, signatures, lists, checked)?;
    let table = SignatureTable::build(alloc, rows)?;
    Shared::new(alloc, table)
}
