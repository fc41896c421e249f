//! The merged signatures of the modules that a module reaches, read one by one along names.
ghost use Rattle.std.specs.Prelude.{◌≡◌, IfOk, OnOk};
ghost use Rattle.std.specs.List.{AllByRecursion};
ghost use Rattle.flow_base.specs.Program.{IsRising};
ghost use Rattle.check_values.specs.Rows.{row_at};
ghost use Rattle.check_values.specs.Roots.{paths_of_rows};
ghost use Rattle.errors_by_reach.specs.Law.{Agree};
ghost use Rattle.heap_answers.specs.States.{HasPlace, sigs_by};
ghost use Rattle.signature_reach.specs.Along.{IsMet, AreMet, Knows, Grows, IsClosed};

use crate::rows::{place_in, signature_in};
use check_values::{Deps, RootRow, Sig};
use flow_base::Path;
use flow_values::{List, NoMemory, Shared};
use heap_answers::payloads::{Payload, signature_entity};
use heap_core::HeapReader;
use signature_reach::{found_paths, named_at};
use signature_table::SignatureTable;
use std::alloc::Global;
use std::collections::BTreeSet;

// The merged signature of the module at a path, if there is one.
fn signature_at<R: HeapReader<Payload>>(
    reader: &mut R,
    modules: &[RootRow],
    path: &Path,
) -> Result<Option<Shared<Sig>>, NoMemory>
    requires rising { IsRising (paths_of_rows modules.now) }
    requires placed { AllByRecursion (HasPlace (R.state reader.old)) modules.now }
    ensures sig { IfOk result (λ sig. sig ≡ sigs_by (R.state reader.old) modules.now path.now) }
    ensures same { (R.at reader.new ≡ R.at reader.old) × (R.state reader.new ≡ R.state reader.old) }
    ensures part { R.part reader.new ≡ R.part reader.old }
{
    let Some(at) = place_in(modules, path) else {
        return Ok(None);
    };
    let module = &modules[at];
    let payload = reader.read(signature_entity(module.row))?;
    let sig = signature_in(&payload)?;
    Ok(sig)
}

// Looks at a path: adds the signature of its module, where it is one that was not looked at yet.
fn look_at<R: HeapReader<Payload>>(
    reader: &mut R,
    modules: &[RootRow],
    path: &Path,
    seen: &mut BTreeSet<Path>,
    rows: &mut List<(Path, Shared<Sig>)>,
) -> Result<(), NoMemory>
    requires rising { IsRising (paths_of_rows modules.now) }
    requires placed { AllByRecursion (HasPlace (R.state reader.old)) modules.now }
    requires known { Knows (sigs_by (R.state reader.old) modules.now) seen.old rows.old }
    ensures grows { OnOk result (Grows (sigs_by (R.state reader.old) modules.now) (paths_of_rows modules.now) seen.old rows.old seen.new rows.new) }
    ensures met { OnOk result (IsMet (sigs_by (R.state reader.old) modules.now) rows.new path.now) }
    ensures same { (R.at reader.new ≡ R.at reader.old) × (R.state reader.new ≡ R.state reader.old) }
    ensures part { R.part reader.new ≡ R.part reader.old }
{
    if !seen.insert(path.share()?)? {
        return Ok(());
    }
    match signature_at(reader, modules, path)? {
        Some(sig) => rows.push((path.share()?, sig)),
        None => Ok(()),
    }
}

// Looks at paths.
fn look_at_all<R: HeapReader<Payload>>(
    reader: &mut R,
    modules: &[RootRow],
    paths: &[Path],
    seen: &mut BTreeSet<Path>,
    rows: &mut List<(Path, Shared<Sig>)>,
) -> Result<(), NoMemory>
    requires rising { IsRising (paths_of_rows modules.now) }
    requires placed { AllByRecursion (HasPlace (R.state reader.old)) modules.now }
    requires known { Knows (sigs_by (R.state reader.old) modules.now) seen.old rows.old }
    ensures grows { OnOk result (Grows (sigs_by (R.state reader.old) modules.now) (paths_of_rows modules.now) seen.old rows.old seen.new rows.new) }
    ensures met { OnOk result (AreMet (sigs_by (R.state reader.old) modules.now) rows.new paths.now) }
    ensures same { (R.at reader.new ≡ R.at reader.old) × (R.state reader.new ≡ R.state reader.old) }
    ensures part { R.part reader.new ≡ R.part reader.old }
{
    for i in 0..paths.len() {
        look_at(reader, modules, &paths[i], seen, rows)?;
    }
    Ok(())
}

// Looks at the modules that signatures name, and at those that theirs do.
fn follow<R: HeapReader<Payload>>(
    alloc: Global,
    reader: &mut R,
    modules: &[RootRow],
    seen: &mut BTreeSet<Path>,
    rows: &mut List<(Path, Shared<Sig>)>,
) -> Result<(), NoMemory>
    requires rising { IsRising (paths_of_rows modules.now) }
    requires placed { AllByRecursion (HasPlace (R.state reader.old)) modules.now }
    requires known { Knows (sigs_by (R.state reader.old) modules.now) seen.old rows.old }
    ensures grows { OnOk result (Grows (sigs_by (R.state reader.old) modules.now) (paths_of_rows modules.now) seen.old rows.old seen.new rows.new) }
    ensures closed { OnOk result (IsClosed (sigs_by (R.state reader.old) modules.now) rows.new) }
    ensures same { (R.at reader.new ≡ R.at reader.old) × (R.state reader.new ≡ R.state reader.old) }
    ensures part { R.part reader.new ≡ R.part reader.old }
{
    let mut at = 0;
    while at < rows.len() {
        let named = named_at(alloc, rows.as_slice(), at)?;
        look_at_all(reader, modules, named.as_slice(), seen, rows)?;
        at += 1;
    }
    Ok(())
}

// The merged signatures of the modules that a module with a dependency list reaches: those that its specifiers find, and with each of
// them those that its signature names. No other signature is read.
fn reached_signatures<R: HeapReader<Payload>>(
    alloc: Global,
    reader: &mut R,
    modules: &[RootRow],
    deps: &Deps,
) -> Result<List<(Path, Shared<Sig>)>, NoMemory>
    requires rising { IsRising (paths_of_rows modules.now) }
    requires placed { AllByRecursion (HasPlace (R.state reader.old)) modules.now }
    ensures agree { IfOk result (λ rows. Agree (sigs_by (R.state reader.old) modules.now) deps.now (row_at rows)) }
    ensures same { (R.at reader.new ≡ R.at reader.old) × (R.state reader.new ≡ R.state reader.old) }
    ensures part { R.part reader.new ≡ R.part reader.old }
{
    let starts = found_paths(alloc, deps.rows.as_slice())?;
    let mut seen = BTreeSet::new(alloc);
    let mut rows = List::new(alloc);
    look_at_all(reader, modules, starts.as_slice(), &mut seen, &mut rows)?;
    follow(alloc, reader, modules, &mut seen, &mut rows)?;
    Ok(rows)
}

/// A table of the merged signatures of the modules that a module with a dependency list reaches.
///
/// # Errors
///
/// `NoMemory` where memory is refused.
pub(crate) fn reached_table<R: HeapReader<Payload>>(
    alloc: Global,
    reader: &mut R,
    modules: &[RootRow],
    deps: &Deps,
) -> Result<Shared<SignatureTable>, NoMemory>
    requires rising { IsRising (paths_of_rows modules.now) }
    requires placed { AllByRecursion (HasPlace (R.state reader.old)) modules.now }
    ensures agree { IfOk result (λ table. Agree (sigs_by (R.state reader.old) modules.now) deps.now (row_at table.rows)) }
    ensures same { (R.at reader.new ≡ R.at reader.old) × (R.state reader.new ≡ R.state reader.old) }
    ensures part { R.part reader.new ≡ R.part reader.old }
{
    let rows = reached_signatures(alloc, reader, modules, deps)?;
    let table = SignatureTable::build(alloc, rows)?;
    Ok(Shared::new(alloc, table)?)
}
