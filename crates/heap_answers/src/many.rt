//! What many modules' entities hold.
ghost use Rattle.std.specs.Prelude.{◌≡◌, map, IfOk};
ghost use Rattle.std.specs.List.{AllByRecursion};
ghost use Rattle.check_values.specs.Roots.{paths_of_rows};
ghost use Rattle.heap_answers.specs.States.{HasPlace, errors_in, importers_in};

use crate::parts::{errors_of, imports};
use asks::Located;
use check_values::RootRow;
use flow_base::{List, NoMemory, Path};
use heap_core::HeapReader;
use payloads::Payload;
use std::alloc::Global;

/// The errors of modules, with their places.
pub(crate) fn all_errors<R: HeapReader<Payload>>(
    alloc: Global,
    reader: &mut R,
    modules: &[RootRow],
) -> Result<List<Located>, NoMemory>
    requires { AllByRecursion (HasPlace (R.state reader.old)) modules.now }
    ensures errors { IfOk result (λ errors. errors ≡ errors_in (R.state reader.old) modules.now) }
    ensures same { (R.at reader.new ≡ R.at reader.old) × (R.state reader.new ≡ R.state reader.old) }
    ensures part { R.part reader.new ≡ R.part reader.old }
{
    let mut errors = List::new(alloc);
    let mut rest = modules;
    while let [row, more @ ..] = rest {
        errors.append(errors_of(alloc, reader, row)?)?;
        rest = more;
    }
    Ok(errors)
}

/// The modules whose specifiers find a path.
pub(crate) fn all_importers<R: HeapReader<Payload>>(
    alloc: Global,
    reader: &mut R,
    modules: &[RootRow],
    path: &Path,
) -> Result<List<Path>, NoMemory>
    requires { AllByRecursion (HasPlace (R.state reader.old)) modules.now }
    ensures paths { IfOk result (λ paths. paths ≡ importers_in path.now (R.state reader.old) modules.now) }
    ensures same { (R.at reader.new ≡ R.at reader.old) × (R.state reader.new ≡ R.state reader.old) }
    ensures part { R.part reader.new ≡ R.part reader.old }
{
    let mut paths = List::new(alloc);
    let mut rest = modules;
    while let [row, more @ ..] = rest {
        if imports(reader, row, path)? {
            paths.push(row.path.share()?)?;
        }
        rest = more;
    }
    Ok(paths)
}

/// The paths of modules.
pub(crate) fn all_paths(alloc: Global, modules: &[RootRow]) -> Result<List<Path>, NoMemory>
    ensures { IfOk result (λ paths. paths ≡ paths_of_rows modules.now) }
{
    let mut paths = Vec::new(alloc);
    for i in 0..modules.len() {
        paths.push(modules[i].path.share()?)?;
    }
    Ok(List::from_vec(paths))
}
