//! The folder of the made-up modules.
ghost use Rattle.std.specs.Prelude.{◌≡◌, IfOk};
ghost use Rattle.std.specs.Str.{bytes_eq};
ghost use Rattle.std.specs.List.{IsDistinct};
ghost use Rattle.std.specs.List.Sorted.{IsPermutation};
ghost use Rattle.flow_base.specs.Program.{IsRising, paths_of};

use flow_base::{Folder, FolderFault, List, MemFolder, NoMemory, Path, Text};
use std::alloc::Global;

/// A folder of these modules, whose paths differ.
///
/// # Errors
///
/// `NoMemory` where memory is refused.
pub(crate) fn folder_of(alloc: Global, modules: List<(Path, Text)>) -> Result<MemFolder, NoMemory>
    requires { IsDistinct bytes_eq (paths_of modules) }
    ensures whole { IfOk result (IsPermutation modules) }
    ensures rising { IfOk result (λ folder. IsRising (paths_of folder)) }
{
    let mut rows = modules.into_vec();
    rows.sort_by(|row, next| row.0.cmp(&next.0))?;
    match MemFolder::new(alloc, List::from_vec(rows)) {
        Some(folder) => Ok(folder),
        None => unreachable!(),
    }
}

/// The paths of a folder.
///
/// # Errors
///
/// `NoMemory` where memory is refused.
pub(crate) fn paths_in(folder: &mut MemFolder) -> Result<List<Path>, NoMemory>
    ensures paths { IfOk result (λ paths. paths ≡ paths_of folder.old) }
    ensures same { folder.new ≡ folder.old }
{
    match folder.list() {
        Ok(paths) => Ok(paths),
        Err(FolderFault::Failed) => unreachable!(),
        Err(FolderFault::NoMemory) => Err(NoMemory),
    }
}
