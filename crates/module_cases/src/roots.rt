//! Versions of modules.

ghost use Rattle.std.specs.Prelude.{◌≡◌, IfOk};
ghost use Rattle.check_values.specs.Roots.{paths_of};

use check_values::{Root, RootRow};
use flow_values::{List, NoMemory, Path, Text};
use std::alloc::Global;

/// The version of the modules at these paths, all at row 0 and with empty texts.
///
/// # Errors
///
/// `NoMemory` where memory is refused.
pub(crate) fn root_of(alloc: Global, paths: &[Path]) -> Result<Root, NoMemory>
    ensures { IfOk result (λ root. paths_of root ≡ paths.now) }
{
    let mut modules = List::new(alloc);
    for i in 0..paths.len() {
        modules.push(RootRow {
            path: paths[i].share()?,
            row: 0,
            text: Text::from_bytes(alloc, b"")?,
        })?;
    }
    Ok(Root { modules })
}
