//! Which paths are modules of a root.
ghost use Rattle.std.specs.Prelude.{◌≡◌, ◌<◌, ◌≤◌, IfSome, length, count_by};
ghost use Rattle.std.specs.Option.{option_copied};
ghost use Rattle.flow_values.specs.Path.{IsRising};
ghost use Rattle.check_values.specs.Rows.{is_among};
ghost use Rattle.check_values.specs.Roots.{paths_of, paths_of_rows};
ghost use Rattle.dep_lists.specs.Looking.{IsPlaceOf};
ghost use Rattle.pending_edits.specs.Counting.{newly};

use crate::Edit;
use check_values::{Root, RootRow};
use flow_values::Path;

/// Where a path stands among the modules of a root, if it is one of them.
pub fn place_of(rows: &[RootRow], path: &Path) -> Option<usize>
    requires { IsRising (paths_of_rows rows.now) }
    ensures place { IsPlaceOf rows.now path.now result }
    ensures within { IfSome result (λ at. at < length rows.now) }
{
    rows.binary_search_by(|row| row.path.cmp(path)).ok()
}

/// Whether a path is a module of the root.
pub(crate) fn is_module(root: &Root, path: &Path) -> bool
    requires { IsRising (paths_of root.now) }
    ensures { result ≡ is_among (paths_of root.now) path.now }
{
    place_of(root.modules.as_slice(), path).is_some()
}

/// How many of these paths are modules of the root.
pub(crate) fn count_modules(root: &Root, paths: &[Path]) -> usize
    requires { IsRising (paths_of root.now) }
    ensures { result ≡ count_by (is_among (paths_of root.now)) paths.now }
{
    let mut count = 0;
    for path in paths {
        if is_module(root, path) {
            count += 1;
        }
    }
    count
}

/// 1 where a path is a module of the root and has no edit before, else 0.
pub(crate) fn newly(root: &Root, path: &Path, before: Option<&Edit>) -> usize
    requires { IsRising (paths_of root.now) }
    ensures newly { result ≡ newly (option_copied before.entry) (is_among (paths_of root.now) path.now) }
    ensures small { result ≤ 1 }
{
    match before {
        Some(_) => 0,
        None => { if is_module(root, path) { 1 } else { 0 } }
    }
}
