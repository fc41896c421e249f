ghost use Rattle.std.specs.Prelude.{◌≡◌, ℕ, ◌<◌, ◌≤◌, ◌^◌, IsTrue, ◌↔◌, IsSome, IfSome, IfOk, Some, length, slice_get};
ghost use Rattle.std.specs.Option.{option_map, option_and_then};
ghost use Rattle.std.proofs.Common.{lit<};
ghost use Rattle.flow_base.specs.Program.{IsRising, paths_of, text_at};
ghost use Rattle.flow_base.specs.Seen.{folder_seen};
ghost use Rattle.flow_base.specs.declared.outside.LastFault.TheVariants.{Never};

use crate::{Folder, FolderFault, List, NoMemory, Path, Text};
use std::alloc::Global;
use std::marker::Model;

/// A folder in memory, which tells its program and never fails. A contract sees the program.
#[derive(Debug, Drop)]
pub struct MemFolder {
    alloc: Global,
    rows: List<(Path, Text)>,
}

impl Model for MemFolder {
    ghost use Rattle.std.specs.Prelude.{List, ℕ};
    ghost use Rattle.flow_base.specs.Program.{IsRising, paths_of};

    ghost Value = { List (List ℕ × List ℕ) };

    ghost view = { λ f. f.rows };

    ghost invariant = { λ f. IsRising (paths_of f.rows) };
}

impl MemFolder {
    /// A folder of these modules, or `None` where their paths are not rising.
    pub fn new(alloc: Global, rows: List<(Path, Text)>) -> Option<MemFolder>
        ensures rising { IsSome result ↔ IsRising (paths_of rows) }
        ensures rows { IfSome result (λ folder. folder ≡ rows) }
    {
        if has_rising_paths(rows.as_slice()) {
            Some(MemFolder { alloc, rows })
        } else {
            None
        }
    }
}

fn has_rising_paths(rows: &[(Path, Text)]) -> bool
    ensures { IsTrue result ↔ IsRising (paths_of rows.now) }
{
    rows.is_sorted_by(|row, next| row.0 < next.0)
}

fn listed(alloc: Global, rows: &[(Path, Text)]) -> Result<List<Path>, NoMemory>
    ensures { IfOk result (λ paths. paths ≡ paths_of rows.now) }
{
    let mut paths = List::new(alloc);
    for i in 0..rows.len() {
        paths.push(rows[i].0.share()?)?;
    }
    Ok(paths)
}

// Where a path stands among rows whose paths rise.
fn place_of(rows: &[(Path, Text)], path: &Path) -> Option<usize>
    requires { IsRising (paths_of rows.now) }
    ensures text { text_at rows.now path.now ≡ option_and_then (λ at. option_map (λ row. row.1) (slice_get rows.now at)) result }
    ensures within { IfSome result (λ at. at < length rows.now) }
{
    rows.binary_search_by(|row| row.0.cmp(path)).ok()
}

fn found(rows: &[(Path, Text)], path: &Path) -> Result<Option<Text>, NoMemory>
    requires { IsRising (paths_of rows.now) }
    ensures { IfOk result (λ text. text ≡ text_at rows.now path.now) }
{
    match place_of(rows, path) {
        Some(at) => Ok(Some(rows[at].1.share()?)),
        None => Ok(None),
    }
}

impl Folder for MemFolder {
    ghost seen = { λ f. folder_seen (Some f) 0 Never };

    fn list(&mut self) -> Result<List<Path>, FolderFault> {
        Ok(listed(self.alloc, self.rows.as_slice())?)
    }

    fn read(&mut self, path: &Path) -> Result<Option<Text>, FolderFault> {
        Ok(found(self.rows.as_slice(), path)?)
    }

    ghost bounded = { λ _. lit< tt };
}
