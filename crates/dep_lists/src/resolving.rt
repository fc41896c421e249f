ghost use Rattle.std.specs.Prelude.{◌≡◌, ◌<◌, IfOk, IfSome, length, find, map, reverse, codes, [], ◌∷◌, ◌++◌, Some};
ghost use Rattle.std.specs.Option.{option_map};
ghost use Rattle.flow_values.specs.Path.{IsRising};
ghost use Rattle.check_values.specs.Rows.{is_among};
ghost use Rattle.check_values.specs.Roots.{paths_of, paths_of_rows};
ghost use Rattle.module_resolution.specs.Resolution.{candidates, candidates_at, resolved};
ghost use Rattle.dep_lists.specs.Looking.{IsPlaceOf, one_of};

use crate::folder::{apply_all, folder_of, is_relative, path_to};
use check_values::{Root, RootRow};
use flow_values::{NoMemory, Path};
use std::alloc::Global;

// Where a path stands among rows whose paths rise.
fn place_of(rows: &[RootRow], bytes: &[u8]) -> Option<usize>
    requires { IsRising (paths_of_rows rows.now) }
    ensures place { IsPlaceOf rows.now bytes.now result }
    ensures within { IfSome result (λ at. at < length rows.now) }
{
    rows.binary_search_by(|row| row.path.as_bytes().cmp(bytes))
        .ok()
}

// The module of a path, where there is one.
fn module_at(root: &Root, bytes: &[u8]) -> Result<Option<Path>, NoMemory>
    requires { IsRising (paths_of root.now) }
    ensures { IfOk result (λ found. found ≡ one_of (paths_of root.now) bytes.now) }
{
    let rows = root.modules.as_slice();
    match place_of(rows, bytes) {
        Some(at) => Ok(Some(rows[at].path.share()?)),
        None => Ok(None),
    }
}

// The first of the three candidates of a path that is there.
#[tactic(auto, using(crate::proofs::Searching::found_first, crate::proofs::Searching::found_later, crate::proofs::Searching::found_last))]
fn first_candidate(root: &Root, mut path: Vec<u8>) -> Result<Option<Path>, NoMemory>
    requires { IsRising (paths_of root.now) }
    ensures { IfOk result (λ found. found ≡ find (is_among (paths_of root.now)) (path.items ∷ (path.items ++ codes ".js") ∷ (path.items ++ codes "/index.js") ∷ [])) }
{
    if let Some(found) = module_at(root, path.as_slice())? {
        return Ok(Some(found));
    }
    let len = path.len();
    path.extend_from_slice(b".js")?;
    if let Some(found) = module_at(root, path.as_slice())? {
        return Ok(Some(found));
    }
    path.truncate(len);
    path.extend_from_slice(b"/index.js")?;
    module_at(root, path.as_slice())
}

// The first candidate of a place that is there.
#[tactic(auto, using(crate::proofs::Parts::candidates_none, crate::proofs::Parts::candidates_some, crate::proofs::Searching::found_last))]
fn module_in(alloc: Global, root: &Root, parts: &[&[u8]]) -> Result<Option<Path>, NoMemory>
    requires { IsRising (paths_of root.now) }
    ensures { IfOk result (λ found. found ≡ find (is_among (paths_of root.now)) (candidates_at (Some (reverse (map (λ p. p.now) parts.now))))) }
{
    if parts.is_empty() {
        return module_at(root, b"index.js");
    }
    first_candidate(root, path_to(alloc, parts)?)
}

// The place to which a specifier leads from a module, or `None` where it leads nowhere.
fn place_to<'a>(
    alloc: Global,
    from: &'a Path,
    spec: &'a [u8],
) -> Result<Option<Vec<&'a [u8]>>, NoMemory>
    ensures { IfOk result (λ place. candidates_at (option_map (λ f. reverse (map (λ p. p.now) f.items)) place) ≡ candidates from.now spec.now) }
{
    if !is_relative(spec) {
        return Ok(None);
    }
    apply_all(folder_of(alloc, from)?, spec)
}

/// The module of a version that a specifier of the module at `from` finds, and `None` exactly where
/// none of its candidates is there.
///
/// # Errors
///
/// `NoMemory` where memory is refused.
pub fn resolve(
    alloc: Global,
    root: &Root,
    from: &Path,
    spec: &[u8],
) -> Result<Option<Path>, NoMemory>
    requires rising { IsRising (paths_of root.now) }
    ensures found { IfOk result (λ found. found ≡ resolved (paths_of root.now) from.now spec.now) }
{
    match place_to(alloc, from, spec)? {
        Some(place) => module_in(alloc, root, place.as_slice()),
        None => Ok(None),
    }
}
