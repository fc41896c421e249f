//! The dependency lists of an edited program.
ghost use Rattle.std.specs.Prelude.{◌≡◌, true, IfOk, IfSome, if◌then◌else◌};
ghost use Rattle.flow_values.specs.Path.{IsRising};
ghost use Rattle.check_values.specs.Roots.{paths_of};
ghost use Rattle.check_phases.specs.program_check.specs.Full.{deps_in};
ghost use Rattle.check_phases.specs.payloads.specs.State.{program_of};
ghost use Rattle.check_phases.specs.Phases.{AreParsed, lists_in};
ghost use Rattle.check_phases.specs.Sourced.{AreSources};
ghost use Rattle.edited_root.specs.From.{numbers_from, fresh_from};
ghost use Rattle.path_numbers.specs.recheck_law.specs.Lists.{row_again, again};
ghost use Rattle.moved_paths.specs.Moved.{AreMoved, IsUnmoved};
ghost use Rattle.recheck_sources.specs.Keeping.{IsInPlace, ServesOn};
ghost use Rattle.recheck_sources.specs.Parts.{AreKeptBy};

use crate::keeping::kept_part;
use check_phases::Sources;
use check_values::{DepRow, Deps, Root};
use dep_lists::resolve;
use export_counts::source_front::{Parse, ParseTree};
use flow_values::{List, NoMemory, Path, Shared};
use module_deps::deps_of;
use moved_paths::{Moved, is_unmoved};
use signature_equality::same_deps;
use std::alloc::Global;

// The dependency list of the module at a path, by its tree.
fn list_of(alloc: Global, root: &Root, path: &Path, parse: &Parse) -> Result<Shared<Deps>, NoMemory>
    requires { IsRising (paths_of root.now) }
    ensures { IfOk result (λ deps. deps ≡ deps_in (paths_of root.now) path.now parse.now) }
{
    let deps = match &parse.tree {
        ParseTree::Tree { module, spans: _ } => deps_of(alloc, root, path, module)?,
        ParseTree::Broken(_) => Deps {
            rows: List::new(alloc),
        },
    };
    Ok(Shared::new(alloc, deps)?)
}

// A row of the module at a path, with what its specifier finds now.
fn row_again(alloc: Global, root: &Root, path: &Path, row: &DepRow) -> Result<DepRow, NoMemory>
    requires { IsRising (paths_of root.now) }
    ensures { IfOk result (λ next. next ≡ row_again (paths_of root.now) path.now row.now) }
{
    Ok(DepRow {
        spec: row.spec.share()?,
        found: resolve(alloc, root, path, row.spec.as_bytes())?,
    })
}

// The dependency list of the module at a path, with what each of its specifiers finds now.
fn list_again(alloc: Global, root: &Root, path: &Path, deps: &Deps) -> Result<Deps, NoMemory>
    requires { IsRising (paths_of root.now) }
    ensures { IfOk result (λ next. next ≡ again (paths_of root.now) path.now deps.now) }
{
    let old = deps.rows.as_slice();
    let mut rows = List::new(alloc);
    for i in 0..old.len() {
        rows.push(row_again(alloc, root, path, &old[i])?)?;
    }
    Ok(Deps { rows })
}

// The list of a module of which the text stays, by the old one, which is shared where it is what it was. Where no specifier may find a
// path that came or went it is not looked for again.
fn kept_list(
    alloc: Global,
    root: &Root,
    path: &Path,
    old: Shared<Deps>,
    moved: &Moved,
    stays: bool,
) -> Result<Shared<Deps>, NoMemory>
    requires rising { IsRising (paths_of root.now) }
    requires came { IsRising (paths_of moved.now.came) }
    requires went { IsRising (paths_of moved.now.went) }
    requires unmoved { IsUnmoved moved.now path.now old → again (paths_of root.now) path.now old ≡ old }
    ensures { IfOk result (λ list. list ≡ (if stays then old else again (paths_of root.now) path.now old)) }
{
    if stays {
        return Ok(old);
    }
    if is_unmoved(alloc, moved, path, old.get())? {
        return Ok(old);
    }
    let list = list_again(alloc, root, path, old.get())?;
    if same_deps(&list, old.get()) {
        return Ok(old);
    }
    Ok(Shared::new(alloc, list)?)
}

// The list of a module: by the one that is kept, and else by its tree.
fn next_list(
    alloc: Global,
    root: &Root,
    path: &Path,
    parse: &Parse,
    kept: Option<Shared<Deps>>,
    moved: &Moved,
    stays: bool,
) -> Result<Shared<Deps>, NoMemory>
    requires rising { IsRising (paths_of root.now) }
    requires came { IsRising (paths_of moved.now.came) }
    requires went { IsRising (paths_of moved.now.went) }
    requires serves { IfSome kept (ServesOn (paths_of root.now) path.now parse.now moved.now stays) }
    ensures list { IfOk result (λ list. list ≡ deps_in (paths_of root.now) path.now parse.now) }
    ensures kept { stays ≡ true → IfOk result (IsInPlace kept) }
{
    match kept {
        Some(old) => kept_list(alloc, root, path, old, moved, stays),
        None => list_of(alloc, root, path, parse),
    }
}

/// The dependency list of each module, in order: found by its tree where it is fresh, and elsewhere the old one, with what its specifiers
/// find now. `stays` tells that no path came or went: then the old ones are kept as they are. `moved` has the paths that did: a list is
/// looked for again where one of its specifiers may find one of them.
///
/// # Errors
///
/// `NoMemory` where memory is refused.
#[tactic(auto, using(crate::proofs::Serves::low_from, crate::proofs::Serves::low_fresh, crate::proofs::Serves::low_parse))]
pub(crate) fn edited_lists(
    alloc: Global,
    was: &Sources,
    root: &Root,
    parses: &[Shared<Parse>],
    from: &[Option<u32>],
    fresh: &[bool],
    moved: &Moved,
    stays: bool,
) -> Result<Vec<Shared<Deps>>, NoMemory>
    requires was { AreSources was.now }
    requires rising { IsRising (paths_of root.now) }
    requires from { from.now ≡ numbers_from was.now.root root.now }
    requires fresh { fresh.now ≡ fresh_from was.now.root root.now }
    requires parsed { AreParsed (program_of root.now) parses.now }
    requires kept { AreKeptBy was.now.parses.items from.now fresh.now parses.now }
    requires moved { AreMoved (paths_of was.now.root) (paths_of root.now) moved.now }
    requires stays { stays ≡ true → paths_of root.now ≡ paths_of was.now.root }
    ensures lists { IfOk result (λ lists. lists.items ≡ lists_in (paths_of root.now) (program_of root.now) parses.now) }
    ensures kept { stays ≡ true → IfOk result (λ lists. AreKeptBy was.now.lists.items from.now fresh.now lists.items) }
{
    path_numbers::recheck_law::lists_again();
    let modules = root.modules.as_slice();
    let old = was.lists.as_slice();
    let mut lists = Vec::new(alloc);
    for i in 0..modules.len() {
        let kept = kept_part(old, from[i], fresh[i])?;
        let parse = parses[i].get();
        let list = next_list(alloc, root, &modules[i].path, parse, kept, moved, stays)?;
        lists.push(list)?;
    }
    Ok(lists)
}
