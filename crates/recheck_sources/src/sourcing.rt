//! What is known of the modules of an edited program by themselves, and of which of them it differs.
ghost use Rattle.std.specs.Prelude.{◌≡◌, ◌<◌, ◌^◌, true, IfOk, length};
ghost use Rattle.flow_values.specs.Path.{IsRising};
ghost use Rattle.check_values.specs.Roots.{paths_of};
ghost use Rattle.graph_search.specs.Reach.{IsRising as IsRisingRow};
ghost use Rattle.check_phases.specs.payloads.specs.State.{program_of};
ghost use Rattle.edited_root.specs.affected_law.specs.Affected.{Differs};
ghost use Rattle.path_numbers.specs.Sets.{ArePlaces};
ghost use Rattle.check_phases.specs.Phases.{AreParsed};
ghost use Rattle.check_phases.specs.Sourced.{paths_in, view_in, AreSources};
ghost use Rattle.edited_root.specs.From.{numbers_from, fresh_from};
ghost use Rattle.moved_paths.specs.Moved.{AreMoved};
ghost use Rattle.recheck_sources.specs.Changed.{IsChanged};
ghost use Rattle.recheck_sources.specs.Parts.{AreKeptBy, TellsOthers};

use crate::keeping::stand_still;
use crate::listing::edited_lists;
use crate::telling::{either_places, relisted_of, resigned_of};
use check_phases::Sources;
use check_values::Root;
use export_counts::source_front::Parse;
use flow_values::{List, NoMemory, Shared};
use moved_paths::{Moved, moved_paths, nothing_moved};
use std::alloc::Global;

/// The modules of an edited program with what is known of each by itself, and of which modules it differs.
#[derive(Drop)]
pub struct Listed {
    /// The modules with what is known of each by itself.
    pub sources: Sources,
    /// For each module whether its dependency list is new or differs.
    pub relisted: Vec<bool>,
    /// The numbers of the modules that merging sees in another way, rising: those of which the local signature or the dependency list is
    /// new or differs.
    pub touched: List<u32>,
    /// The numbers of the modules of which the text or the dependency list is new or differs, rising.
    pub changed: List<u32>,
}

// The paths that came and went.
fn moved_between(
    alloc: Global,
    was: &Root,
    root: &Root,
    from: &[Option<u32>],
    stays: bool,
) -> Result<Moved, NoMemory>
    requires old { IsRising (paths_of was.now) }
    requires new { IsRising (paths_of root.now) }
    requires from { from.now ≡ numbers_from was.now root.now }
    requires stays { stays ≡ true → paths_of root.now ≡ paths_of was.now }
    ensures { IfOk result (AreMoved (paths_of was.now) (paths_of root.now)) }
{
    if stays {
        return Ok(nothing_moved(alloc, was, root));
    }
    moved_paths(alloc, was, root, from)
}

// The modules with what is known of each by itself.
fn sources_of(
    alloc: Global,
    was: &Sources,
    root: Shared<Root>,
    parses: Vec<Shared<Parse>>,
    from: &[Option<u32>],
    fresh: &[bool],
    stays: bool,
) -> Result<Sources, NoMemory>
    requires was { AreSources was.now }
    requires rising { IsRising (paths_of root) }
    requires few { length root.modules < 2 ^ 32 }
    requires from { from.now ≡ numbers_from was.now.root root }
    requires fresh { fresh.now ≡ fresh_from was.now.root root }
    requires parsed { AreParsed (program_of root) parses.items }
    requires kept { AreKeptBy was.now.parses.items from.now fresh.now parses.items }
    requires stays { stays ≡ true → paths_of root ≡ paths_of was.now.root }
    ensures root { IfOk result (λ sources. sources.root ≡ root) }
    ensures parses { IfOk result (λ sources. sources.parses.items ≡ parses.items) }
    ensures sources { IfOk result AreSources }
    ensures kept { stays ≡ true → IfOk result (λ sources. AreKeptBy was.now.lists.items from.now fresh.now sources.lists.items) }
{
    merged_signatures::few_exports();
    export_counts::few_exports();
    let modules = root.get();
    let said = parses.as_slice();
    let moved = moved_between(alloc, was.root.get(), modules, from, stays)?;
    let lists = edited_lists(alloc, was, modules, said, from, fresh, &moved, stays)?;
    Ok(Sources {
        root,
        parses,
        lists,
    })
}

// Of which modules it differs from what was known.
fn told_sources(
    alloc: Global,
    was: &Sources,
    sources: Sources,
    from: &[Option<u32>],
    fresh: &[bool],
    stays: bool,
) -> Result<Listed, NoMemory>
    requires was { AreSources was.now }
    requires sources { AreSources sources }
    requires few { length sources.root.modules < 2 ^ 32 }
    requires from { from.now ≡ numbers_from was.now.root sources.root }
    requires fresh { fresh.now ≡ fresh_from was.now.root sources.root }
    requires parses { AreKeptBy was.now.parses.items from.now fresh.now sources.parses.items }
    requires lists { stays ≡ true → AreKeptBy was.now.lists.items from.now fresh.now sources.lists.items }
    ensures same { IfOk result (λ listed. listed.sources ≡ sources) }
    ensures relisted { IfOk result (λ listed. TellsOthers was.now.lists.items from.now listed.sources.lists.items listed.relisted.items) }
    ensures touched { IfOk result (λ listed. IsRisingRow listed.touched × ArePlaces (Differs (view_in was.now) (view_in listed.sources)) (paths_in listed.sources) listed.touched) }
    ensures changed { IfOk result (λ listed. IsRisingRow listed.changed × ArePlaces (IsChanged was.now listed.sources) (paths_in listed.sources) listed.changed) }
{
    let old = was.lists.as_slice();
    let new = sources.lists.as_slice();
    let relisted = relisted_of(alloc, old, new, from, fresh, stays)?;
    let was_said = was.parses.as_slice();
    let said = sources.parses.as_slice();
    let resigned = resigned_of(alloc, was_said, said, from, fresh)?;
    let other = relisted.as_slice();
    let signed = resigned.as_slice();
    let touched = either_places(alloc, other, signed)?;
    let changed = either_places(alloc, other, fresh)?;
    Ok(Listed {
        sources,
        relisted,
        touched,
        changed,
    })
}

/// The dependency lists of the modules of an edited program, and which modules differ. A list is found by the tree of a module that is
/// new or has another text. Elsewhere the old one is kept, where no path came or went that a specifier of its may find, and otherwise
/// found again by its own specifiers. `was` is what was known of the old modules, `parses` what the new ones say by themselves, `from`
/// has for each module the number that it had, if it was one, and `fresh` whether it is new or has another text.
///
/// # Errors
///
/// `NoMemory` where memory is refused.
pub fn listed_sources(
    alloc: Global,
    was: &Sources,
    root: Shared<Root>,
    parses: Vec<Shared<Parse>>,
    from: &[Option<u32>],
    fresh: &[bool],
) -> Result<Listed, NoMemory>
    requires was { AreSources was.now }
    requires rising { IsRising (paths_of root) }
    requires few { length root.modules < 2 ^ 32 }
    requires from { from.now ≡ numbers_from was.now.root root }
    requires fresh { fresh.now ≡ fresh_from was.now.root root }
    requires parsed { AreParsed (program_of root) parses.items }
    requires kept { AreKeptBy was.now.parses.items from.now fresh.now parses.items }
    ensures root { IfOk result (λ listed. listed.sources.root ≡ root) }
    ensures parses { IfOk result (λ listed. listed.sources.parses.items ≡ parses.items) }
    ensures sources { IfOk result (λ listed. AreSources listed.sources) }
    ensures relisted { IfOk result (λ listed. TellsOthers was.now.lists.items from.now listed.sources.lists.items listed.relisted.items) }
    ensures touched { IfOk result (λ listed. IsRisingRow listed.touched × ArePlaces (Differs (view_in was.now) (view_in listed.sources)) (paths_in listed.sources) listed.touched) }
    ensures changed { IfOk result (λ listed. IsRisingRow listed.changed × ArePlaces (IsChanged was.now listed.sources) (paths_in listed.sources) listed.changed) }
{
    let many = was.root.get().modules.len();
    let stays = stand_still(from, many);
    let sources = sources_of(alloc, was, root, parses, from, fresh, stays)?;
    let listed = told_sources(alloc, was, sources, from, fresh, stays)?;
    Ok(listed)
}
