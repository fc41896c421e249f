//! The modules of the edited program: the old ones and the edits, walked together.
ghost use Rattle.std.specs.Prelude.{◌≡◌, ◌<◌, ◌≤◌, ◌^◌, ◌++◌, false, [], ◌∷◌, length, slice_get, Some, IfOk, IfErr, OnOk};
ghost use Rattle.std.specs.List.{AllByRecursion};
ghost use Rattle.flow_values.specs.Path.{IsRising};
ghost use Rattle.flow_base.specs.Program.{Program, paths_of};
ghost use Rattle.check_values.specs.Roots.{paths_of_rows};
ghost use Rattle.pending_edits.specs.Counting.{counted};
ghost use Rattle.pending_edits.specs.Pending.{MayBecome};
ghost use Rattle.edited_root.specs.From.{texts_in};
ghost use Rattle.edited_root.specs.Reading.{Gives, IsUnread};
ghost use Rattle.edited_root.specs.Walk.{IsDraftOf, drafted, is_below, is_here, behind, draft_beside, drafts_beside, KeepsOne, Walks, GivesText, StandsBefore, AreDrafts};

use crate::halt::Halt;
use check_values::RootRow;
use flow_base::{Folder, FolderFault};
use flow_values::{NoMemory, Path, Text};
use pending_edits::{Edit, Edits};
use std::alloc::Global;

/// A module of the edited program.
#[derive(Drop)]
pub(crate) struct Draft {
    pub path: Path,
    pub text: Text,
    /// Its number among the old modules, if it was one of them.
    pub from: Option<u32>,
    /// It is new, or has another text than before.
    pub fresh: bool,
}

// The text that an edit gives a path, or `None` where the path is then no module.
fn text_by<F: Folder>(folder: &mut F, path: &Path, edit: &Edit) -> Result<Option<Text>, Halt>
    ensures text { IfOk result (Gives (F.seen folder.old).told path.now edit.now) }
    ensures told { (F.seen folder.new).told ≡ (F.seen folder.old).told }
    ensures later { (F.seen folder.old).faults ≤ (F.seen folder.new).faults }
    ensures quiet { OnOk result ((F.seen folder.new).faults ≡ (F.seen folder.old).faults) }
    ensures fault { IfErr result (IsUnread ((path.now, edit.now) ∷ []) (F.seen folder.old) (F.seen folder.new)) }
{
    match edit {
        Edit::Put(text) => Ok(Some(text.share()?)),
        Edit::Delete => Ok(None),
        Edit::Touch => match folder.read(path) {
            Ok(text) => Ok(text),
            Err(FolderFault::Failed) => Err(Halt::Unread(path.share()?)),
            Err(FolderFault::NoMemory) => Err(Halt::NoMemory),
        },
    }
}

// The module of a number is there, and its path is below this one.
fn is_below(modules: &[RootRow], at: usize, path: &Path) -> bool
    ensures { result ≡ is_below (slice_get modules.now at) path.now }
{
    match modules.get(at) {
        Some(module) => module.path < *path,
        None => false,
    }
}

// The module of a number is there, and has this path.
fn is_here(modules: &[RootRow], at: usize, path: &Path) -> bool
    ensures { result ≡ is_here (slice_get modules.now at) path.now }
{
    match modules.get(at) {
        Some(module) => module.path == *path,
        None => false,
    }
}

// Takes over the module of a number as it was.
fn keep(modules: &[RootRow], at: usize, drafts: &mut Vec<Draft>) -> Result<(), NoMemory>
    requires few { length modules.now < 2 ^ 32 }
    requires within { at < length modules.now }
    ensures { OnOk result (KeepsOne modules.now at drafts.old.items drafts.new.items) }
{
    let module = &modules[at];
    drafts.push(Draft {
        path: module.path.share()?,
        text: module.text.share()?,
        from: Some(at as u32),
        fresh: false,
    })?;
    Ok(())
}

// Takes over the modules below a path from a number on, and answers the number behind them.
#[tactic(auto, using(crate::proofs::Walked::below_there))]
fn keep_below(
    modules: &[RootRow],
    mut at: usize,
    path: &Path,
    drafts: &mut Vec<Draft>,
) -> Result<usize, NoMemory>
    requires rising { IsRising (paths_of_rows modules.now) }
    requires few { length modules.now < 2 ^ 32 }
    requires within { at ≤ length modules.now }
    ensures within { IfOk result (λ next. next ≤ length modules.now) }
    ensures walks { IfOk result (λ next. Walks modules.now path.now at next drafts.old.items drafts.new.items) }
    ensures ends { IfOk result (λ next. is_below (slice_get modules.now next) path.now ≡ false) }
{
    while is_below(modules, at, path) {
        keep(modules, at, drafts)?;
        at += 1;
    }
    Ok(at)
}

// A path with its text, beside an old module.
fn draft_by(old: &RootRow, at: usize, path: Path, text: Text) -> Draft
    requires { at < 2 ^ 32 }
    ensures { result ≡ draft_beside (Some old.now) at path text }
{
    if old.path == path {
        Draft {
            path,
            fresh: old.text != text,
            text,
            from: Some(at as u32),
        }
    } else {
        Draft {
            path,
            text,
            from: None,
            fresh: true,
        }
    }
}

// The module of a path with this text, beside the old module of a number.
fn draft_beside(modules: &[RootRow], at: usize, path: Path, text: Text) -> Draft
    requires { length modules.now < 2 ^ 32 }
    ensures { result ≡ draft_beside (slice_get modules.now at) at path text }
{
    match modules.get(at) {
        Some(module) => draft_by(module, at, path, text),
        None => Draft {
            path,
            text,
            from: None,
            fresh: true,
        },
    }
}

// Puts down a path with its text, if it has one.
fn put_down(
    modules: &[RootRow],
    at: usize,
    path: &Path,
    text: Option<Text>,
    drafts: &mut Vec<Draft>,
) -> Result<(), NoMemory>
    requires { length modules.now < 2 ^ 32 }
    ensures { OnOk result (drafts.new.items ≡ drafts.old.items ++ drafts_beside (slice_get modules.now at) at path.now text) }
{
    if let Some(text) = text {
        let draft = draft_beside(modules, at, path.share()?, text);
        drafts.push(draft)?;
    }
    Ok(())
}

// The number of the first module behind a path.
fn behind(modules: &[RootRow], at: usize, path: &Path) -> usize
    requires { at ≤ length modules.now }
    ensures behind { result ≡ behind (slice_get modules.now at) at path.now }
    ensures within { result ≤ length modules.now }
{
    if is_here(modules, at, path) {
        at + 1
    } else {
        at
    }
}

// Gives a path this text, or makes it no module, where the old modules from this number on are not below the path; answers the
// number of the first one behind the path.
fn give(
    modules: &[RootRow],
    at: usize,
    path: &Path,
    text: Option<Text>,
    drafts: &mut Vec<Draft>,
) -> Result<usize, NoMemory>
    requires rising { IsRising (paths_of_rows modules.now) }
    requires few { length modules.now < 2 ^ 32 }
    requires within { at ≤ length modules.now }
    requires reached { is_below (slice_get modules.now at) path.now ≡ false }
    ensures within { IfOk result (λ next. next ≤ length modules.now) }
    ensures gives { IfOk result (λ next. GivesText modules.now path.now text at next drafts.old.items drafts.new.items) }
{
    put_down(modules, at, path, text, drafts)?;
    Ok(behind(modules, at, path))
}

// Takes over the modules from a number on.
fn keep_rest(modules: &[RootRow], at: usize, drafts: &mut Vec<Draft>) -> Result<(), NoMemory>
    requires rising { IsRising (paths_of_rows modules.now) }
    requires few { length modules.now < 2 ^ 32 }
    ensures { OnOk result ((program : Program) → StandsBefore modules.now program [] at drafts.old.items → AreDrafts modules.now program drafts.new.items) }
{
    for i in at..modules.len() {
        keep(modules, i, drafts)?;
    }
    Ok(())
}

/// The modules of the edited program, in order. The folder is read once for each touched path, in rising order of the paths.
///
/// # Errors
///
/// `Unread` where the folder failed, with the path, and `NoMemory` where memory is refused.
pub(crate) fn walk<F: Folder>(
    alloc: Global,
    modules: &[RootRow],
    edits: &Edits,
    folder: &mut F,
) -> Result<Vec<Draft>, Halt>
    requires rising { IsRising (paths_of_rows modules.now) }
    requires few { length modules.now < 2 ^ 32 }
    ensures program { IfOk result (λ drafts. MayBecome (F.seen folder.old).told (texts_in modules.now) edits.now.edits (drafted drafts.items)) }
    ensures rising { IfOk result (λ drafts. IsRising (paths_of (drafted drafts.items))) }
    ensures few { IfOk result (λ drafts. length drafts.items ≤ counted (paths_of_rows modules.now) edits.now.edits) }
    ensures right { IfOk result (λ drafts. AllByRecursion (IsDraftOf modules.now) drafts.items) }
    ensures told { (F.seen folder.new).told ≡ (F.seen folder.old).told }
    ensures later { (F.seen folder.old).faults ≤ (F.seen folder.new).faults }
    ensures quiet { OnOk result ((F.seen folder.new).faults ≡ (F.seen folder.old).faults) }
    ensures fault { IfErr result (IsUnread edits.now.edits (F.seen folder.old) (F.seen folder.new)) }
{
    let mut drafts = Vec::new(alloc);
    let mut at = 0;
    let rows = edits.rows();
    for (path, edit) in rows {
        let text = text_by(folder, path, edit)?;
        at = keep_below(modules, at, path, &mut drafts)?;
        at = give(modules, at, path, text, &mut drafts)?;
    }
    keep_rest(modules, at, &mut drafts)?;
    Ok(drafts)
}
