ghost use Rattle.std.specs.Prelude.{◌≡◌, ◌≤◌, ◌+◌, ◌*◌, IfOk, IfErr, OnOk, length, map};
ghost use Rattle.std.specs.List.{AllByRecursion};
ghost use Rattle.flow_values.specs.Path.{IsRising};
ghost use Rattle.flow_base.specs.Program.{paths_of as paths_in};
ghost use Rattle.check_values.specs.Roots.{paths_of};
ghost use Rattle.payloads.specs.State.{program_of, IsRoot};
ghost use Rattle.pending_edits.specs.Counting.{counted};
ghost use Rattle.pending_edits.specs.Pending.{MayBecome};
ghost use Rattle.pending_edits.specs.Rows.{Follows};
ghost use Rattle.edited_root.specs.From.{numbers_from, fresh_from, freed_from};
ghost use Rattle.edited_root.specs.Reading.{IsUnread};
ghost use Rattle.edited_root.specs.Walk.{IsDraftOf, drafted};

use crate::halt::Halt;
use crate::numbering::{freed_rows, give_rows, kept_rows, marks_of};
use crate::walking::{Draft, walk};
use check_values::Root;
use flow_base::Folder;
use flow_values::NoMemory;
use pending_edits::Edits;
use std::alloc::Global;

/// The root of the edited program, with what its modules were in the old one.
#[derive(Drop)]
pub struct NextRoot {
    /// The modules of the edited program.
    pub root: Root,
    /// For each of them its number among the modules of the old root, if it was one of them.
    pub from: Vec<Option<u32>>,
    /// For each of them whether it is new or has another text than before.
    pub fresh: Vec<bool>,
    /// The rows of the old root that the new one doesn't use.
    pub freed: Vec<u32>,
}

// The number that each module had.
fn numbers(alloc: Global, drafts: &[Draft]) -> Result<Vec<Option<u32>>, NoMemory>
    ensures { IfOk result (λ numbers. numbers.items ≡ map (λ d. d.from) drafts.now) }
{
    let mut numbers = Vec::new(alloc);
    for draft in drafts {
        numbers.push(draft.from)?;
    }
    Ok(numbers)
}

// Whether each module is new or has another text.
fn fresh_ones(alloc: Global, drafts: &[Draft]) -> Result<Vec<bool>, NoMemory>
    ensures { IfOk result (λ fresh. fresh.items ≡ map (λ d. d.fresh) drafts.now) }
{
    let mut fresh = Vec::new(alloc);
    for draft in drafts {
        fresh.push(draft.fresh)?;
    }
    Ok(fresh)
}

// The root of these modules, in a heap for so many.
fn next_root(
    alloc: Global,
    old: &Root,
    drafts: &[Draft],
    capacity: u32,
) -> Result<NextRoot, NoMemory>
    requires root { IsRoot (4 * capacity + 1) old.now }
    requires rising { IsRising (paths_in (drafted drafts.now)) }
    requires right { AllByRecursion (IsDraftOf old.now.modules) drafts.now }
    requires few { length drafts.now ≤ capacity }
    ensures root { IfOk result (λ next. IsRoot (4 * capacity + 1) next.root) }
    ensures follows { IfOk result (λ next. Follows old.now (drafted drafts.now) next.root) }
    ensures from { IfOk result (λ next. next.from.items ≡ numbers_from old.now next.root) }
    ensures fresh { IfOk result (λ next. next.fresh.items ≡ fresh_from old.now next.root) }
    ensures freed { IfOk result (λ next. next.freed.items ≡ freed_from old.now next.root) }
{
    let kept = kept_rows(alloc, old.modules.as_slice(), drafts)?;
    let marks = marks_of(alloc, kept.as_slice(), capacity)?;
    let from = numbers(alloc, drafts)?;
    let fresh = fresh_ones(alloc, drafts)?;
    let modules = give_rows(alloc, drafts, kept.as_slice(), marks.as_slice())?;
    let root = Root { modules };
    let freed = freed_rows(alloc, old, &root, capacity)?;
    Ok(NextRoot {
        root,
        from,
        fresh,
        freed,
    })
}

/// The root of the program that the old root's becomes by the edits, in a heap for as many modules as may be counted. The folder is
/// read once for each touched path, in rising order of the paths. A module of both programs keeps its row, and a new one takes the
/// least that is free. Texts are compared for edited paths alone.
///
/// # Errors
///
/// `Unread` where the folder failed, with the path, and `NoMemory` where memory is refused.
pub fn edited_root<F: Folder>(
    alloc: Global,
    old: &Root,
    edits: &Edits,
    folder: &mut F,
) -> Result<NextRoot, Halt>
    requires root { IsRoot (4 * edits.now.capacity + 1) old.now }
    requires counted { counted (paths_of old.now) edits.now.edits ≤ edits.now.capacity }
    ensures root { IfOk result (λ next. IsRoot (4 * edits.now.capacity + 1) next.root) }
    ensures follows { IfOk result (λ next. Follows old.now (program_of next.root) next.root) }
    ensures edited { IfOk result (λ next. MayBecome (F.seen folder.old).told (program_of old.now) edits.now.edits (program_of next.root)) }
    ensures from { IfOk result (λ next. next.from.items ≡ numbers_from old.now next.root) }
    ensures fresh { IfOk result (λ next. next.fresh.items ≡ fresh_from old.now next.root) }
    ensures freed { IfOk result (λ next. next.freed.items ≡ freed_from old.now next.root) }
    ensures told { (F.seen folder.new).told ≡ (F.seen folder.old).told }
    ensures later { (F.seen folder.old).faults ≤ (F.seen folder.new).faults }
    ensures quiet { OnOk result ((F.seen folder.new).faults ≡ (F.seen folder.old).faults) }
    ensures fault { IfErr result (IsUnread edits.now.edits (F.seen folder.old) (F.seen folder.new)) }
{
    let capacity = edits.capacity();
    let drafts = walk(alloc, old.modules.as_slice(), edits, folder)?;
    Ok(next_root(alloc, old, drafts.as_slice(), capacity)?)
}
