//! The rows of the edited program: a module of both programs keeps its row, and a new one takes the least that is free.
ghost use Rattle.std.specs.Prelude.{◌≡◌, ◌<◌, ◌≤◌, ◌*◌, ◌+◌, ◌^◌, IfOk, length, map, drop};
ghost use Rattle.payloads.specs.State.{IsRoot};
ghost use Rattle.pending_edits.specs.Rows.{next_from};
ghost use Rattle.edited_root.specs.From.{rows_in, freed_from};
ghost use Rattle.edited_root.specs.Walk.{drafted};
ghost use Rattle.edited_root.specs.Numbering.{somes, Marks, AreMarks, FindsFree, IsGivenRow, AreGiven, row_by, ons, offs, news, new_one};

use crate::walking::Draft;
use check_values::{Root, RootRow};
use flow_values::{List, NoMemory};
use std::alloc::Global;

// The row of the old module of a number.
fn row_by(modules: &[RootRow], number: Option<u32>) -> Option<u32>
    ensures { result ≡ row_by modules.now number }
{
    match number {
        Some(at) => match modules.get(at as usize) {
            Some(module) => Some(module.row),
            None => None,
        },
        None => None,
    }
}

/// The rows that stand already for the modules of the edited program: for each module its own, if it has one.
pub(crate) fn kept_rows(
    alloc: Global,
    modules: &[RootRow],
    drafts: &[Draft],
) -> Result<Vec<Option<u32>>, NoMemory>
    ensures { IfOk result (λ kept. kept.items ≡ map (λ d. row_by modules.now d.from) drafts.now) }
{
    let mut kept = Vec::new(alloc);
    for draft in drafts {
        kept.push(row_by(modules, draft.from))?;
    }
    Ok(kept)
}

// Marks a row, where there is one.
#[tactic(auto, using(crate::proofs::Marks::marks_none, crate::proofs::Marks::ons_none))]
fn mark(marks: &mut Vec<bool>, row: Option<u32>)
    ensures marks { Marks row marks.old.items marks.new.items }
    ensures few { ons marks.new.items + new_one row ≤ ons marks.old.items + 1 }
{
    if let Some(row) = row {
        if (row as usize) < marks.len() {
            marks[row as usize] = true;
        }
    }
}

/// A mark for each row of a heap for so many modules, on where it stands already.
#[tactic(auto, using(crate::proofs::Marks::no_marks, crate::proofs::Marks::all_marks))]
pub(crate) fn marks_of(
    alloc: Global,
    kept: &[Option<u32>],
    capacity: u32,
) -> Result<Vec<bool>, NoMemory>
    ensures marks { IfOk result (λ marks. AreMarks (somes kept.now) capacity marks.items) }
    ensures few { IfOk result (λ marks. ons marks.items + news kept.now ≤ length kept.now) }
{
    let mut marks = vec![in alloc; false; capacity as usize]?;
    for i in 0..kept.len() {
        mark(&mut marks, kept[i]);
    }
    Ok(marks)
}

// The least row from `at` on that has no mark.
fn next_free(marks: &[bool], mut at: usize) -> usize
    requires { 0 < offs (drop at marks.now) }
    ensures { FindsFree marks.now at result }
{
    while marks[at] {
        at += 1;
    }
    at
}

// The row of a module, by the one that it has already or else by the marks, and from where on the next new one looks for its row.
fn give_row(marks: &[bool], at: usize, kept: Option<u32>) -> (u32, usize)
    requires few { length marks.now < 2 ^ 32 }
    requires enough { new_one kept ≤ offs (drop at marks.now) }
    ensures row { IsGivenRow marks.now at kept result.0 }
    ensures next { result.1 ≡ next_from at kept result.0 }
{
    match kept {
        Some(row) => (row, at),
        None => {
            let free = next_free(marks, at);
            (free as u32, free + 1)
        }
    }
}

/// The modules of the edited program with their rows.
#[tactic(auto, using(crate::proofs::Enough::row_left))]
pub(crate) fn give_rows(
    alloc: Global,
    drafts: &[Draft],
    kept: &[Option<u32>],
    marks: &[bool],
) -> Result<List<RootRow>, NoMemory>
    requires many { length kept.now ≡ length drafts.now }
    requires few { length marks.now < 2 ^ 32 }
    requires enough { news kept.now ≤ offs marks.now }
    ensures { IfOk result (AreGiven kept.now marks.now 0 (drafted drafts.now)) }
{
    let mut modules = List::new(alloc);
    let mut at = 0;
    for i in 0..drafts.len() {
        let draft = &drafts[i];
        let given = give_row(marks, at, kept[i]);
        modules.push(RootRow {
            path: draft.path.share()?,
            row: given.0,
            text: draft.text.share()?,
        })?;
        at = given.1;
    }
    Ok(modules)
}

// A mark for each row of a heap for so many modules, on where it is one of these modules'.
#[tactic(auto, using(crate::proofs::Marks::no_marks, crate::proofs::Marks::all_rows))]
fn marks_of_rows(alloc: Global, modules: &[RootRow], capacity: u32) -> Result<Vec<bool>, NoMemory>
    ensures { IfOk result (λ marks. AreMarks (map (λ m. m.row) modules.now) capacity marks.items) }
{
    let mut marks = vec![in alloc; false; capacity as usize]?;
    for i in 0..modules.len() {
        mark(&mut marks, Some(modules[i].row));
    }
    Ok(marks)
}

/// The rows of the old root that the new one doesn't use.
///
/// # Errors
///
/// `NoMemory` where memory is refused.
pub(crate) fn freed_rows(
    alloc: Global,
    old: &Root,
    new: &Root,
    capacity: u32,
) -> Result<Vec<u32>, NoMemory>
    requires { IsRoot (4 * capacity + 1) old.now }
    ensures { IfOk result (λ freed. freed.items ≡ freed_from old.now new.now) }
{
    let marks = marks_of_rows(alloc, new.modules.as_slice(), capacity)?;
    let modules = old.modules.as_slice();
    let mut freed = Vec::new(alloc);
    for i in 0..modules.len() {
        let row = modules[i].row;
        if marks[row as usize] {
            continue;
        }
        freed.push(row)?;
    }
    Ok(freed)
}
