//! The results of the committed program, and the root of the edited one.
ghost use Rattle.std.specs.Prelude.{◌≡◌, ◌≤◌, IfOk, IfErr, OnOk, length};
ghost use Rattle.heap_core.specs.Meaning.{none_of};
ghost use Rattle.check_values.specs.Roots.{paths_of};
ghost use Rattle.check_values.specs.declared.root.Root.{Root};
ghost use Rattle.recheck_checking.specs.payloads.specs.State.{program_of};
ghost use Rattle.pending_edits.specs.Counting.{counted};
ghost use Rattle.pending_edits.specs.Pending.{MayBecome};
ghost use Rattle.recheck_checking.specs.edited_root.specs.Reading.{IsUnread};
ghost use Rattle.recheck_run.specs.Recheck.{Commits, HasRoom};
ghost use Rattle.recheck_run.specs.Stages.{old_of, IsBaseIn};

use crate::laws::sound;
use crate::stages::Base;
use committed_results::committed_results;
use flow_base::Folder;
use flow_values::Shared;
use heap_core::HeapWriter;
use pending_edits::Edits;
use recheck_checking::edited_root::{Halt, NextRoot, edited_root};
use recheck_checking::payloads::Payload;
use std::alloc::Global;

/// Reads off the heap all results of the committed program, and reads the folder for each touched path.
///
/// # Errors
///
/// `Unread` where the folder failed, with the path, and `NoMemory` where memory is refused.
pub(crate) fn read_base<W: HeapWriter<Payload>, F: Folder>(
    alloc: Global,
    writer: &W,
    edits: &Edits,
    folder: &mut F,
) -> Result<Base, Halt>
    requires bare { (W.meaning writer.now).staged ≡ none_of (W.meaning writer.now).staged }
    requires room { HasRoom (W.meaning writer.now) edits.now.capacity }
    requires counted { (old : Root) → Commits (W.meaning writer.now) old → counted (paths_of old) edits.now.edits ≤ edits.now.capacity }
    ensures base { IfOk result (IsBaseIn (W.meaning writer.now).committed) }
    ensures few { IfOk result (λ b. length b.root.modules ≤ edits.now.capacity) }
    ensures edited { IfOk result (λ b. MayBecome (F.seen folder.old).told (program_of (old_of b)) edits.now.edits (program_of b.root)) }
    ensures told { (F.seen folder.new).told ≡ (F.seen folder.old).told }
    ensures later { (F.seen folder.old).faults ≤ (F.seen folder.new).faults }
    ensures quiet { OnOk result ((F.seen folder.new).faults ≡ (F.seen folder.old).faults) }
    ensures fault { IfErr result (IsUnread edits.now.edits (F.seen folder.old) (F.seen folder.new)) }
{
    sound(writer);
    let made = committed_results(alloc, writer)?;
    let old = made.sources.root.get();
    let next = edited_root(alloc, old, edits, folder)?;
    let NextRoot {
        root,
        from,
        fresh,
        freed,
    } = next;
    let root = Shared::new(alloc, root)?;
    Ok(Base {
        was: made,
        root,
        from,
        fresh,
        freed,
    })
}
