ghost use Rattle.std.specs.Prelude.{◌≡◌, ◌+◌, ◌^◌, ◌<◌, ◌≤◌, true, false, IfOk, IfErr, OnOk, length, map};
ghost use Rattle.heap_core.specs.Meaning.{none_of};
ghost use Rattle.heap_core.specs.Transactions.{IsStaging};
ghost use Rattle.check_values.specs.Roots.{paths_of};
ghost use Rattle.check_values.specs.declared.root.Root.{Root};
ghost use Rattle.pending_edits.specs.Counting.{counted};
ghost use Rattle.recheck_run.specs.Recheck.{HasRoom, Commits, Rechecked, CountsReads, Tells};
ghost use Rattle.recheck_run.specs.Ends.{IsStaged, IsHalted, IsStop};
ghost use Rattle.recheck_reach.specs.work_totals.specs.Totals.{total};

use crate::laws::{bounded, commits, counted, error_laws, reach_laws, sound};
use crate::outcome::{Halt, Outcome};
use crate::reading::read_base;
use crate::running::run;
use crate::stages::Staged;
use flow_base::{Folder, Turnstile};
use heap_core::HeapWriter;
use pending_edits::Edits;
use recheck_checking::payloads::Payload;
use recheck_reach::analyst::Analyst;
use std::alloc::Global;
use std::sync::Wait;
use std::thread::Threads;
use stops::Stop;

// Reads the edited program, and stages its full check.
fn stage_edited<
    R: Threads + Wait + Sync,
    W: HeapWriter<Payload>,
    F: Folder,
    S: Stop,
    T: Turnstile,
    A: Analyst + Send,
>(
    rt: &R,
    alloc: Global,
    writer: &mut W,
    edits: &Edits,
    folder: &mut F,
    stop: &mut S,
    turns: &T,
    analysts: &mut [A],
) -> Result<Staged, Halt>
    requires some { 0 < length analysts.old }
    requires is_open { (W.meaning writer.old).is_open ≡ true }
    requires bare { (W.meaning writer.old).staged ≡ none_of (W.meaning writer.old).staged }
    requires room { HasRoom (W.meaning writer.old) edits.now.capacity }
    requires counted { (old : Root) → Commits (W.meaning writer.old) old → counted (paths_of old) edits.now.edits ≤ edits.now.capacity }
    ensures ok { IfOk result (IsStaged (record { folder = F.seen folder.old; edits = edits.now; heap = W.meaning writer.old; stop = S.seen stop.old; work = total (map A.work analysts.old) })
        (record { folder = F.seen folder.new; edits = edits.now; heap = W.meaning writer.new; stop = S.seen stop.new; work = total (map A.work analysts.new) })) }
    ensures err { IfErr result (IsHalted (record { folder = F.seen folder.old; edits = edits.now; heap = W.meaning writer.old; stop = S.seen stop.old; work = total (map A.work analysts.old) })
        (record { folder = F.seen folder.new; edits = edits.now; heap = W.meaning writer.new; stop = S.seen stop.new; work = total (map A.work analysts.new) })) }
    ensures staging { IsStaging (W.meaning writer.old) (W.meaning writer.new) }
    ensures is_open { (W.meaning writer.new).is_open ≡ true }
    ensures told { (F.seen folder.new).told ≡ (F.seen folder.old).told }
    ensures told_stop { (S.seen stop.new).told ≡ (S.seen stop.old).told }
    ensures later { (F.seen folder.old).faults ≤ (F.seen folder.new).faults }
    ensures quiet { OnOk result ((F.seen folder.new).faults ≡ (F.seen folder.old).faults) }
    ensures stopped { IfErr result (λ halt. IsStop halt → (F.seen folder.new).faults ≡ (F.seen folder.old).faults) }
    ensures states { W.told writer.new ≡ W.told writer.old }
    ensures part { W.part writer.new ≡ W.part writer.old }
    ensures many { length analysts.new ≡ length analysts.old }
{
    counted(&*analysts);
    bounded(&*stop);
    sound(&*writer);
    committed_results::full_law::each_full();
    let base = read_base(alloc, &*writer, edits, folder)?;
    run(rt, alloc, writer, stop, turns, analysts, &base)
}

/// Rechecks: begins a transaction, reads the folder for each touched path, in rising order of the paths, makes anew what the edits
/// affect of the full check, and commits the edited program with its full check. A module of both programs keeps its row, a new one
/// takes the least that is free, and at a row that is free again nothing stands. What the edits don't affect keeps its version. The
/// edits are then none.
///
/// Sources are read, signatures merged and modules checked by at least one analyst, each in a thread of its own where one can be had.
/// What is committed is the same for any number of them.
///
/// At each poll it passes the turnstile, and asks whether it is to stop: behind the reading, behind the sources, behind the dependency
/// lists, behind each wave of the signatures that are merged, behind each batch of 64 modules that are checked, and before the commit.
/// Where the answer is yes it is cancelled.
///
/// Where it is cancelled, the folder failed or memory was refused, the heap and the edits are as before. No fault of the folder is
/// passed over: where the recheck is done or cancelled it counted none.
pub fn recheck<
    R: Threads + Wait + Sync,
    W: HeapWriter<Payload>,
    F: Folder,
    S: Stop,
    T: Turnstile,
    A: Analyst + Send,
>(
    rt: &R,
    alloc: Global,
    writer: &mut W,
    edits: &mut Edits,
    folder: &mut F,
    stop: &mut S,
    turns: &T,
    analysts: &mut [A],
) -> Outcome
    requires some { 0 < length analysts.old }
    requires closed { (W.meaning writer.old).is_open ≡ false }
    requires version { (W.meaning writer.old).version + 1 < 2 ^ 31 }
    requires room { HasRoom (W.meaning writer.old) edits.old.capacity }
    requires counted { (old : Root) → Commits (W.meaning writer.old) old → counted (paths_of old) edits.old.edits ≤ edits.old.capacity }
    ensures result { Rechecked (record { folder = F.seen folder.old; edits = edits.old; heap = W.meaning writer.old; stop = S.seen stop.old; work = total (map A.work analysts.old) })
        (record { folder = F.seen folder.new; edits = edits.new; heap = W.meaning writer.new; stop = S.seen stop.new; work = total (map A.work analysts.new) }) result }
    ensures closed { (W.meaning writer.new).is_open ≡ false }
    ensures room { HasRoom (W.meaning writer.new) edits.new.capacity }
    ensures capacity { edits.new.capacity ≡ edits.old.capacity }
    ensures told { (F.seen folder.new).told ≡ (F.seen folder.old).told }
    ensures told_stop { (S.seen stop.new).told ≡ (S.seen stop.old).told }
    ensures later { (F.seen folder.old).faults ≤ (F.seen folder.new).faults }
    ensures reads { CountsReads (F.seen folder.old) (F.seen folder.new) result }
    ensures states { Tells (W.told writer.old) (W.told writer.new) (W.meaning writer.new) result }
    ensures part { W.part writer.new ≡ W.part writer.old }
    ensures many { length analysts.new ≡ length analysts.old }
{
    sound(&*writer);
    reach_laws();
    error_laws();
    recheck_checking::affected_law::what_stays();
    commits();
    writer.begin();
    match stage_edited(rt, alloc, writer, &*edits, folder, stop, turns, analysts) {
        Ok(staged) => {
            let version = writer.commit();
            edits.clear();
            Outcome::Done {
                version,
                parsed: staged.parsed,
                checked: staged.checked,
                errors: staged.errors,
            }
        }
        Err(Halt::Stopped(poll)) => {
            writer.rollback();
            Outcome::Cancelled { poll }
        }
        Err(Halt::Unread(path)) => {
            writer.rollback();
            Outcome::ReadFault { path }
        }
        Err(Halt::NoMemory) => {
            writer.rollback();
            Outcome::NoMemory
        }
    }
}
