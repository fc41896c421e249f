//! The edits that wait for the next recheck, beside a server.
ghost use Rattle.std.specs.Prelude.{◌≡◌, ◌≤◌, ◌<◌, ◌+◌, ◌^◌, [], false, length, IfOk, OnOk, OnErr};
ghost use Rattle.std.specs.List.{AllZip};
ghost use Rattle.flow_base.specs.Program.{paths_of as paths_in};
ghost use Rattle.flow_values.specs.Path.{IsRising};
ghost use Rattle.check_values.specs.Roots.{paths_of};
ghost use Rattle.pending_edits.specs.Pending.{with_edit};
ghost use Rattle.pending_edits.specs.Counting.{counted, StandsOn};
ghost use Rattle.pending_edits.specs.declared.edit.Edit.TheVariants.{Put, Touch, Delete};
ghost use Rattle.beside.specs.Recheck.{HasRoom, Commits, CountsReads};
ghost use Rattle.beside.specs.Writers.{meaning_in};
ghost use Rattle.beside.specs.Telling.{versions};
ghost use Rattle.beside.specs.Uses.{MayAnswer, NoneFalls, lanes_after};
ghost use Rattle.beside.specs.Server.{IsRunning, IsToldOfEither, moment_in, uses_of};
ghost use Rattle.script_run.specs.Transcript.{to_touch};
ghost use Rattle.script_run.specs.Session.{StandOnCommitted, AreFew, CountsNoMore, StandsStill, IsReady, HasEnded, Limits, held_by, program_in};

use crate::committed::Committed;
use analyst::Analyst;
use asks::Ask;
use beside::place_analyst::PlaceAnalyst;
use beside::{Outcome, Server, Told, Writer};
use check_values::Root;
use flow_base::{Folder, Turnstile};
use flow_values::{List, NoMemory, Path, Shared, Text};
use heap_core::HeapReader;
use payloads::Payload;
use pending_edits::{EditFault, Edits};
use std::alloc::Global;
use std::sync::Wait;
use std::thread::Threads;
use stops::StopAt;

// Puts a path to those that are to be read, where the modules are then no more than there may be.
fn touch(edits: &mut Edits, root: &Root, path: Path) -> Result<(), NoMemory>
    requires rising { IsRising (paths_of root.now) }
    requires numbered { length root.now.modules < 2 ^ 32 }
    requires stands { StandsOn (paths_of root.now) edits.old }
    requires few { counted (paths_of root.now) (with_edit edits.old.edits path Touch) ≤ edits.old.capacity }
    ensures ok { OnOk result (edits.new.edits ≡ with_edit edits.old.edits path Touch) }
    ensures stands { StandsOn (paths_of root.now) edits.new }
    ensures capacity { edits.new.capacity ≡ edits.old.capacity }
{
    match edits.touch(root, path) {
        Ok(()) => Ok(()),
        Err(EditFault::TooManyModules { .. }) => unreachable!(),
        Err(EditFault::NoMemory) => Err(NoMemory),
    }
}

/// The edits before the load of these paths, which rise: each is to be read.
///
/// # Errors
///
/// `NoMemory` where memory is refused.
#[tactic(auto, using(crate::proofs::PendingEdits::few_all))]
pub(crate) fn touched(alloc: Global, modules: u32, listed: &[Path]) -> Result<Edits, NoMemory>
    requires rising { IsRising listed.now }
    requires few { length listed.now ≤ modules }
    ensures edits { IfOk result (λ edits. edits.edits ≡ to_touch listed.now) }
    ensures capacity { IfOk result (λ edits. edits.capacity ≡ modules) }
    ensures few { IfOk result (λ edits. counted [] edits.edits ≤ modules) }
    ensures stands { IfOk result (StandsOn []) }
{
    let none = Root {
        modules: List::new(alloc),
    };
    let mut edits = Edits::new(alloc, modules);
    for i in 0..listed.len() {
        let path = &listed[i];
        touch(&mut edits, &none, path.share()?)?;
    }
    Ok(edits)
}

/// The root that a writer without an open transaction has committed.
///
/// # Errors
///
/// `NoMemory` where memory is refused.
pub(crate) fn committed_root(writer: &Writer<Payload>) -> Result<Shared<Root>, NoMemory>
    requires closed { (meaning_in writer.now).is_open ≡ false }
    ensures { IfOk result (Commits (meaning_in writer.now)) }
{
    let payload = Committed::of(writer).root()?;
    match &*payload {
        Payload::Root(root) => root.share(),
        _ => Err(NoMemory),
    }
}

/// Puts an edit of the text of a path to the others.
///
/// # Errors
///
/// `TooManyModules` exactly where more modules would be counted than there may be, with their number,
/// and `NoMemory` where memory is refused. The edits are then as before.
pub(crate) fn put_text(
    writer: &Writer<Payload>,
    edits: &mut Edits,
    path: Path,
    text: Text,
) -> Result<(), EditFault>
    requires closed { (meaning_in writer.now).is_open ≡ false }
    requires room { HasRoom (meaning_in writer.now) edits.old.capacity }
    requires few { AreFew (meaning_in writer.now) edits.old }
    requires stands { StandOnCommitted (meaning_in writer.now) edits.old }
    ensures ok { OnOk result (edits.new.edits ≡ with_edit edits.old.edits path (Put text)) }
    ensures err { OnErr result (edits.new.edits ≡ edits.old.edits) }
    ensures too_many { Limits edits.old.capacity (counted (paths_in (program_in (meaning_in writer.now).committed)) (with_edit edits.old.edits path (Put text))) result }
    ensures few { AreFew (meaning_in writer.now) edits.new }
    ensures stands { StandOnCommitted (meaning_in writer.now) edits.new }
    ensures capacity { edits.new.capacity ≡ edits.old.capacity }
{
    let root = committed_root(writer)?;
    edits.put(root.get(), path, text)
}

/// Puts a path to those that the next recheck reads.
///
/// # Errors
///
/// `TooManyModules` exactly where more modules would be counted than there may be, with their number,
/// and `NoMemory` where memory is refused. The edits are then as before.
pub(crate) fn touch_path(
    writer: &Writer<Payload>,
    edits: &mut Edits,
    path: Path,
) -> Result<(), EditFault>
    requires closed { (meaning_in writer.now).is_open ≡ false }
    requires room { HasRoom (meaning_in writer.now) edits.old.capacity }
    requires few { AreFew (meaning_in writer.now) edits.old }
    requires stands { StandOnCommitted (meaning_in writer.now) edits.old }
    ensures ok { OnOk result (edits.new.edits ≡ with_edit edits.old.edits path Touch) }
    ensures err { OnErr result (edits.new.edits ≡ edits.old.edits) }
    ensures too_many { Limits edits.old.capacity (counted (paths_in (program_in (meaning_in writer.now).committed)) (with_edit edits.old.edits path Touch)) result }
    ensures few { AreFew (meaning_in writer.now) edits.new }
    ensures stands { StandOnCommitted (meaning_in writer.now) edits.new }
    ensures capacity { edits.new.capacity ≡ edits.old.capacity }
{
    let root = committed_root(writer)?;
    edits.touch(root.get(), path)
}

/// Deletes a path. No more modules are counted then, whatever the program is.
///
/// # Errors
///
/// `NoMemory` where memory is refused. The edits are then as before.
pub(crate) fn delete_path(edits: &mut Edits, path: Path) -> Result<(), NoMemory>
    ensures ok { OnOk result (edits.new.edits ≡ with_edit edits.old.edits path Delete) }
    ensures err { OnErr result (edits.new.edits ≡ edits.old.edits) }
    ensures no_more { CountsNoMore edits.old edits.new }
    ensures stands { StandsStill edits.old edits.new }
    ensures capacity { edits.new.capacity ≡ edits.old.capacity }
{
    edits.delete(path)
}

/// Rechecks with these asks beside it, and stops at this poll, counted from 1, where it comes to it; with
/// 0 it goes through all polls. At each it passes the turnstile. The edits stand on the program that is
/// then committed.
///
/// # Errors
///
/// `NoMemory` where memory is refused. Then nothing is committed, or what a recheck that is done commits.
pub(crate) fn recheck_edited<
    R: Threads + Wait + Sync,
    F: Folder,
    T: Turnstile + Sync,
    A: Analyst + PlaceAnalyst + Send,
>(
    rt: &R,
    alloc: Global,
    server: &mut Server,
    edits: &mut Edits,
    stop: u64,
    asks: &[Ask],
    folder: &mut F,
    turns: &T,
    analysts: &mut [A],
    askers: &mut [A],
) -> Result<(Outcome, List<Told>), NoMemory>
    requires running { IsRunning server.old }
    requires some { 0 < length analysts.old }
    requires askers { length askers.old ≡ length server.old.lanes }
    requires version { (meaning_in server.old.writer).version + 1 < 2 ^ 31 }
    requires ready { IsReady (held_by server.old edits.old) }
    requires pins { MayAnswer (length asks.now) (uses_of server.old.lanes) }
    ensures running { IsRunning server.new }
    ensures ready { IsReady (held_by server.new edits.new) }
    ensures many { length server.new.lanes ≡ length server.old.lanes }
    ensures capacity { edits.new.capacity ≡ edits.old.capacity }
    ensures told { (F.seen folder.new).told ≡ (F.seen folder.old).told }
    ensures later { (F.seen folder.old).faults ≤ (F.seen folder.new).faults }
    ensures ended { IfOk result (λ done. HasEnded stop (F.seen folder.old) (F.seen folder.new) (held_by server.old edits.old) (held_by server.new edits.new) done.0) }
    ensures reads { IfOk result (λ done. CountsReads (F.seen folder.old) (F.seen folder.new) done.0) }
    ensures answers { IfOk result (λ done. AllZip (IsToldOfEither (moment_in server.old.writer) (moment_in server.new.writer)) asks.now done.1) }
    ensures falls_not { IfOk result (λ done. NoneFalls (uses_of server.old.lanes) (versions done.1)) }
    ensures lanes { IfOk result (λ done. uses_of server.new.lanes ≡ lanes_after (uses_of server.old.lanes) (versions done.1)) }
{
    let mut asked = StopAt::new(stop);
    server.recheck_beside(
        rt, alloc, edits, folder, &mut asked, turns, analysts, askers, asks,
    )
}
