ghost use Rattle.std.specs.Prelude.{◌≡◌, ◌<◌, length, map};
ghost use Rattle.recheck_run.specs.work_totals.specs.Totals.{total};
ghost use Rattle.entity_heap.specs.Writers.{IsWriterOf};
ghost use Rattle.beside.specs.Beside.{MayRecheck, HasRechecked, state_of};

use entity_heap::{Heap, Writer};
use flow_base::{Folder, Turnstile};
use pending_edits::Edits;
use recheck_run::{Outcome, recheck};
use request_core::analyst::Analyst;
use request_core::payloads::Payload;
use std::alloc::Global;
use std::sync::Wait;
use std::thread::Threads;
use stops::Stop;

/// Rechecks by the writer of a heap.
pub(crate) fn recheck_on<
    R: Threads + Wait + Sync,
    F: Folder,
    S: Stop,
    T: Turnstile,
    A: Analyst + Send,
>(
    rt: &R,
    alloc: Global,
    heap: &Heap<Payload>,
    writer: &mut Writer<Payload>,
    edits: &mut Edits,
    folder: &mut F,
    stop: &mut S,
    turns: &T,
    analysts: &mut [A],
) -> Outcome
    requires from { IsWriterOf heap.now writer.old }
    requires may { MayRecheck writer.old edits.old }
    requires some { 0 < length analysts.old }
    ensures result { HasRechecked heap.now writer.old writer.new (state_of (F.seen folder.old) edits.old writer.old (S.seen stop.old) (total (map A.work analysts.old))) (state_of (F.seen folder.new) edits.new writer.new (S.seen stop.new) (total (map A.work analysts.new))) result }
    ensures many { length analysts.new ≡ length analysts.old }
{
    let mut writing = writer.on(rt, heap);
    recheck(
        rt,
        alloc,
        &mut writing,
        edits,
        folder,
        stop,
        turns,
        analysts,
    )
}
