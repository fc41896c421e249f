ghost use Rattle.std.specs.Prelude.{◌≡◌, ◌<◌, IfOk, OnOk, OnErr, length, map};
ghost use Rattle.std.specs.List.{AllZip};
ghost use Rattle.std.specs.Thread.{IsSync, IsSend};
ghost use Rattle.recheck_run.specs.work_totals.specs.Totals.{total};
ghost use Rattle.entity_heap.specs.Writers.{IsWriterOf, plan_in, meaning_in};
ghost use Rattle.lane_asks.specs.Dealing.{AreOpen};
ghost use Rattle.lane_asks.specs.Telling.{IsSameLane, IsReady, AllTold, AllHaveTold, IsToldFrom};
ghost use Rattle.beside.specs.Beside.{IsServer, MayPin, MayRecheck, HasRechecked, MayHaveRechecked, RowsTell, state_of, AnswersFrom, WorksAs};

use crate::asking::{Asking, Told};
use crate::rechecking::recheck_on;
use asks::{Answer, Ask, AskFault};
use entity_heap::{Heap, Lane, Writer};
use flow_base::{Folder, Turnstile};
use flow_values::{List, NoMemory};
use lane_asks::{Row, answer_beside, gather, open_rows};
use pending_edits::Edits;
use recheck_run::Outcome;
use request_core::analyst::Analyst;
use request_core::payloads::Payload;
use request_core::place_analyst::PlaceAnalyst;
use std::alloc::Global;
use std::sync::Wait;
use std::thread::Threads;
use stops::Stop;

// Rechecks in this thread while the lanes answer.
fn run_beside<
    R: Threads + Wait + Sync,
    F: Folder,
    S: Stop,
    T: Turnstile + Sync,
    A: Analyst + PlaceAnalyst + Send,
>(
    rt: &R,
    alloc: Global,
    heap: &Heap<Payload>,
    writer: &mut Writer<Payload>,
    lanes: &mut [Lane<Payload>],
    edits: &mut Edits,
    folder: &mut F,
    stop: &mut S,
    turns: &T,
    analysts: &mut [A],
    askers: &mut [A],
    rows: &mut [Row<Told>],
    asks: &[Ask],
) -> (Result<(), NoMemory>, Outcome)
    requires from { IsWriterOf heap.now writer.old }
    requires may { MayRecheck writer.old edits.old }
    requires some { (0 < length analysts.old) × (0 < length lanes.old) }
    requires askers { length askers.old ≡ length lanes.old }
    requires rows { length rows.old ≡ length lanes.old }
    requires ready { AllZip (IsReady heap.now asks.now) lanes.old rows.old }
    ensures kept { AllZip (IsSameLane heap.now) lanes.old lanes.new }
    ensures told { OnOk result.0 (AllTold AnswersFrom (WorksAs A.work) asks.now lanes.old lanes.new askers.old askers.new rows.old rows.new) }
    ensures rechecked { HasRechecked heap.now writer.old writer.new (state_of (F.seen folder.old) edits.old writer.old (S.seen stop.old) (total (map A.work analysts.old))) (state_of (F.seen folder.new) edits.new writer.new (S.seen stop.new) (total (map A.work analysts.new))) result.1 }
    ensures analysts { length analysts.new ≡ length analysts.old }
{
    answer_beside::<R, Payload, T, A, Ask, Result<Answer, AskFault>, Asking, _, Outcome>(
        rt,
        heap,
        turns,
        lanes,
        askers,
        rows,
        asks,
        &mut || -> Outcome
            requires { IsSync R.row × IsSend A.row × IsSync T.row × IsWriterOf heap.now writer.now × MayRecheck writer.now edits.now × (0 < length analysts.now) }
            ensures rechecked { HasRechecked heap.entry.now writer.entry.now writer.exit.now (state_of (F.seen folder.entry.now) edits.entry.now writer.entry.now (S.seen stop.entry.now) (total (map A.work analysts.entry.now))) (state_of (F.seen folder.exit.now) edits.exit.now writer.exit.now (S.seen stop.exit.now) (total (map A.work analysts.exit.now))) result }
            ensures analysts { length analysts.exit.now ≡ length analysts.entry.now }
        {
            recheck_on(
                rt, alloc, heap, writer, edits, folder, stop, turns, analysts,
            )
        },
    )
}

// The writer meets the lanes, rechecks while they answer, and meets them again.
fn meet_and_run<
    R: Threads + Wait + Sync,
    F: Folder,
    S: Stop,
    T: Turnstile + Sync,
    A: Analyst + PlaceAnalyst + Send,
>(
    rt: &R,
    alloc: Global,
    heap: &Heap<Payload>,
    writer: &mut Writer<Payload>,
    lanes: &mut [Lane<Payload>],
    edits: &mut Edits,
    folder: &mut F,
    stop: &mut S,
    turns: &T,
    analysts: &mut [A],
    askers: &mut [A],
    rows: &mut [Row<Told>],
    asks: &[Ask],
) -> (Result<(), NoMemory>, Outcome)
    requires server { IsServer heap.now writer.old lanes.old }
    requires may { MayRecheck writer.old edits.old }
    requires some { 0 < length analysts.old }
    requires askers { length askers.old ≡ length lanes.old }
    requires pins { MayPin (length asks.now) lanes.old }
    requires rows { (length rows.old ≡ length lanes.old) × AreOpen rows.old }
    ensures server { IsServer heap.now writer.new lanes.new }
    ensures many { (length lanes.new ≡ length lanes.old) × (length rows.new ≡ length lanes.old) × (length analysts.new ≡ length analysts.old) }
    ensures rechecked { HasRechecked heap.now writer.old writer.new (state_of (F.seen folder.old) edits.old writer.old (S.seen stop.old) (total (map A.work analysts.old))) (state_of (F.seen folder.new) edits.new writer.new (S.seen stop.new) (total (map A.work analysts.new))) result.1 }
    ensures tells { OnOk result.0 (RowsTell A.work (plan_in writer.new).history (meaning_in writer.old).version (meaning_in writer.new).version lanes.old lanes.new askers.old askers.new asks.now rows.new) }
{
    writer.meet_all(lanes, heap);
    let (told, outcome) = run_beside(
        rt, alloc, heap, writer, lanes, edits, folder, stop, turns, analysts, askers, rows, asks,
    );
    writer.meet_all(lanes, heap);
    (told, outcome)
}

/// Rechecks by the writer of a heap, and answers on its lanes what is asked meanwhile. The writer meets every lane before and after. Ask i
/// is answered on the lane at place i mod the number of lanes, in order, each lane on a thread of its own, where one can be had: it pins
/// a version, passes the turnstile, answers from the pinned state, and is done. The recheck runs in this thread.
///
/// It answers how the recheck ended, and for each ask, in order, what was answered and from which version: one that was committed at some
/// moment of this call, and on one lane never an earlier one than before.
///
/// # Errors
///
/// `NoMemory` where memory is refused. Then nothing is committed, or what a recheck that is done commits.
pub fn beside<
    R: Threads + Wait + Sync,
    F: Folder,
    S: Stop,
    T: Turnstile + Sync,
    A: Analyst + PlaceAnalyst + Send,
>(
    rt: &R,
    alloc: Global,
    heap: &Heap<Payload>,
    writer: &mut Writer<Payload>,
    lanes: &mut [Lane<Payload>],
    edits: &mut Edits,
    folder: &mut F,
    stop: &mut S,
    turns: &T,
    analysts: &mut [A],
    askers: &mut [A],
    asks: &[Ask],
) -> Result<(Outcome, List<Told>), NoMemory>
    requires server { IsServer heap.now writer.old lanes.old }
    requires may { MayRecheck writer.old edits.old }
    requires some { 0 < length analysts.old }
    requires askers { length askers.old ≡ length lanes.old }
    requires pins { MayPin (length asks.now) lanes.old }
    ensures server { IsServer heap.now writer.new lanes.new }
    ensures many { (length lanes.new ≡ length lanes.old) × (length analysts.new ≡ length analysts.old) }
    ensures rechecked { IfOk result (λ done. HasRechecked heap.now writer.old writer.new (state_of (F.seen folder.old) edits.old writer.old (S.seen stop.old) (total (map A.work analysts.old))) (state_of (F.seen folder.new) edits.new writer.new (S.seen stop.new) (total (map A.work analysts.new))) done.0) }
    ensures told { IfOk result (λ done. AllZip (IsToldFrom AnswersFrom (plan_in writer.new).history (meaning_in writer.old).version (meaning_in writer.new).version) asks.now done.1) }
    ensures lanes { IfOk result (λ done. AllHaveTold (WorksAs A.work) (meaning_in writer.new).version lanes.old lanes.new askers.old askers.new asks.now done.1) }
    ensures err { OnErr result (MayHaveRechecked heap.now writer.old writer.new (state_of (F.seen folder.old) edits.old writer.old (S.seen stop.old) (total (map A.work analysts.old))) (state_of (F.seen folder.new) edits.new writer.new (S.seen stop.new) (total (map A.work analysts.new)))) }
{
    let mut rows = open_rows(alloc, lanes.len())?;
    let (told, outcome) = meet_and_run(
        rt,
        alloc,
        heap,
        writer,
        lanes,
        edits,
        folder,
        stop,
        turns,
        analysts,
        askers,
        rows.as_mut_slice(),
        asks,
    );
    told?;
    let all = gather(alloc, rows, asks)?;
    Ok((outcome, List::from_vec(all)))
}
