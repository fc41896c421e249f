//! The heap of modules as it runs, and its two calls: a recheck with asks beside it, and one ask.
ghost use Rattle.std.specs.Prelude.{◌≡◌, ◌+◌, ◌^◌, ◌<◌, ◌≤◌, [], ◌∷◌, IfOk, OnErr, length, map};
ghost use Rattle.std.specs.List.{AllZip};
ghost use Rattle.recheck_run.specs.work_totals.specs.Totals.{total};
ghost use Rattle.request_core.specs.Works.{WorksFor};
ghost use Rattle.entity_heap.specs.Lanes.{visit_in, IsLaneOf};
ghost use Rattle.entity_heap.specs.Writers.{IsWriterOf, plan_in, meaning_in};
ghost use Rattle.lane_asks.specs.Telling.{AllHaveTold, IsTold, versions};
ghost use Rattle.beside.specs.Beside.{MayRecheck, HasRechecked, MayHaveRechecked, state_of, AnswersFrom, WorksAs};
ghost use Rattle.beside.specs.Uses.{MayAnswer, NoneFalls, lanes_after, use_after};
ghost use Rattle.beside.specs.Server.{IsRunning, IsToldOf, IsToldOfEither, IsSameWriter, moment_in, use_of, uses_of};

use crate::asking::Told;
use crate::together::beside;
use asks::Ask;
use entity_heap::{Heap, Lane, Writer};
use flow_base::{Folder, Point, Turnstile};
use flow_values::{List, NoMemory};
use heap_core::HeapReader;
use pending_edits::Edits;
use recheck_run::Outcome;
use request_core::analyst::Analyst;
use request_core::payloads::Payload;
use request_core::place_analyst::PlaceAnalyst;
use std::alloc::Global;
use std::mem;
use std::sync::Wait;
use std::thread::Threads;
use stops::Stop;

/// The heap of modules as it runs: the heap, its writer, and all its lanes in their order, from one `open`.
#[derive(Drop)]
pub struct Server {
    /// What is committed.
    pub heap: Heap<Payload>,
    /// The one that commits.
    pub writer: Writer<Payload>,
    /// Those on which asks are answered, in the order of their numbers: 1 to 16 of them.
    pub lanes: List<Lane<Payload>>,
}

impl Server {
    /// The number of the committed state, from 0.
    pub fn version(&self) -> u32
        ensures { result ≡ (meaning_in self.now.writer).version }
    {
        self.writer.version()
    }

    /// Rechecks, and answers on the lanes what is asked meanwhile: ask i on the lane at place i mod the number of lanes, in order, each
    /// lane on a thread of its own, where one can be had, with an asker of its own. The recheck runs in this thread.
    ///
    /// It answers how the recheck ended, and for each ask, in order, what was answered and from which version: the one before the
    /// recheck, or the one behind it, and on one lane never an earlier one than before.
    ///
    /// # Errors
    ///
    /// `NoMemory` where memory is refused. Then nothing is committed, or what a recheck that is done commits.
    pub fn recheck_beside<
        R: Threads + Wait + Sync,
        F: Folder,
        S: Stop,
        T: Turnstile + Sync,
        A: Analyst + PlaceAnalyst + Send,
    >(
        &mut self,
        rt: &R,
        alloc: Global,
        edits: &mut Edits,
        folder: &mut F,
        stop: &mut S,
        turns: &T,
        analysts: &mut [A],
        askers: &mut [A],
        asks: &[Ask],
    ) -> Result<(Outcome, List<Told>), NoMemory>
        requires running { IsRunning self.old }
        requires may { MayRecheck self.old.writer edits.old }
        requires some { 0 < length analysts.old }
        requires askers { length askers.old ≡ length self.old.lanes }
        requires pins { MayAnswer (length asks.now) (uses_of self.old.lanes) }
        ensures running { IsRunning self.new }
        ensures many { (length self.new.lanes ≡ length self.old.lanes) × (length analysts.new ≡ length analysts.old) }
        ensures rechecked { IfOk result (λ done. HasRechecked self.new.heap self.old.writer self.new.writer (state_of (F.seen folder.old) edits.old self.old.writer (S.seen stop.old) (total (map A.work analysts.old))) (state_of (F.seen folder.new) edits.new self.new.writer (S.seen stop.new) (total (map A.work analysts.new))) done.0) }
        ensures told { IfOk result (λ done. AllZip (IsToldOfEither (moment_in self.old.writer) (moment_in self.new.writer)) asks.now done.1) }
        ensures falls { IfOk result (λ done. NoneFalls (uses_of self.old.lanes) (versions done.1)) }
        ensures lanes { IfOk result (λ done. uses_of self.new.lanes ≡ lanes_after (uses_of self.old.lanes) (versions done.1)) }
        ensures work { IfOk result (λ done. AllHaveTold (WorksAs A.work) (meaning_in self.new.writer).version self.old.lanes self.new.lanes askers.old askers.new asks.now done.1) }
        ensures err { OnErr result (MayHaveRechecked self.new.heap self.old.writer self.new.writer (state_of (F.seen folder.old) edits.old self.old.writer (S.seen stop.old) (total (map A.work analysts.old))) (state_of (F.seen folder.new) edits.new self.new.writer (S.seen stop.new) (total (map A.work analysts.new)))) }
    {
        let mut lanes = mem::replace(&mut self.lanes, List::new(alloc)).into_vec();
        let done = beside(
            rt,
            alloc,
            &self.heap,
            &mut self.writer,
            lanes.as_mut_slice(),
            edits,
            folder,
            stop,
            turns,
            analysts,
            askers,
            asks,
        );
        self.lanes = List::from_vec(lanes);
        done
    }

    /// Answers one ask on the first lane, from the current version, and passes the turnstile at ask 0. The writer meets the lane before
    /// and after.
    pub fn answer_first<T: Turnstile, A: Analyst + PlaceAnalyst>(
        &mut self,
        alloc: Global,
        turns: &T,
        asker: &mut A,
        ask: &Ask,
    ) -> Told
        requires running { IsRunning self.old }
        requires pins { MayAnswer 1 (uses_of self.old.lanes) }
        ensures running { IsRunning self.new }
        ensures many { length self.new.lanes ≡ length self.old.lanes }
        ensures writer { IsSameWriter self.old.writer self.new.writer }
        ensures told { IsToldOf (moment_in self.old.writer) ask.now result }
        ensures falls { NoneFalls (uses_of self.old.lanes) (result.version ∷ []) }
        ensures lanes { uses_of self.new.lanes ≡ lanes_after (uses_of self.old.lanes) (result.version ∷ []) }
        ensures work { WorksFor ask.now result.answer (A.work asker.old) (A.work asker.new) }
    {
        let mut lanes = mem::replace(&mut self.lanes, List::new(alloc)).into_vec();
        let told = answer_current(
            alloc,
            &self.heap,
            &mut self.writer,
            turns,
            &mut lanes[0],
            asker,
            ask,
        );
        self.lanes = List::from_vec(lanes);
        told
    }
}

// Answers one ask on a lane that the writer meets before and after.
fn answer_current<T: Turnstile, A: Analyst + PlaceAnalyst>(
    alloc: Global,
    heap: &Heap<Payload>,
    writer: &mut Writer<Payload>,
    turns: &T,
    lane: &mut Lane<Payload>,
    asker: &mut A,
    ask: &Ask,
) -> Told
    requires from { IsWriterOf heap.now writer.old × IsLaneOf heap.now lane.old }
    requires room { (visit_in lane.old).pins < 2 ^ 27 }
    ensures from { IsWriterOf heap.now writer.new × IsLaneOf heap.now lane.new }
    ensures writer { IsSameWriter writer.old writer.new }
    ensures told { IsToldOf (moment_in writer.old) ask.now result }
    ensures later { (visit_in lane.old).seen ≤ result.version }
    ensures number { (visit_in lane.new).number ≡ (visit_in lane.old).number }
    ensures lane { use_of lane.new ≡ use_after (use_of lane.old) (result.version ∷ []) }
    ensures work { WorksFor ask.now result.answer (A.work asker.old) (A.work asker.new) }
{
    writer.meet(lane, heap);
    let told = answer_pinned(alloc, heap, turns, lane, asker, ask);
    writer.meet(lane, heap);
    told
}

// Answers one ask on a lane: it pins, passes the turnstile, answers, and is done.
fn answer_pinned<T: Turnstile, A: Analyst + PlaceAnalyst>(
    alloc: Global,
    heap: &Heap<Payload>,
    turns: &T,
    lane: &mut Lane<Payload>,
    asker: &mut A,
    ask: &Ask,
) -> Told
    requires from { IsLaneOf heap.now lane.old }
    requires room { (visit_in lane.old).pins < 2 ^ 27 }
    ensures from { IsLaneOf heap.now lane.new }
    ensures told { IsTold AnswersFrom (WorksAs A.work) (visit_in lane.old) (visit_in lane.new) asker.old asker.new ask.now result }
{
    let mut snapshot = lane.pin(heap);
    let version = snapshot.version();
    turns.at(Point::Ask(0));
    let answer = request_core::answer(alloc, &mut snapshot, asker, ask);
    snapshot.done();
    lane_asks::Told { version, answer }
}
