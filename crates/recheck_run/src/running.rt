//! All stages, poll by poll.
ghost use Rattle.std.specs.Prelude.{◌≡◌, ◌<◌, true, IfOk, IfErr, length, map};
ghost use Rattle.heap_core.specs.Meaning.{none_of};
ghost use Rattle.heap_core.specs.Transactions.{IsStaging};
ghost use Rattle.recheck_run.specs.Extent.{Extent};
ghost use Rattle.recheck_run.specs.Stages.{IsBaseIn};
ghost use Rattle.recheck_run.specs.Steps.{AffectsIn, IsReady};
ghost use Rattle.recheck_run.specs.Ends.{HasEnded, HasHalted};
ghost use Rattle.recheck_reach.specs.work_totals.specs.Totals.{total};

use crate::laws::{bounded, counted};
use crate::outcome::Halt;
use crate::stages::{Base, Next, Stage, Staged};
use crate::stepping::step;
use flow_base::{Point, Turnstile};
use heap_core::HeapWriter;
use recheck_checking::payloads::Payload;
use recheck_reach::analyst::Analyst;
use std::alloc::Global;
use std::sync::Wait;
use std::thread::Threads;
use stops::Stop;

/// Does all stages of work, and asks behind the reading and behind each of them whether it is to stop. When it ends, all is staged.
///
/// # Errors
///
/// `Stopped` where a poll says yes, with its number, and `NoMemory` where memory is refused. Some of it may be staged then.
pub(crate) fn run<
    R: Threads + Wait + Sync,
    W: HeapWriter<Payload>,
    S: Stop,
    T: Turnstile,
    A: Analyst + Send,
>(
    rt: &R,
    alloc: Global,
    writer: &mut W,
    stop: &mut S,
    turns: &T,
    analysts: &mut [A],
    base: &Base,
) -> Result<Staged, Halt>
    requires some { 0 < length analysts.old }
    requires is_open { (W.meaning writer.old).is_open ≡ true }
    requires bare { (W.meaning writer.old).staged ≡ none_of (W.meaning writer.old).staged }
    requires base { IsBaseIn (W.meaning writer.old).committed base.now }
    ensures ready { IfOk result (λ staged. IsReady base.now (W.meaning writer.old) (W.meaning writer.new) staged.errors) }
    ensures ended { (n : Extent) → AffectsIn base.now n → IfOk result (HasEnded n (record { stop = S.seen stop.old; work = total (map A.work analysts.old) }) (record { stop = S.seen stop.new; work = total (map A.work analysts.new) })) }
    ensures halted { (n : Extent) → AffectsIn base.now n → IfErr result (HasHalted n (record { stop = S.seen stop.old; work = total (map A.work analysts.old) }) (record { stop = S.seen stop.new; work = total (map A.work analysts.new) })) }
    ensures told_stop { (S.seen stop.new).told ≡ (S.seen stop.old).told }
    ensures staging { IsStaging (W.meaning writer.old) (W.meaning writer.new) }
    ensures is_open { (W.meaning writer.new).is_open ≡ true }
    ensures told { W.told writer.new ≡ W.told writer.old }
    ensures part { W.part writer.new ≡ W.part writer.old }
    ensures many { length analysts.new ≡ length analysts.old }
{
    counted(&*analysts);
    bounded(&*stop);
    committed_results::full_law::each_full();
    recheck_reach::recheck_merging::members_add_up();
    let mut next = Next::GoesTo(Stage::Fronts);
    let mut poll = 1u32;
    'polls: loop {
        turns.at(Point::Poll(poll));
        if stop.stop() {
            return Err(Halt::Stopped(poll));
        }
        match next {
            Next::GoesTo(stage) => next = step(rt, alloc, writer, analysts, base, stage)?,
            Next::Ready(staged) => return Ok(staged),
        }
        poll += 1;
    }
}
