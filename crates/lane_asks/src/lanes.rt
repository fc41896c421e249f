ghost use Rattle.std.specs.Prelude.{◌≡◌, ◌<◌, OnOk, length};
ghost use Rattle.std.specs.List.{AllZip};
ghost use Rattle.lane_asks.specs.Telling.{AllTold, IsReady, IsSameLane};

use crate::dealing::Row;
use crate::each::do_beside;
use crate::told::{Asked, Told};
use entity_heap::{Heap, Lane};
use flow_base::Turnstile;
use flow_values::NoMemory;
use heap_core::Program;
use std::sync::Wait;
use std::thread::Threads;

/// Answers on each lane of a heap what is dealt to its row, each on a thread of its own, where one can be had, with a large stack, and
/// calls `other` beside them in this thread. Where nothing is asked no thread is started.
///
/// # Errors
///
/// `NoMemory` where memory is refused to a lane. `other` was called all the same.
pub fn answer_beside<
    R: Threads + Wait + Sync,
    P: Program + Send + Sync,
    T: Turnstile + Sync,
    A: Send,
    Q: Sync,
    X: Send + Drop,
    K: Asked<P, A, Q, X> + Send,
    G: FnMut() -> B,
    B,
>(
    rt: &R,
    heap: &Heap<P>,
    turns: &T,
    lanes: &mut [Lane<P>],
    askers: &mut [A],
    rows: &mut [Row<Told<X>>],
    asks: &[Q],
    other: &mut G,
) -> (Result<(), NoMemory>, B)
    requires some { 0 < length lanes.old }
    requires askers { length askers.old ≡ length lanes.old }
    requires rows { length rows.old ≡ length lanes.old }
    requires ready { AllZip (IsReady heap.now asks.now) lanes.old rows.old }
    requires other { G.pre other.old }
    ensures kept { AllZip (IsSameLane heap.now) lanes.old lanes.new }
    ensures told { OnOk result.0 (AllTold K.answers K.works asks.now lanes.old lanes.new askers.old askers.new rows.old rows.new) }
    ensures other { G.step other.old result.1 other.new }
{
    if asks.is_empty() {
        return (Ok(()), other());
    }
    do_beside::<R, Heap<P>, T, Q, Lane<P>, A, Row<Told<X>>, K, G, B>(
        rt, heap, turns, lanes, askers, rows, asks, other,
    )
}
