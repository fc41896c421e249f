ghost use Rattle.std.specs.Prelude.{◌^◌, ◌<◌, OnOk, length};
ghost use Rattle.entity_heap.specs.Lanes.{visit_in, IsLaneOf};
ghost use Rattle.lane_asks.specs.Dealing.{dealt, IsOpen};
ghost use Rattle.lane_asks.specs.Telling.{IsTold, AreTold, MayPin, IsSameLane};

use crate::dealing::Row;
use crate::each::Stint;
use crate::told::{Asked, Told};
use entity_heap::{Heap, Lane};
use flow_base::{Point, Turnstile};
use flow_values::NoMemory;
use heap_core::{HeapReader, Program};
use std::alloc::Global;

// Answers one ask on a lane: it pins, passes the turnstile, answers, and is done.
fn answer_one<P: Program, T: Turnstile, A, Q, X, K: Asked<P, A, Q, X>>(
    alloc: Global,
    heap: &Heap<P>,
    turns: &T,
    lane: &mut Lane<P>,
    asker: &mut A,
    ask: &Q,
    number: u32,
) -> Told<X>
    requires from { IsLaneOf heap.now lane.old }
    requires room { (visit_in lane.old).pins < 2 ^ 27 }
    ensures from { IsLaneOf heap.now lane.new }
    ensures told { IsTold K.answers K.works (visit_in lane.old) (visit_in lane.new) asker.old asker.new ask.now result }
{
    let mut snapshot = lane.pin(heap);
    let version = snapshot.version();
    turns.at(Point::Ask(number));
    let answer = K::answer(alloc, &mut snapshot, asker, ask);
    snapshot.done();
    Told { version, answer }
}

/// Answers on a lane what is dealt to its row, and puts the answers there.
///
/// # Errors
///
/// `NoMemory` where memory is refused.
pub(crate) fn answer_row<P: Program, T: Turnstile, A, Q, X: Drop, K: Asked<P, A, Q, X>>(
    heap: &Heap<P>,
    turns: &T,
    lane: &mut Lane<P>,
    asker: &mut A,
    row: &mut Row<Told<X>>,
    asks: &[Q],
) -> Result<(), NoMemory>
    requires lane { MayPin heap.now (length asks.now) lane.old }
    requires open { IsOpen row.old }
    ensures lane { IsSameLane heap.now lane.old lane.new }
    ensures told { OnOk result (AreTold K.answers K.works (visit_in lane.old) (visit_in lane.new) asker.old asker.new (dealt row.old.many row.old.place asks.now) row.new.told.items) }
{
    for at in 0..asks.len() {
        if at % row.many != row.place {
            continue;
        }
        let told = answer_one::<P, T, A, Q, X, K>(
            row.alloc, heap, turns, lane, asker, &asks[at], at as u32,
        );
        row.told.push_back(told)?;
    }
    Ok(())
}

impl<P: Program, T: Turnstile, A, Q, X: Drop, K: Asked<P, A, Q, X>> Stint<
    Heap<P>,
    T,
    Q,
    Lane<P>,
    A,
    Row<Told<X>>,
> for K {
    ghost use Rattle.lane_asks.specs.Telling.{RowTold, IsSameLane, IsReady};

    ghost ready = { λ heap asks lane row. IsReady heap asks lane row };

    ghost kept = { λ heap old new. IsSameLane heap old new };

    ghost told = { λ asks old new before now row after. RowTold K.answers K.works asks old new before now row after };

    fn answer(
        heap: &Heap<P>,
        turns: &T,
        lane: &mut Lane<P>,
        asker: &mut A,
        row: &mut Row<Told<X>>,
        asks: &[Q],
    ) -> Result<(), NoMemory> {
        answer_row::<P, T, A, Q, X, K>(heap, turns, lane, asker, row, asks)
    }
}
