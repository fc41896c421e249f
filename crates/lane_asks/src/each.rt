ghost use Rattle.std.specs.Prelude.{◌≡◌, ◌<◌, List, OnOk, length};
ghost use Rattle.std.specs.List.{AllZip};
ghost use Rattle.std.specs.Thread.{IsSync, IsSend};
ghost use Rattle.lane_asks.specs.Each.{AllDone, Both};

use flow_values::NoMemory;
use large_join::join_large;
use std::sync::Wait;
use std::thread::{Threads, yield_now};

/// What is done on a lane, by an asker, into a row. It is said of any types, and so the threads know nothing of heaps.
pub(crate) trait Stint<H, T, Q, L, A, X> {
    /// What a lane and its row have to meet.
    ghost ready: { H → List Q → L → X → Type 0 };

    /// What stays of a lane.
    ghost kept: { H → L → L → Type 0 };

    /// What was done.
    ghost told: { List Q → L → L → A → A → X → X → Type 0 };

    /// Does it.
    ///
    /// # Errors
    ///
    /// `NoMemory` where memory is refused.
    fn answer(
        heap: &H,
        turns: &T,
        lane: &mut L,
        asker: &mut A,
        row: &mut X,
        asks: &[Q],
    ) -> Result<(), NoMemory>
        requires { ready heap.now asks.now lane.old row.old }
        ensures kept { kept heap.now lane.old lane.new }
        ensures told { OnOk result (told asks.now lane.old lane.new asker.old asker.new row.old row.new) };
}

// Whether both have come to their end.
fn joined(front: Result<(), NoMemory>, back: Result<(), NoMemory>) -> Result<(), NoMemory>
    ensures { Both front back result }
{
    front?;
    back
}

// Does it on some lanes in a new thread, and on others in this one. A thread that was just started may stand behind this one on the same
// processor, so this one lets it have its turn first.
#[cycle(each)]
fn do_both<
    R: Threads + Wait + Sync,
    H: Sync,
    T: Sync,
    Q: Sync,
    L: Send,
    A: Send,
    X: Send,
    K: Stint<H, T, Q, L, A, X> + Send,
>(
    rt: &R,
    heap: &H,
    turns: &T,
    first: &mut [L],
    second: &mut [L],
    left: &mut [A],
    right: &mut [A],
    upper: &mut [X],
    lower: &mut [X],
    asks: &[Q],
) -> (Result<(), NoMemory>, Result<(), NoMemory>)
    requires some { (0 < length first.old) × (0 < length second.old) }
    requires askers { (length left.old ≡ length first.old) × (length right.old ≡ length second.old) }
    requires rows { (length upper.old ≡ length first.old) × (length lower.old ≡ length second.old) }
    requires ready { AllZip (K.ready heap.now asks.now) first.old upper.old × AllZip (K.ready heap.now asks.now) second.old lower.old }
    ensures front_kept { AllZip (K.kept heap.now) first.old first.new }
    ensures back_kept { AllZip (K.kept heap.now) second.old second.new }
    ensures front { OnOk result.0 (AllDone (K.told asks.now) first.old first.new left.old left.new upper.old upper.new) }
    ensures back { OnOk result.1 (AllDone (K.told asks.now) second.old second.new right.old right.new lower.old lower.new) }
{
    let (back, front) = join_large(
        rt,
        &mut || -> Result<(), NoMemory>
            requires { IsSync R.row × IsSync H.row × IsSync T.row × IsSync Q.row × IsSend L.row × IsSend A.row × IsSend X.row × IsSend K.row × (0 < length second.now) × (length right.now ≡ length second.now) × (length lower.now ≡ length second.now) × AllZip (K.ready heap.now asks.now) second.now lower.now }
            ensures kept { AllZip (K.kept heap.entry.now) second.entry.now second.exit.now }
            ensures told { OnOk result (AllDone (K.told asks.entry.now) second.entry.now second.exit.now right.entry.now right.exit.now lower.entry.now lower.exit.now) }
        { do_each::<R, H, T, Q, L, A, X, K>(rt, heap, turns, second, right, lower, asks) },
        &mut || -> Result<(), NoMemory>
            requires { IsSync R.row × IsSync H.row × IsSync T.row × IsSync Q.row × IsSend L.row × IsSend A.row × IsSend X.row × IsSend K.row × (0 < length first.now) × (length left.now ≡ length first.now) × (length upper.now ≡ length first.now) × AllZip (K.ready heap.now asks.now) first.now upper.now }
            ensures kept { AllZip (K.kept heap.entry.now) first.entry.now first.exit.now }
            ensures told { OnOk result (AllDone (K.told asks.entry.now) first.entry.now first.exit.now left.entry.now left.exit.now upper.entry.now upper.exit.now) }
        {
            yield_now();
            do_each::<R, H, T, Q, L, A, X, K>(rt, heap, turns, first, left, upper, asks)
        },
    );
    (front, back)
}

// Does it on each of some lanes, on a thread of its own but for the first one.
#[cycle(each)]
fn do_each<
    R: Threads + Wait + Sync,
    H: Sync,
    T: Sync,
    Q: Sync,
    L: Send,
    A: Send,
    X: Send,
    K: Stint<H, T, Q, L, A, X> + Send,
>(
    rt: &R,
    heap: &H,
    turns: &T,
    lanes: &mut [L],
    askers: &mut [A],
    rows: &mut [X],
    asks: &[Q],
) -> Result<(), NoMemory>
    requires some { 0 < length lanes.old }
    requires askers { length askers.old ≡ length lanes.old }
    requires rows { length rows.old ≡ length lanes.old }
    requires ready { AllZip (K.ready heap.now asks.now) lanes.old rows.old }
    ensures kept { AllZip (K.kept heap.now) lanes.old lanes.new }
    ensures told { OnOk result (AllDone (K.told asks.now) lanes.old lanes.new askers.old askers.new rows.old rows.new) }
{
    if lanes.len() == 1 {
        return K::answer(
            heap,
            turns,
            &mut lanes[0],
            &mut askers[0],
            &mut rows[0],
            asks,
        );
    }
    let (first, second) = lanes.split_at_mut(1);
    let (left, right) = askers.split_at_mut(1);
    let (upper, lower) = rows.split_at_mut(1);
    let (front, back) = do_both::<R, H, T, Q, L, A, X, K>(
        rt, heap, turns, first, second, left, right, upper, lower, asks,
    );
    joined(front, back)
}

/// Does it on each of some lanes, each on a thread of its own, where one can be had, with a large stack, and calls `other` beside them in
/// this thread. The lanes have their turn first.
///
/// # Errors
///
/// `NoMemory` where memory is refused to a lane. `other` was called all the same.
pub(crate) fn do_beside<
    R: Threads + Wait + Sync,
    H: Sync,
    T: Sync,
    Q: Sync,
    L: Send,
    A: Send,
    X: Send,
    K: Stint<H, T, Q, L, A, X> + Send,
    G: FnMut() -> B,
    B,
>(
    rt: &R,
    heap: &H,
    turns: &T,
    lanes: &mut [L],
    askers: &mut [A],
    rows: &mut [X],
    asks: &[Q],
    other: &mut G,
) -> (Result<(), NoMemory>, B)
    requires some { 0 < length lanes.old }
    requires askers { length askers.old ≡ length lanes.old }
    requires rows { length rows.old ≡ length lanes.old }
    requires ready { AllZip (K.ready heap.now asks.now) lanes.old rows.old }
    requires other { G.pre other.old }
    ensures kept { AllZip (K.kept heap.now) lanes.old lanes.new }
    ensures told { OnOk result.0 (AllDone (K.told asks.now) lanes.old lanes.new askers.old askers.new rows.old rows.new) }
    ensures other { G.step other.old result.1 other.new }
{
    join_large(
        rt,
        &mut || -> Result<(), NoMemory>
            requires { IsSync R.row × IsSync H.row × IsSync T.row × IsSync Q.row × IsSend L.row × IsSend A.row × IsSend X.row × IsSend K.row × (0 < length lanes.now) × (length askers.now ≡ length lanes.now) × (length rows.now ≡ length lanes.now) × AllZip (K.ready heap.now asks.now) lanes.now rows.now }
            ensures kept { AllZip (K.kept heap.entry.now) lanes.entry.now lanes.exit.now }
            ensures told { OnOk result (AllDone (K.told asks.entry.now) lanes.entry.now lanes.exit.now askers.entry.now askers.exit.now rows.entry.now rows.exit.now) }
        { do_each::<R, H, T, Q, L, A, X, K>(rt, heap, turns, lanes, askers, rows, asks) },
        &mut || -> B
            requires { G.pre other.now }
            ensures { G.step other.entry.now result other.exit.now }
        {
            yield_now();
            other()
        },
    )
}
