//! The law of the pure heap, and that a heap without history stands for it: each call of a writer takes each world that
//! the heap stands for by its events to one that it then stands for.
ghost use Rattle.std.specs.Prelude.{◌≡◌, ℕ, ◌+◌, ◌^◌, ◌<◌, true, false, List, length, slice_get, Option, Some, IfOk, OnErr};
ghost use Rattle.std.specs.Arc.{arc_value};
ghost use Rattle.heap_core.specs.Meaning.{Meaning, AllFit, IsSound, Appends, opening, opened, staging, after_commit, after_rollback};
ghost use Rattle.heap_world.specs.World.{PureWorld, PureEvent, IsLawful, AllAllowed, after, last_state, current};
ghost use Rattle.heap_world.specs.Stands.{Stands, Leads, of_begin, of_stage, of_commit, of_rollback, first_world};

use flow_values::NoMemory;
use heap_core::{HeapReader, HeapWriter, PlainHeap, PlainReader, Program};
use std::sync::Arc;

/// The law: from a lawful world, every list of allowed events whose commits fit leads to a lawful world.
pub fn stays_lawful<P: Program>(_: &P)
    ensures { (w : PureWorld P) (events : List (PureEvent P)) → IsLawful P.fits w → AllAllowed P.fits w events → IsLawful P.fits (after w events) }
{}

/// Each sound heap stands for some world, so the laws below say something of every heap.
pub fn sound_stands<P: Program>(_: &P)
    ensures { (m : Meaning P) → IsSound P.fits m → (w : PureWorld P) × Stands P.fits m w }
{}

/// A heap that has just been opened stands for a world.
pub fn opened_stands<P: Program>(_: &P)
    ensures { (state : List P) → 0 < length state → AllFit P.fits state → Stands P.fits (opening state) (first_world state) }
{}

/// `begin` drains where that is left to do, and begins.
pub fn begin_stands<P: Program, W: HeapWriter<P>>(writer: &mut W)
    requires { ((W.meaning writer.old).is_open ≡ false) × ((W.meaning writer.old).version + 1 < 2 ^ 31) }
    ensures leads { Leads P.fits (W.meaning writer.old) of_begin (W.meaning writer.new) }
    ensures meaning { W.meaning writer.new ≡ opened (W.meaning writer.old) }
    ensures told { W.told writer.new ≡ W.told writer.old }
    ensures part { W.part writer.new ≡ W.part writer.old }
{
    writer.begin();
}

/// `stage` stages and publishes. Where it has no memory the writer is as before.
///
/// # Errors
///
/// `NoMemory` where memory is refused.
pub fn stage_stands<P: Program, W: HeapWriter<P>>(
    writer: &mut W,
    e: u32,
    payload: Arc<P>,
) -> Result<(), NoMemory>
    requires { ((W.meaning writer.old).is_open ≡ true) × (e < length (W.meaning writer.old).committed) }
    ensures leads { IfOk result (λ _. Leads P.fits (W.meaning writer.old) (of_stage e (arc_value payload)) (W.meaning writer.new)) }
    ensures ok { IfOk result (λ _. W.meaning writer.new ≡ staging e (arc_value payload) (W.meaning writer.old)) }
    ensures err { OnErr result (W.meaning writer.new ≡ W.meaning writer.old) }
    ensures told { W.told writer.new ≡ W.told writer.old }
    ensures part { W.part writer.new ≡ W.part writer.old }
{
    writer.stage(e, payload)
}

/// `commit` publishes each staged entity, and commits.
pub fn commit_stands<P: Program, W: HeapWriter<P>>(writer: &mut W) -> u32
    requires { ((W.meaning writer.old).is_open ≡ true) × AllFit P.fits (W.meaning writer.old).latest }
    ensures leads { Leads P.fits (W.meaning writer.old) (of_commit (W.meaning writer.old)) (W.meaning writer.new) }
    ensures meaning { W.meaning writer.new ≡ after_commit (W.meaning writer.old) }
    ensures result { result ≡ (W.meaning writer.new).version }
    ensures told { Appends (W.told writer.old) (W.meaning writer.old).latest (W.told writer.new) }
    ensures part { W.part writer.new ≡ W.part writer.old }
{
    writer.commit()
}

/// `rollback` rolls back each staged entity, and ends.
pub fn rollback_stands<P: Program, W: HeapWriter<P>>(writer: &mut W)
    requires { (W.meaning writer.old).is_open ≡ true }
    ensures leads { Leads P.fits (W.meaning writer.old) (of_rollback (W.meaning writer.old)) (W.meaning writer.new) }
    ensures meaning { W.meaning writer.new ≡ after_rollback (W.meaning writer.old) }
    ensures told { W.told writer.new ≡ W.told writer.old }
    ensures part { W.part writer.new ≡ W.part writer.old }
{
    writer.rollback();
}

/// A reader reads the last state of each world that the heap stands for.
pub fn reader_stands<'a, P: Program>(heap: &'a PlainHeap<P>) -> PlainReader<'a, P>
    ensures stands { (w : PureWorld P) → Stands P.fits (⟦<PlainHeap<P> as HeapWriter<P>>⟧.meaning heap.now) w → (⟦<PlainReader<'a, P> as HeapReader<P>>⟧.state result ≡ last_state w.history) × (⟦<PlainReader<'a, P> as HeapReader<P>>⟧.at result ≡ current w) }
    ensures at { ⟦<PlainReader<'a, P> as HeapReader<P>>⟧.at result ≡ (⟦<PlainHeap<P> as HeapWriter<P>>⟧.meaning heap.now).version }
    ensures state { ⟦<PlainReader<'a, P> as HeapReader<P>>⟧.state result ≡ (⟦<PlainHeap<P> as HeapWriter<P>>⟧.meaning heap.now).committed }
{
    heap.reader()
}
