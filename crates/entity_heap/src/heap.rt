//! The heap, its writer and its lanes, all from one `open`.
ghost use Rattle.std.specs.Prelude.{◌≡◌, ℕ, length, ◌+◌, ◌*◌, ◌^◌, ◌<◌, ◌≤◌, Bool, true, false, [], Option, Some, None, slice_get, map, ◌/◌};
ghost use Rattle.std.specs.Option.{option_and_then};
ghost use Rattle.heap_core.specs.Meaning.{AllFit};
ghost use Rattle.heap_core.specs.PlainLaws.{AllFit-prop};
ghost use Rattle.heap_core.specs.PlainHeaps.{meaning_of};
ghost use Rattle.entity_heap.specs.declared.board.Role.TheVariants.{Reads, Writes};
ghost use Rattle.entity_heap.specs.Plans.{visit_of, plan_of};
ghost use Rattle.entity_heap.specs.Starts.{AreListed};

use crate::board::{Board, Place};
use heap_core::{PlainHeap, Program};
use std::sync::Arc;

mod as_reader;
mod as_writer;
mod cores;
mod lanes;
mod opens;
mod parts;
mod writers;

pub use opens::open;

/// A heap that one writer commits to and lanes read, beside one another.
#[derive(Drop)]
pub struct Heap<P: Program> {
    pub(crate) board: Board<P>,
    pub(crate) entities: u32,
    ghost wide: { board.shared.table_id.words ≡ 3 + entities },
    ghost small: { (0 < entities) × (entities < 2 ^ 16) },
}

/// What reads one version at a time. While a snapshot lives, the lane's core is with the snapshot.
#[derive(Drop)]
pub struct Lane<P: Program> {
    pub(crate) core: Option<Core<P>>,
    ghost free: { option_and_then (λ c. c.pinned) core ≡ None },
}

/// What a lane is: its seat at the table, and what it has seen there.
#[derive(Drop)]
pub struct Core<P: Program> {
    pub(crate) place: Place<P>,
    pub(crate) number: u32,
    pub(crate) pins: u32,
    pub(crate) seen: u32,
    pub(crate) floor: u32,
    pub(crate) pinned: Option<u32>,
    ghost seated: { place.me ≡ (Reads (visit_of place.me.0), []) },
    ghost counted: { ((visit_of place.me.0).pins ≡ pins) × ((visit_of place.me.0).seen ≡ seen) × (pins ≤ 134217728) },
    ghost learnt: { ((visit_of place.me.0).floor ≡ floor) × ((visit_of place.me.0).number ≡ number) × (number < 16) },
    ghost pin: { (visit_of place.me.0).pin ≡ pinned },
    ghost hold: { (visit_of place.me.0).hold ≡ None },
    ghost wide: { place.table_id.words ≡ 3 + (visit_of place.me.0).entities },
}

/// The one that commits, with the payloads that it committed last and those that it has staged.
#[derive(Drop)]
pub struct Writer<P: Program> {
    pub(crate) place: Place<P>,
    pub(crate) plain: PlainHeap<P>,
    // the word of each entity at the last commit
    pub(crate) words: Vec<u64>,
    // which entities were staged since then
    pub(crate) staged: Vec<bool>,
    // the numbers of those that are staged: a commit looks at no others
    pub(crate) numbers: Vec<u32>,
    // room for a share for each lane
    pub(crate) shares: Vec<Arc<P>>,
    pub(crate) lanes: u32,
    pub(crate) drained: bool,
    pub(crate) reset: bool,
    pub(crate) owed: u32,
    ghost seated: { place.me ≡ (Writes (plan_of place.me.0), []) },
    ghost shape: { let q = plan_of place.me.0 in (place.table_id.words ≡ 3 + q.entities) × (q.lanes ≡ lanes) × (0 < lanes) × (lanes ≤ 16) × (length q.met ≡ 16) },
    ghost gate: { let q = plan_of place.me.0 in (q.version ≡ (meaning_of plain).version) × (q.drained ≡ drained) × (q.reset ≡ reset) × (q.owed ≡ owed) × (q.version < 2 ^ 31) },
    ghost states: { let q = plan_of place.me.0 in let m = meaning_of plain in (q.committed ≡ m.committed) × (q.next ≡ m.latest) × (q.staged ≡ m.staged) },
    ghost words_known: { (plan_of place.me.0).words ≡ words.items },
    ghost versions_known: { (meaning_of plain).versions ≡ map (λ k. k / 2) words.items },
    ghost staged_known: { (plan_of place.me.0).staged ≡ staged.items },
    ghost sizes: { let q = plan_of place.me.0 in (length words.items ≡ q.entities) × (length staged.items ≡ q.entities) × (length q.committed ≡ q.entities) },
    ghost listed: { AreListed numbers.items staged.items },
    ghost within: { (i e : ℕ) → slice_get numbers.items i ≡ Some e → e < length staged.items },
    ghost idle: { let q = plan_of place.me.0 in (q.hand ≡ None) × (q.fill ≡ None) },
    ghost told: { let q = plan_of place.me.0 in (length q.history ≡ q.version + 1) × (slice_get q.history q.version ≡ Some q.committed) },
    ghost ready: { (meaning_of plain).is_open ≡ true → reset ≡ true },
    ghost order: { (reset ≡ true → drained ≡ true) × (drained ≡ false → 0 < (meaning_of plain).version) },
}

/// Lanes are still pinned at the version before the current one: `arrived` were, and fewer have left.
#[derive(Debug, Clone, Copy, PartialEq, Eq)]
pub struct Pinned {
    /// The version before the current one.
    pub version: u32,
    /// How many pins there were at it.
    pub arrived: u32,
    /// How many of these have ended.
    pub left: u32,
}

/// One version, pinned, with the core of the lane that it goes back to.
pub struct Snapshot<'a, P: Program> {
    pub(crate) home: &'a mut Lane<P>,
    pub(crate) heap: &'a Heap<P>,
    pub(crate) core: Core<P>,
    pub(crate) version: u32,
    ghost of: { core.place.table_id ≡ heap.now.board.shared.table_id },
    ghost pinned: { core.pinned ≡ Some version },
    ghost sized: { let l = visit_of core.place.me.0 in (length l.state ≡ l.entities) × (0 < l.entities) },
    ghost fits: { AllFit P.fits (visit_of core.place.me.0).state } by { AllFit-prop P.fits P.fits_once (visit_of core.place.me.0).state },
}

/// The writer with its heap, as a `HeapWriter`.
#[derive(Drop)]
pub struct Writing<'a, P: Program, R> {
    pub(crate) rt: &'a R,
    pub(crate) heap: &'a Heap<P>,
    pub(crate) writer: &'a mut Writer<P>,
    ghost of: { writer.now.place.table_id ≡ heap.now.board.shared.table_id },
}
