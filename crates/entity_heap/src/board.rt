//! The table that the lanes and the writer share.
//!
//! Word 0, the gate, is `version * 2^32 + arrivals`. Words 1 and 2 are the departures of even and of odd versions. Word
//! `3 + e` is `2 * version + bit` of entity e. Slot `2 * (n * entities + e) + b` is the slot b of entity e in lane n.
use atomic_table::{Seat, Shared, Table, TableRule};
use heap_core::Program;
use std::alloc::Global;
use std::collections::LinkedList;
use std::snapshot::Snapshot;
use std::sync::Arc;

/// A slot that a lane has taken. No value of it is made.
pub struct Hold {
    pub entity: u64,
    pub slot: u64,
    pub pin: u64,
}

/// A slot that the writer has taken. No value of it is made.
pub struct Reach {
    pub lane: u64,
    pub slot: u64,
}

/// What the slots of an entity were filled with so far, lane by lane. No value of it is made.
pub struct Fill<P> {
    pub entity: u64,
    pub payloads: LinkedList<P>,
}

/// A version that a lane has read, and its state. No value of it is made.
pub struct Entry<P> {
    pub version: u64,
    pub state: LinkedList<P>,
}

/// What the writer knows. No value of it is made.
pub struct Plan<P> {
    pub lanes: u64,
    pub entities: u64,
    pub version: u64,
    /// Place v holds the payloads of state v.
    pub history: LinkedList<LinkedList<P>>,
    /// The last state.
    pub committed: LinkedList<P>,
    /// The state that a commit would append.
    pub next: LinkedList<P>,
    /// The word of each entity at the last commit.
    pub words: LinkedList<u64>,
    /// Which entities were staged since then.
    pub staged: LinkedList<bool>,
    pub drained: bool,
    pub reset: bool,
    /// The arrivals that the last commit found, until they are drained.
    pub owed: u64,
    /// What the loads of the departures found, one after the other.
    pub found: LinkedList<u64>,
    /// How many lanes there are so far.
    pub made: u64,
    /// For each lane, a version before which it has no pin.
    pub met: LinkedList<u64>,
    /// What the lane that was met last has read.
    pub heard: LinkedList<Entry<P>>,
    pub hand: Option<Reach>,
    pub fill: Option<Fill<P>>,
}

/// What a lane knows. No value of it is made.
pub struct Visit<P> {
    pub number: u64,
    pub entities: u64,
    pub pins: u64,
    pub looks: u64,
    pub pin: Option<u64>,
    /// The state that is pinned.
    pub state: LinkedList<P>,
    /// The greatest version that was pinned.
    pub seen: u64,
    /// A version that the gate has reached.
    pub floor: u64,
    /// What was read, snapshot by snapshot.
    pub entries: LinkedList<Entry<P>>,
    pub hold: Option<Hold>,
}

/// What one party of a meeting tells the other: that the gate has reached `version`, that `lane` has no pin before `at`,
/// and what it has read. No value of it is made.
pub struct Note<P> {
    pub version: u64,
    pub lane: u64,
    pub at: u64,
    pub entries: LinkedList<Entry<P>>,
}

/// What a seat knows.
pub enum Role<P> {
    Spent,
    Told(Note<P>),
    Reads(Visit<P>),
    Writes(Plan<P>),
}

/// What a table is told when it is made.
#[derive(Drop)]
pub struct Terms<P> {
    pub root: Snapshot<P>,
    pub absent: Snapshot<P>,
    pub entities: u64,
    pub lanes: u64,
}

pub struct Gate;

impl<P: Program> TableRule<Option<Arc<P>>, Role<P>, Terms<P>> for Gate {
    ghost use Rattle.entity_heap.specs.Rule.{Kept};
    ghost use Rattle.entity_heap.specs.Plans.{starting};

    ghost holds = { λ _. Kept P.fits };

    ghost first = { λ key. starting key };
}

pub type Board<P> = Table<Option<Arc<P>>, Role<P>, Terms<P>, Gate, Global>;

pub type Top<P> = Shared<Option<Arc<P>>, Role<P>, Terms<P>, Gate>;

pub type Place<P> = Seat<Option<Arc<P>>, Role<P>>;
