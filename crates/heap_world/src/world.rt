//! The pure heap: a list of whole states, and the events that lead from one to the next.
ghost use Rattle.std.specs.Prelude.{◌≡◌, ◌+◌, ◌≤◌, ◌^◌, length, IfOk, OnErr};
ghost use Rattle.heap_world.specs.World.{Answers, HasLengths};
ghost use Rattle.heap_world.specs.Seen.{world_of, event_of};

mod lanes;
mod lists;
mod looks;
mod writes;

use flow_values::{List, NoMemory};
use std::alloc::Global;
use std::sync::Arc;

/// A pure heap of so many entities, with so many lanes in which readers read.
#[derive(Drop)]
pub struct World<P> {
    pub entities: u32,
    pub lanes: u32,
    /// The states, each with a payload for each entity. The last place is the current version.
    pub history: List<List<Arc<P>>>,
    /// For each entity, the version at which it was last committed.
    pub versions: List<u32>,
    pub is_open: bool,
    /// No lane reads the version before the current one any more.
    pub drained: bool,
    /// For each entity, the payload that is staged.
    pub pending: List<Option<Arc<P>>>,
    /// For each lane, which entities' pending payloads it holds.
    pub filled: List<List<bool>>,
    /// Which entities' pending payloads are ready to be committed.
    pub published: List<bool>,
    /// For each lane, the version that it reads.
    pub pins: List<Option<u32>>,
}

/// What can happen to a world.
#[derive(Drop)]
pub enum Event<P> {
    Begin,
    Stage { entity: u32, payload: Arc<P> },
    Fill { lane: u32, entity: u32 },
    Publish { entity: u32 },
    Commit,
    RollBack { entity: u32 },
    End,
    Pin { lane: u32 },
    Read { lane: u32, entity: u32 },
    Unpin { lane: u32 },
    Drained,
}

impl<P: Drop> World<P> {
    /// Lets an event happen where it is allowed, and answers whether it was. Where it was not, nothing has changed.
    ///
    /// # Errors
    ///
    /// `NoMemory` where memory is refused. Nothing has changed then.
    pub fn apply(&mut self, alloc: Global, event: &Event<P>) -> Result<bool, NoMemory>
        requires lengths { HasLengths (world_of self.old) }
        requires few { length self.old.history ≤ 2 ^ 31 }
        ensures answers { IfOk result (λ yes. Answers (world_of self.old) (event_of event.now) yes (world_of self.new)) }
        ensures err { OnErr result (world_of self.new ≡ world_of self.old) }
        ensures lengths { HasLengths (world_of self.new) }
        ensures few { length self.new.history ≤ length self.old.history + 1 }
    {
        self.happen(alloc, event)
    }

    fn happen(&mut self, alloc: Global, event: &Event<P>) -> Result<bool, NoMemory>
        requires lengths { HasLengths (world_of self.old) }
        requires few { length self.old.history ≤ 2 ^ 31 }
        ensures answers { IfOk result (λ yes. Answers (world_of self.old) (event_of event.now) yes (world_of self.new)) }
        ensures err { OnErr result (world_of self.new ≡ world_of self.old) }
    {
        match event {
            Event::Begin => Ok(self.begin()),
            Event::Stage { entity, payload } => self.stage(alloc, *entity, payload),
            Event::Fill { lane, entity } => self.fill(alloc, *lane, *entity),
            Event::Publish { entity } => Ok(self.publish(*entity)),
            Event::Commit => self.commit(alloc),
            Event::RollBack { entity } => self.roll_back(alloc, *entity),
            Event::End => Ok(self.end()),
            Event::Pin { lane } => Ok(self.pin(*lane)),
            Event::Read { lane, entity } => Ok(self.may_read(*lane, *entity)),
            Event::Unpin { lane } => Ok(self.unpin(*lane)),
            Event::Drained => Ok(self.drain()),
        }
    }
}
