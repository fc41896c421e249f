//! What the writer does to a world.
ghost use Rattle.std.specs.Prelude.{◌≡◌, ◌≤◌, ◌^◌, ◌<◌, ℕ, true, length, map, slice_get, Some, IfOk, OnErr};
ghost use Rattle.std.specs.Arc.{arc_value};
ghost use Rattle.heap_world.specs.World.{Answers, HasLengths, Pends, IsFilled, replaced, last_state, begin, stage, fill, publish, commit, roll_back, end, drain};
ghost use Rattle.heap_world.specs.Seen.{world_of};

use super::World;
use super::lists::{
    all_false, emptied_rows, empty_rows, next_state, next_versions, none_pending, row_with,
};
use super::looks::{is_filled, none_before, none_pends, pends};
use flow_values::{List, NoMemory};
use std::alloc::Global;
use std::sync::Arc;

impl<P: Drop> World<P> {
    pub(super) fn begin(&mut self) -> bool
        ensures { Answers (world_of self.old) begin result (world_of self.new) }
    {
        if self.is_open || !self.drained {
            return false;
        }
        self.is_open = true;
        true
    }

    pub(super) fn stage(
        &mut self,
        alloc: Global,
        entity: u32,
        payload: &Arc<P>,
    ) -> Result<bool, NoMemory>
        requires { HasLengths (world_of self.old) }
        ensures answers { IfOk result (λ yes. Answers (world_of self.old) (stage entity (arc_value payload.now)) yes (world_of self.new)) }
        ensures err { OnErr result (world_of self.new ≡ world_of self.old) }
    {
        if entity >= self.entities || !self.is_open {
            return Ok(false);
        }
        let shared = Arc::try_clone(payload)?;
        let rows = emptied_rows(alloc, self.filled.as_slice(), entity)?;
        self.filled = rows;
        self.pending.set(entity as usize, Some(shared));
        Ok(true)
    }

    pub(super) fn fill(&mut self, alloc: Global, lane: u32, entity: u32) -> Result<bool, NoMemory>
        requires { HasLengths (world_of self.old) }
        ensures answers { IfOk result (λ yes. Answers (world_of self.old) (fill lane entity) yes (world_of self.new)) }
        ensures err { OnErr result (world_of self.new ≡ world_of self.old) }
    {
        let at = lane as usize;
        if at >= self.filled.len() || !pends(self.pending.as_slice(), entity) {
            return Ok(false);
        }
        let row = row_with(alloc, self.filled.as_slice()[at].as_slice(), entity, true)?;
        self.filled.set(at, row);
        Ok(true)
    }

    pub(super) fn publish(&mut self, entity: u32) -> bool
        requires { HasLengths (world_of self.old) }
        ensures { Answers (world_of self.old) (publish entity) result (world_of self.new) }
    {
        if !pends(self.pending.as_slice(), entity) || !is_filled(self.filled.as_slice(), entity) {
            return false;
        }
        self.published.set(entity as usize, true);
        true
    }

    pub(super) fn commit(&mut self, alloc: Global) -> Result<bool, NoMemory>
        requires lengths { HasLengths (world_of self.old) }
        requires few { length self.old.history ≤ 2 ^ 31 }
        ensures answers { IfOk result (λ yes. Answers (world_of self.old) commit yes (world_of self.new)) }
        ensures err { OnErr result (world_of self.new ≡ world_of self.old) }
    {
        if !self.is_open {
            return Ok(false);
        }
        if !self.is_ready() {
            return Ok(false);
        }
        let state = self.next_state(alloc)?;
        let version = self.history.len() as u32;
        let versions = next_versions(
            alloc,
            version,
            self.versions.as_slice(),
            self.pending.as_slice(),
        )?;
        let pending = none_pending(alloc, self.entities)?;
        let filled = empty_rows(alloc, self.lanes, self.entities)?;
        let published = all_false(alloc, self.entities)?;
        self.history.push(state)?;
        self.versions = versions;
        self.pending = pending;
        self.filled = filled;
        self.published = published;
        self.is_open = false;
        self.drained = false;
        Ok(true)
    }

    /// The last state, with the pending payloads in place.
    fn next_state(&self, alloc: Global) -> Result<List<Arc<P>>, NoMemory>
        requires { HasLengths (world_of self.now) }
        ensures { IfOk result (λ state. map arc_value state ≡ replaced (last_state (world_of self.now).history) (world_of self.now).pending) }
    {
        let last = &self.history.as_slice()[self.history.len() - 1];
        next_state(alloc, last.as_slice(), self.pending.as_slice())
    }

    /// Whether each entity that pends is filled in every lane and published.
    fn is_ready(&self) -> bool
        requires { HasLengths (world_of self.now) }
        ensures yes { result ≡ true → (e : ℕ) → Pends (world_of self.now) e → IsFilled (world_of self.now) e × (slice_get self.now.published e ≡ Some true) }
        ensures no { ((e : ℕ) → Pends (world_of self.now) e → IsFilled (world_of self.now) e × (slice_get self.now.published e ≡ Some true)) → result ≡ true }
    {
        for e in 0..self.entities {
            if !self.is_ready_at(e) {
                return false;
            }
        }
        true
    }

    /// Whether the entity, if it pends, is filled in every lane and published.
    fn is_ready_at(&self, e: u32) -> bool
        requires { HasLengths (world_of self.now) × (e < self.now.entities) }
        ensures yes { result ≡ true → Pends (world_of self.now) e → IsFilled (world_of self.now) e × (slice_get self.now.published e ≡ Some true) }
        ensures no { (Pends (world_of self.now) e → IsFilled (world_of self.now) e × (slice_get self.now.published e ≡ Some true)) → result ≡ true }
    {
        if !pends(self.pending.as_slice(), e) {
            return true;
        }
        is_filled(self.filled.as_slice(), e) && self.published.as_slice()[e as usize]
    }

    pub(super) fn roll_back(&mut self, alloc: Global, entity: u32) -> Result<bool, NoMemory>
        requires { HasLengths (world_of self.old) }
        ensures answers { IfOk result (λ yes. Answers (world_of self.old) (roll_back entity) yes (world_of self.new)) }
        ensures err { OnErr result (world_of self.new ≡ world_of self.old) }
    {
        if !pends(self.pending.as_slice(), entity) {
            return Ok(false);
        }
        let rows = emptied_rows(alloc, self.filled.as_slice(), entity)?;
        self.filled = rows;
        self.pending.set(entity as usize, None);
        self.published.set(entity as usize, false);
        Ok(true)
    }

    pub(super) fn end(&mut self) -> bool
        ensures { Answers (world_of self.old) end result (world_of self.new) }
    {
        if !self.is_open {
            return false;
        }
        if !none_pends(self.pending.as_slice()) {
            return false;
        }
        self.is_open = false;
        true
    }

    pub(super) fn drain(&mut self) -> bool
        requires { HasLengths (world_of self.old) }
        ensures { Answers (world_of self.old) drain result (world_of self.new) }
    {
        if self.drained || !none_before(self.pins.as_slice(), self.history.len() - 1) {
            return false;
        }
        self.drained = true;
        true
    }
}
