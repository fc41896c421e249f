//! What the lanes do to a world.
ghost use Rattle.std.specs.Prelude.{◌≡◌, ◌≤◌, ◌^◌, length};
ghost use Rattle.heap_world.specs.World.{Answers, HasLengths, pin, read, unpin};
ghost use Rattle.heap_world.specs.Seen.{world_of};

use super::World;
use super::looks::is_pinned;

impl<P: Drop> World<P> {
    pub(super) fn pin(&mut self, lane: u32) -> bool
        requires lengths { HasLengths (world_of self.old) }
        requires few { length self.old.history ≤ 2 ^ 31 }
        ensures { Answers (world_of self.old) (pin lane) result (world_of self.new) }
    {
        let at = lane as usize;
        if at < self.pins.len() && self.pins.as_slice()[at].is_none() {
            let current = self.history.len() - 1;
            self.pins.set(at, Some(current as u32));
            return true;
        }
        false
    }

    pub(super) fn may_read(&self, lane: u32, entity: u32) -> bool
        requires { HasLengths (world_of self.now) }
        ensures { Answers (world_of self.now) (read lane entity) result (world_of self.now) }
    {
        is_pinned(self.pins.as_slice(), lane) && entity < self.entities
    }

    pub(super) fn unpin(&mut self, lane: u32) -> bool
        requires { HasLengths (world_of self.old) }
        ensures { Answers (world_of self.old) (unpin lane) result (world_of self.new) }
    {
        if is_pinned(self.pins.as_slice(), lane) {
            self.pins.set(lane as usize, None);
            return true;
        }
        false
    }
}
