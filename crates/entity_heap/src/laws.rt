//! What holds of the table between any two steps.
ghost use Rattle.std.specs.Prelude.{Option};
ghost use Rattle.std.specs.declared.sync.Arc.{Arc};
ghost use Rattle.std.specs.Global.{Global};
ghost use Rattle.atomic_table.specs.Table.{State};
ghost use Rattle.heap_world.specs.World.{PureWorld, IsLawful};
ghost use Rattle.entity_heap.specs.declared.board.Role.{Role};
ghost use Rattle.entity_heap.specs.Rule.{Kept};
ghost use Rattle.entity_heap.specs.Worlds.{Own, IsWorldOf};
ghost use Rattle.entity_heap.specs.Events.{AreEvents};
ghost use Rattle.entity_heap.specs.Promises.{AreServed, HaveLeft, IsAwaited, AreNoted, IsApart};

use heap_core::Program;

/// The table stands for one lawful world: its states are the writer's, what pends there is what the slots are filled
/// with, and its pins are the lanes'.
pub fn stands_for_a_world<P: Program>(_: &P)
    ensures { (s : State (Option (Arc P Global)) (Role P)) (r : Kept P.fits s) → (own : Own P) × (w : PureWorld P) × IsLawful P.fits w × IsWorldOf own r.plan s.views w }
{}

/// Each step is its event: where the table stands for a world, the event may come there, and after the step the table
/// stands for the world after it. A step without an event leaves the world as it is.
pub fn steps_are_events<P: Program>(_: &P)
    ensures { (s : State (Option (Arc P Global)) (Role P)) (r : Kept P.fits s) (own : Own P) (w : PureWorld P) → IsWorldOf own r.plan s.views w → AreEvents s own r.plan w }
{}

/// In every lane the committed payloads fit the committed root, and a reader of the current version is sent to them.
pub fn readers_are_served<P: Program>(_: &P)
    ensures { (s : State (Option (Arc P Global)) (Role P)) (r : Kept P.fits s) → AreServed P.fits s r.plan r.ties }
{}

/// Once the version before the current one is drained, no lane is pinned at it.
pub fn drained_is_left<P: Program>(_: &P)
    ensures { (s : State (Option (Arc P Global)) (Role P)) (r : Kept P.fits s) → HaveLeft s r.plan }
{}

/// Where a load finds fewer departures from the version before the current one than are owed, a lane is pinned at that
/// version: pins at the current version hold up nothing.
pub fn refused_is_pinned<P: Program>(_: &P)
    ensures { (s : State (Option (Arc P Global)) (Role P)) (r : Kept P.fits s) → IsAwaited s r.plan }
{}

/// What the lanes know is the writer's: the versions that they have pinned or learnt are at most its own, what they have
/// recorded are its states, and a lane that it met has no pin before the version of that meeting.
pub fn lanes_are_noted<P: Program>(_: &P)
    ensures { (s : State (Option (Arc P Global)) (Role P)) (r : Kept P.fits s) → AreNoted s r.plan }
{}

/// The writer fills no slot that a pinned lane may read.
pub fn filled_is_apart<P: Program>(_: &P)
    ensures { (s : State (Option (Arc P Global)) (Role P)) (r : Kept P.fits s) → IsApart s r.plan }
{}
