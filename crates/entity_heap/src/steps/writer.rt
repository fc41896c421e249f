//! The writer's steps on the gate.
ghost use Rattle.std.specs.Prelude.{◌≡◌, ◌≢◌, ◌+◌, ◌*◌, ◌^◌, ◌<◌, ◌≤◌, true, false, None};
ghost use Rattle.heap_core.specs.Meaning.{AllFit};
ghost use Rattle.entity_heap.specs.declared.board.Role.TheVariants.{Writes};
ghost use Rattle.entity_heap.specs.declared.board.Plan.{Plan};
ghost use Rattle.entity_heap.specs.Plans.{plan_of, after_commit, after_load, after_drain};
ghost use Rattle.entity_heap.specs.Tells.{IsMet};

use crate::board::{Place, Top};
use crate::plays::{Commit, Drain, Reset};
use heap_core::Program;

/// Commits the next state, and answers the arrivals at the version before.
pub(crate) fn commit<P: Program>(top: &Top<P>, place: &mut Place<P>, version: u64) -> u64
    requires table { (place.old.table_id ≡ top.now.table_id) × (3 ≤ top.now.table_id.words) }
    requires writer { let q : Plan P = plan_of place.old.me.0 in (place.old.me.0 ≡ Writes q) × (q.version ≡ version) × (q.reset ≡ true) × (q.hand ≡ None) × (q.fill ≡ None) × (version + 1 < 2 ^ 31) }
    requires fit { AllFit P.fits (plan_of place.old.me.0).next }
    ensures same { (place.new.table_id ≡ place.old.table_id) × (place.new.id ≡ place.old.id) }
    ensures committed { place.new.me ≡ (Writes (after_commit result (plan_of place.old.me.0)), place.old.me.1) }
    ensures small { result < 4294967296 }
{
    top.swap::<Commit>(place, 0, (version + 1) * 4294967296) % 4294967296
}

/// Loads the departures from the version before. It is drained where they are as many as are owed.
pub(crate) fn drain<P: Program>(top: &Top<P>, place: &mut Place<P>, version: u64) -> u64
    requires table { (place.old.table_id ≡ top.now.table_id) × (3 ≤ top.now.table_id.words) }
    requires writer { let q : Plan P = plan_of place.old.me.0 in (place.old.me.0 ≡ Writes q) × (q.version ≡ version) × (q.drained ≡ false) × (version < 2 ^ 31) }
    ensures same { (place.new.table_id ≡ place.old.table_id) × (place.new.id ≡ place.old.id) }
    ensures drained { result ≡ (plan_of place.old.me.0).owed → place.new.me ≡ (Writes (after_drain result (plan_of place.old.me.0)), place.old.me.1) }
    ensures not_yet { result ≢ (plan_of place.old.me.0).owed → place.new.me ≡ (Writes (after_load result (plan_of place.old.me.0)), place.old.me.1) }
    ensures below { result ≤ (plan_of place.old.me.0).owed }
    ensures met { IsMet (plan_of place.old.me.0) → result ≡ (plan_of place.old.me.0).owed }
{
    top.load::<Drain>(place, 1 + ((version + 1) % 2) as usize)
}

/// Resets the word of the version before.
pub(crate) fn reset<P: Program>(top: &Top<P>, place: &mut Place<P>, version: u64)
    requires table { (place.old.table_id ≡ top.now.table_id) × (3 ≤ top.now.table_id.words) }
    requires writer { let q : Plan P = plan_of place.old.me.0 in (place.old.me.0 ≡ Writes q) × (q.version ≡ version) × (q.drained ≡ true) × (version < 2 ^ 31) }
    ensures same { (place.new.table_id ≡ place.old.table_id) × (place.new.id ≡ place.old.id) }
    ensures reset { place.new.me ≡ (Writes (record (plan_of place.old.me.0) { reset = true }), place.old.me.1) }
{
    top.store::<Reset>(place, 1 + ((version + 1) % 2) as usize, 0);
}
