//! `open` makes the lanes, and the writer and a lane meet.
ghost use Rattle.std.specs.Prelude.{◌≡◌, ℕ, ◌+◌, ◌<◌, ◌≤◌, max, [], None, length, slice_set, slice_index};
ghost use Rattle.entity_heap.specs.declared.board.Role.TheVariants.{Reads, Writes};
ghost use Rattle.entity_heap.specs.declared.board.Visit.{Visit};
ghost use Rattle.entity_heap.specs.declared.board.Plan.{Plan};
ghost use Rattle.entity_heap.specs.Rule.{AreStates};
ghost use Rattle.entity_heap.specs.Plans.{visit_of, plan_of, new_visit};

use crate::board::{Place, Top};
use crate::plays::{Check, Make, Report, Tell};
use heap_core::Program;

/// Makes one more lane.
pub(crate) fn make<P: Program>(top: &Top<P>, place: &mut Place<P>) -> Place<P>
    requires table { (place.old.table_id ≡ top.now.table_id) × (3 ≤ top.now.table_id.words) }
    requires writer { let q : Plan P = plan_of place.old.me.0 in (place.old.me.0 ≡ Writes q) × (q.made < q.lanes) }
    ensures same { (place.new.table_id ≡ place.old.table_id) × (place.new.id ≡ place.old.id) }
    ensures writer { let q : Plan P = plan_of place.old.me.0 in place.new.me ≡ (Writes (record q { made = q.made + 1 }), place.old.me.1) }
    ensures lane { (result.table_id ≡ place.old.table_id) × (result.me ≡ (Reads (new_visit (plan_of place.old.me.0)), [])) }
{
    top.split_seat::<Make>(place)
}

// The lane learns the writer's version.
fn tell<P: Program>(top: &Top<P>, writer: &mut Place<P>, lane: &mut Place<P>)
    requires table { (writer.old.table_id ≡ top.now.table_id) × (lane.old.table_id ≡ top.now.table_id) × (3 ≤ top.now.table_id.words) }
    requires seats { (writer.old.me.0 ≡ Writes (plan_of writer.old.me.0)) × (lane.old.me.0 ≡ Reads (visit_of lane.old.me.0)) }
    ensures same { (writer.new.table_id ≡ writer.old.table_id) × (lane.new.table_id ≡ lane.old.table_id) × (writer.new.me ≡ writer.old.me) }
    ensures lane { lane.new.me ≡ (Reads (record (visit_of lane.old.me.0) { floor = max (visit_of lane.old.me.0).floor (plan_of writer.old.me.0).version }), lane.old.me.1) }
{
    let note = top.split_seat::<Tell>(writer);
    top.join_seat::<Tell>(lane, note);
}

// The writer learns what the lane has recorded, and that it has no pin before its floor.
fn report<P: Program>(top: &Top<P>, writer: &mut Place<P>, lane: &mut Place<P>)
    requires table { (writer.old.table_id ≡ top.now.table_id) × (lane.old.table_id ≡ top.now.table_id) × (3 ≤ top.now.table_id.words) }
    requires seats { (writer.old.me.0 ≡ Writes (plan_of writer.old.me.0)) × (lane.old.me.0 ≡ Reads (visit_of lane.old.me.0)) × ((visit_of lane.old.me.0).pin ≡ None) }
    ensures same { (writer.new.table_id ≡ writer.old.table_id) × (lane.new.table_id ≡ lane.old.table_id) × (lane.new.me ≡ lane.old.me) }
    ensures writer { let q : Plan P = plan_of writer.old.me.0 in let l : Visit P = visit_of lane.old.me.0 in writer.new.me ≡ (Writes (record q { met = slice_set q.met l.number l.floor; heard = l.entries }), writer.old.me.1) }
{
    let note = top.split_seat::<Report>(lane);
    top.join_seat::<Report>(writer, note);
}

// The writer looks at the gate, and so knows that what it has learnt is no later than its version.
fn check<P: Program>(top: &Top<P>, writer: &mut Place<P>)
    requires table { (writer.old.table_id ≡ top.now.table_id) × (3 ≤ top.now.table_id.words) }
    requires writer { writer.old.me.0 ≡ Writes (plan_of writer.old.me.0) }
    ensures same { (writer.new.table_id ≡ writer.old.table_id) × (writer.new.me ≡ writer.old.me) }
    ensures met { (i : ℕ) → slice_index (plan_of writer.old.me.0).met i ≤ (plan_of writer.old.me.0).version }
    ensures heard { AreStates (plan_of writer.old.me.0) (plan_of writer.old.me.0).heard }
{
    top.load::<Check>(writer, 0);
}

/// The writer and a lane with no pin meet: first the writer's version goes to the lane, and then a copy of what the lane
/// has recorded goes to the writer. The lane's floor is then the writer's version, and the writer knows that the lane has
/// no pin before it, and that what the lane has recorded are its own states.
pub(crate) fn meet<P: Program>(top: &Top<P>, writer: &mut Place<P>, lane: &mut Place<P>)
    requires table { (writer.old.table_id ≡ top.now.table_id) × (lane.old.table_id ≡ top.now.table_id) × (3 ≤ top.now.table_id.words) }
    requires seats { (writer.old.me.0 ≡ Writes (plan_of writer.old.me.0)) × (lane.old.me.0 ≡ Reads (visit_of lane.old.me.0)) × ((visit_of lane.old.me.0).pin ≡ None) }
    requires room { (visit_of lane.old.me.0).number < length (plan_of writer.old.me.0).met }
    ensures same { (writer.new.table_id ≡ writer.old.table_id) × (lane.new.table_id ≡ lane.old.table_id) }
    ensures lane { lane.new.me ≡ (Reads (record (visit_of lane.old.me.0) { floor = (plan_of writer.old.me.0).version }), lane.old.me.1) }
    ensures writer { let q : Plan P = plan_of writer.old.me.0 in let l : Visit P = visit_of lane.old.me.0 in writer.new.me ≡ (Writes (record q { met = slice_set q.met l.number q.version; heard = l.entries }), writer.old.me.1) }
    ensures floor { (visit_of lane.old.me.0).floor ≤ (plan_of writer.old.me.0).version }
    ensures states { AreStates (plan_of writer.old.me.0) (visit_of lane.old.me.0).entries }
{
    tell(top, writer, lane);
    report(top, writer, lane);
    check(top, writer);
}
