//! A heap is opened.
ghost use Rattle.std.specs.Prelude.{◌≡◌, ℕ, ◌+◌, ◌-◌, ◌*◌, ◌^◌, ◌<◌, ◌≤◌, ◌==◌, [], ◌∷◌, Some, None, IfOk, length, replicate, true, false, if◌then◌else◌};
ghost use Rattle.std.specs.Arc.{arc_value};
ghost use Rattle.heap_core.specs.Meaning.{AllFit, opening};
ghost use Rattle.entity_heap.specs.declared.board.Role.TheVariants.{Reads, Writes};
ghost use Rattle.entity_heap.specs.Plans.{plan_of, first_state, first_plan, first_visit};
ghost use Rattle.entity_heap.specs.Starts.{IsLaid, AreLaid};
ghost use Rattle.entity_heap.specs.Writers.{IsWriterOf, plan_in, meaning_in};
ghost use Rattle.entity_heap.specs.Lanes.{visit_in, IsLaneOf, AreNew};

use super::{Core, Heap, Lane, Writer};
use crate::board::{Board, Place, Terms};
use crate::steps;
use atomic_table::Table;
use flow_values::{List, NoMemory};
use heap_core::{PlainHeap, Program};
use std::alloc::Global;
use std::snapshot::Snapshot;
use std::sync::Arc;

/// A share of the payload that entity e begins with.
fn first_payload<P: Drop>(root: &Arc<P>, absent: &Arc<P>, e: usize) -> Result<Arc<P>, NoMemory>
    ensures { IfOk result (λ a. arc_value a ≡ (if e == 0 then arc_value root.now else arc_value absent.now)) }
{
    if e == 0 {
        return Ok(Arc::try_clone(root)?);
    }
    Ok(Arc::try_clone(absent)?)
}

/// Two slots for each entity in each lane, with the payload that it begins with.
fn lay_slots<P: Drop>(
    alloc: Global,
    root: &Arc<P>,
    absent: &Arc<P>,
    entities: u32,
    lanes: u32,
) -> Result<Vec<Option<Arc<P>>>, NoMemory>
    requires { (0 < entities) × (entities < 2 ^ 16) × (lanes ≤ 16) }
    ensures length { IfOk result (λ v. length v.items ≡ 2 * (lanes * entities)) }
    ensures laid { IfOk result (λ v. AreLaid (arc_value root.now) (arc_value absent.now) entities v.items) }
{
    let rows = lanes as usize * entities as usize;
    let count = 2 * rows;
    let mut slots = Vec::with_capacity(alloc, count)?;
    for k in 0..count {
        slots.push(Some(first_payload(root, absent, (k / 2) % entities as usize)?))?;
    }
    Ok(slots)
}

fn zeros(alloc: Global, count: usize) -> Result<Vec<u64>, NoMemory>
    ensures { IfOk result (λ v. v.items ≡ replicate count 0) }
{
    Ok(Vec::from_elem(alloc, 0, count)?)
}

fn falses(alloc: Global, count: usize) -> Result<Vec<bool>, NoMemory>
    ensures { IfOk result (λ v. v.items ≡ replicate count false) }
{
    Ok(Vec::from_elem(alloc, false, count)?)
}

fn lay<P: Program>(
    alloc: Global,
    terms: &Terms<P>,
    slots: Vec<Option<Arc<P>>>,
) -> Result<(Board<P>, Place<P>), NoMemory>
    requires sizes { (0 < terms.now.entities) × (terms.now.entities < 2 ^ 16) × (0 < terms.now.lanes) × (terms.now.lanes ≤ 16) }
    requires fit { AllFit P.fits (first_state terms.now) }
    requires laid { IsLaid terms.now slots.items }
    ensures { IfOk result (λ t. (t.0.shared.table_id.words ≡ 3 + terms.now.entities) × (t.1.table_id ≡ t.0.shared.table_id) × (t.1.me ≡ (Writes (first_plan terms.now), []))) }
{
    let words = zeros(alloc, 3 + terms.entities as usize)?;
    match Table::new(alloc, words.as_slice(), slots, terms) {
        Ok(made) => Ok(made),
        Err(_) => Err(NoMemory),
    }
}

fn make_lane<P: Program>(heap: &Heap<P>, place: &mut Place<P>, number: u32) -> Lane<P>
    requires from { (place.old.table_id ≡ heap.now.board.shared.table_id) × (place.old.table_id.words ≡ 3 + (plan_of place.old.me.0).entities) }
    requires writer { let q = plan_of place.old.me.0 in (place.old.me ≡ (Writes q, [])) × (q.made ≡ number) × (number < q.lanes) × (number < 16) }
    ensures same { (place.new.table_id ≡ place.old.table_id) × (place.new.me ≡ (Writes (record (plan_of place.old.me.0) { made = (plan_of place.old.me.0).made + 1 }), [])) }
    ensures lane { IsLaneOf heap.now result × (visit_in result ≡ first_visit (plan_of place.old.me.0).entities number) }
{
    Lane {
        core: Some(Core {
            place: steps::make(&heap.board.shared, place),
            number,
            pins: 0,
            seen: 0,
            floor: 0,
            pinned: None,
        }),
    }
}

fn make_lanes<P: Program>(
    alloc: Global,
    heap: &Heap<P>,
    place: &mut Place<P>,
    lanes: u32,
) -> Result<Vec<Lane<P>>, NoMemory>
    requires from { (place.old.table_id ≡ heap.now.board.shared.table_id) × (place.old.table_id.words ≡ 3 + (plan_of place.old.me.0).entities) }
    requires writer { let q = plan_of place.old.me.0 in (place.old.me ≡ (Writes q, [])) × (q.made ≡ 0) × (q.lanes ≡ lanes) × (lanes ≤ 16) }
    ensures same { (place.new.table_id ≡ place.old.table_id) × (place.new.me ≡ (Writes (record (plan_of place.old.me.0) { made = (plan_of place.new.me.0).made }), [])) }
    ensures count { IfOk result (λ v. length v.items ≡ lanes) }
    ensures lanes { IfOk result (λ v. AreNew heap.now (plan_of place.old.me.0).entities v.items) }
    ensures made { IfOk result (λ v. (plan_of place.new.me.0).made ≡ lanes) }
{
    let mut made = Vec::new(alloc);
    for number in 0..lanes {
        made.push(make_lane(heap, place, number))?;
    }
    Ok(made)
}

fn open_for<P: Program>(
    alloc: Global,
    entities: u32,
    lanes: u32,
    root: Arc<P>,
    absent: Arc<P>,
) -> Result<(Heap<P>, Writer<P>, List<Lane<P>>), NoMemory>
    requires sizes { (0 < entities) × (entities < 2 ^ 16) × (0 < lanes) × (lanes ≤ 16) }
    requires fit { AllFit P.fits (arc_value root ∷ replicate (entities - 1) (arc_value absent)) }
    ensures meaning { IfOk result (λ h. meaning_in h.1 ≡ opening (arc_value root ∷ replicate (entities - 1) (arc_value absent))) }
    ensures writer { IfOk result (λ h. IsWriterOf h.0 h.1 × ((plan_in h.1).history ≡ (arc_value root ∷ replicate (entities - 1) (arc_value absent)) ∷ [])) }
    ensures lanes { IfOk result (λ h. (length h.2 ≡ lanes) × ((plan_in h.1).made ≡ lanes) × AreNew h.0 entities h.2) }
{
    let terms = Terms {
        root: Snapshot::of(&*root),
        absent: Snapshot::of(&*absent),
        entities: entities as u64,
        lanes: lanes as u64,
    };
    let slots = lay_slots(alloc, &root, &absent, entities, lanes)?;
    let (board, mut place) = lay(alloc, &terms, slots)?;
    let heap = Heap { board, entities };
    let made = make_lanes(alloc, &heap, &mut place, lanes)?;
    let plain = PlainHeap::open(alloc, entities, root, absent)?;
    let words = zeros(alloc, entities as usize)?;
    let staged = falses(alloc, entities as usize)?;
    let numbers = Vec::with_capacity(alloc, entities as usize)?;
    let shares = Vec::with_capacity(alloc, lanes as usize)?;
    let writer = Writer {
        place,
        plain,
        words,
        staged,
        numbers,
        shares,
        lanes,
        drained: true,
        reset: true,
        owed: 0,
    };
    Ok((heap, writer, List::from_vec(made)))
}

/// A heap at version 0 for so many modules, of 1 to 4,096, with its writer and its lanes, of 1 to 16: entity 0 holds
/// `root`, and each of the four that a module has holds `absent`. The room for staging is taken here.
///
/// # Errors
///
/// `NoMemory` where memory is refused.
pub fn open<P: Program>(
    alloc: Global,
    capacity: u32,
    lanes: u32,
    root: Arc<P>,
    absent: Arc<P>,
) -> Result<(Heap<P>, Writer<P>, List<Lane<P>>), NoMemory>
    requires sizes { (1 ≤ capacity) × (capacity ≤ 4096) × (1 ≤ lanes) × (lanes ≤ 16) }
    requires fit { AllFit P.fits (arc_value root ∷ replicate (4 * capacity) (arc_value absent)) }
    ensures meaning { IfOk result (λ h. meaning_in h.1 ≡ opening (arc_value root ∷ replicate (4 * capacity) (arc_value absent))) }
    ensures writer { IfOk result (λ h. IsWriterOf h.0 h.1 × ((plan_in h.1).history ≡ (arc_value root ∷ replicate (4 * capacity) (arc_value absent)) ∷ [])) }
    ensures lanes { IfOk result (λ h. (length h.2 ≡ lanes) × ((plan_in h.1).made ≡ lanes) × AreNew h.0 (1 + 4 * capacity) h.2) }
{
    open_for(alloc, 1 + 4 * capacity, lanes, root, absent)
}
