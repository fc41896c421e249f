//! What the writer's calls do to the table and to its own lists.
ghost use Rattle.std.specs.Prelude.{◌≡◌, ℕ, ◌+◌, ◌^◌, ◌<◌, ◌≤◌, ◌++◌, ◌∷◌, [], set, vec_len, vec_capacity, if◌then◌else◌, Bool, true, false, length, replicate, slice_get, slice_index, slice_index_or, Some, None, OnOk, IfOk};
ghost use Rattle.std.specs.Arc.{arc_value};
ghost use Rattle.heap_core.specs.Meaning.{none_of};
ghost use Rattle.entity_heap.specs.declared.board.Role.TheVariants.{Writes};
ghost use Rattle.entity_heap.specs.declared.board.Plan.{Plan};
ghost use Rattle.entity_heap.specs.Rule.{word_for, old_word};
ghost use Rattle.entity_heap.specs.Plans.{plan_of, new_words, staging};
ghost use Rattle.entity_heap.specs.Starts.{fill_of, AreShares, AreListed};

use crate::board::{Place, Top};
use crate::steps;
use flow_values::NoMemory;
use heap_core::Program;
use std::snapshot::Snapshot;
use std::sync::Arc;

/// Shares the payload once for each lane.
pub(super) fn share_out<P: Drop>(
    shares: &mut Vec<Arc<P>>,
    payload: &Arc<P>,
    lanes: u32,
) -> Result<(), NoMemory>
    ensures { OnOk result ((length shares.new.items ≡ lanes) × AreShares (arc_value payload.now) shares.new.items) }
{
    shares.clear();
    for _i in 0..lanes {
        shares.push(Arc::try_clone(payload)?)?;
    }
    Ok(())
}

/// An entity's word, once it is staged at this version.
pub(super) fn staged_word(version: u32, old: u64) -> u64
    ensures { result ≡ word_for version true old }
{
    2 * (version as u64 + 1) + (1 - old % 2)
}

/// Fills the slot of entity e in each lane with a share.
pub(super) fn fill_lanes<P: Program>(
    top: &Top<P>,
    place: &mut Place<P>,
    shares: &mut Vec<Arc<P>>,
    value: &Snapshot<P>,
    lanes: u32,
    entities: u32,
    version: u32,
    e: u32,
)
    requires table { (place.old.table_id ≡ top.now.table_id) × (top.now.table_id.words ≡ 3 + entities) }
    requires writer { let q : Plan P = plan_of place.old.me.0 in (place.old.me ≡ (Writes q, [])) × (q.entities ≡ entities) × (q.version ≡ version) × (q.reset ≡ true) × (q.hand ≡ None) × (q.fill ≡ None) × (q.lanes ≡ lanes) }
    requires shares { (length shares.old.items ≡ lanes) × AreShares value.now.value shares.old.items }
    requires small { (e < entities) × (entities < 2 ^ 16) × (lanes ≤ 16) }
    ensures same { place.new.table_id ≡ place.old.table_id }
    ensures filled { let q : Plan P = plan_of place.old.me.0 in place.new.me ≡ (Writes (record q { fill = fill_of lanes e value.now.value }), []) }
{
    for lane in 0..lanes {
        let Some(share) = shares.pop() else {
            unreachable!()
        };
        steps::fill(
            top,
            place,
            lane as u64,
            entities as u64,
            version as u64,
            e as u64,
            share,
        );
    }
}

/// Stages the payload as entity e's in each lane. There is a share of it for each.
pub(super) fn put_out<P: Program>(
    top: &Top<P>,
    place: &mut Place<P>,
    shares: &mut Vec<Arc<P>>,
    value: &Snapshot<P>,
    lanes: u32,
    entities: u32,
    version: u32,
    e: u32,
    old: u64,
)
    requires table { (place.old.table_id ≡ top.now.table_id) × (top.now.table_id.words ≡ 3 + entities) }
    requires writer { let q : Plan P = plan_of place.old.me.0 in (place.old.me ≡ (Writes q, [])) × (q.entities ≡ entities) × (q.version ≡ version) × (q.reset ≡ true) × (q.hand ≡ None) × (q.fill ≡ None) × (q.lanes ≡ lanes) }
    requires shares { (length shares.old.items ≡ lanes) × AreShares value.now.value shares.old.items }
    requires small { (e < entities) × (entities < 2 ^ 16) × (0 < lanes) × (lanes ≤ 16) }
    requires word { old ≡ old_word (plan_of place.old.me.0) e }
    ensures same { place.new.table_id ≡ place.old.table_id }
    ensures staged { place.new.me ≡ (Writes (staging (plan_of place.old.me.0) e value.now.value), []) }
{
    fill_lanes(top, place, shares, value, lanes, entities, version, e);
    steps::stage(top, place, e as u64, staged_word(version, old));
}

/// Lists the entity e as staged, unless it is. There is room for its number.
pub(super) fn list(numbers: &mut Vec<u32>, staged: &mut Vec<bool>, e: u32)
    requires { (e < length staged.old.items) × (vec_len numbers.old < vec_capacity numbers.old) }
    ensures staged { staged.new.items ≡ set staged.old.items e true }
    ensures numbers { numbers.new.items ≡ (if slice_index_or staged.old.items e false then numbers.old.items else numbers.old.items ++ e ∷ []) }
{
    if staged[e as usize] {
        return;
    }
    staged[e as usize] = true;
    match numbers.push(e) {
        Ok(()) => {}
        Err(_) => unreachable!(),
    }
}

/// Gives each staged entity its word of the last commit again, and lists none. All that are staged are listed.
pub(super) fn roll_all<P: Program>(
    top: &Top<P>,
    place: &mut Place<P>,
    words: &Vec<u64>,
    staged: &mut Vec<bool>,
    numbers: &mut Vec<u32>,
    entities: u32,
)
    requires table { (place.old.table_id ≡ top.now.table_id) × (top.now.table_id.words ≡ 3 + entities) × (entities < 2 ^ 16) }
    requires writer { let q : Plan P = plan_of place.old.me.0 in (place.old.me ≡ (Writes q, [])) × (q.entities ≡ entities) × (q.reset ≡ true) × (q.hand ≡ None) × (q.fill ≡ None) }
    requires lists { let q : Plan P = plan_of place.old.me.0 in (q.words ≡ words.now.items) × (q.staged ≡ staged.old.items) × (length words.now.items ≡ entities) × (length staged.old.items ≡ entities) × (length q.committed ≡ entities) × (length q.next ≡ entities) }
    requires unstaged { let q : Plan P = plan_of place.old.me.0 in (e : ℕ) → slice_index_or q.staged e false ≡ false → slice_get q.next e ≡ slice_get q.committed e }
    requires listed { AreListed numbers.old.items staged.old.items }
    requires within { (i e : ℕ) → slice_get numbers.old.items i ≡ Some e → e < entities }
    ensures same { place.new.table_id ≡ place.old.table_id }
    ensures rolled { let q : Plan P = plan_of place.old.me.0 in place.new.me ≡ (Writes (record q { next = q.committed; staged = none_of q.staged }), []) }
    ensures staged { staged.new.items ≡ none_of staged.old.items }
    ensures numbers { numbers.new.items ≡ [] }
{
    for e in numbers.iter() {
        let at = *e as usize;
        if staged[at] {
            steps::roll(top, place, *e as u64, words[at]);
            staged[at] = false;
        }
    }
    numbers.clear();
}

/// Each staged entity's word becomes the one that it was given, none is staged, and none is listed. All that are staged
/// are listed.
pub(super) fn renew(
    words: &mut Vec<u64>,
    staged: &mut Vec<bool>,
    numbers: &mut Vec<u32>,
    version: u32,
)
    requires lengths { length staged.old.items ≡ length words.old.items }
    requires listed { AreListed numbers.old.items staged.old.items }
    requires within { (i e : ℕ) → slice_get numbers.old.items i ≡ Some e → e < length words.old.items }
    ensures words { words.new.items ≡ new_words version staged.old.items words.old.items }
    ensures staged { staged.new.items ≡ none_of staged.old.items }
    ensures numbers { numbers.new.items ≡ [] }
{
    for e in numbers.iter() {
        let at = *e as usize;
        if staged[at] {
            words[at] = staged_word(version, words[at]);
            staged[at] = false;
        }
    }
    numbers.clear();
}
