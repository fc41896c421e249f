//! What the calls do to the lists.
ghost use Rattle.std.specs.Prelude.{◌≡◌, ℕ, ◌<◌, ◌++◌, ◌∷◌, [], true, length, set, Some, None, slice_get, IfOk, OnOk, OnErr, if◌then◌else◌, is_some, unwrap_or};
ghost use Rattle.std.specs.Arc.{arc_value};
ghost use Rattle.heap_core.specs.Meaning.{stamped, names};
ghost use Rattle.heap_core.specs.Plain.{values, overlaid, staged_of};

use flow_values::NoMemory;
use std::sync::Arc;

/// The pending payload where there is one, and else the committed one.
pub(super) fn latest_of<P: Drop>(
    pending: &Option<Arc<P>>,
    committed: &Arc<P>,
) -> Result<Arc<P>, NoMemory>
    ensures { IfOk result (λ latest. arc_value latest ≡ arc_value (unwrap_or pending.now committed.now)) }
{
    match pending {
        Some(payload) => Ok(Arc::try_clone(payload)?),
        None => Ok(Arc::try_clone(committed)?),
    }
}

/// Lists the entity `e`, unless it is listed already.
pub(super) fn list(staged: &mut Vec<u32>, e: u32, is_staged: bool) -> Result<(), NoMemory>
    ensures ok { OnOk result (staged.new.items ≡ (if is_staged then staged.old.items else staged.old.items ++ e ∷ [])) }
    ensures err { OnErr result (staged.new.items ≡ staged.old.items) }
{
    if !is_staged {
        staged.push(e)?;
    }
    Ok(())
}

/// Makes `payload` the pending one of the entity `e`.
pub(super) fn put<P: Drop>(pending: &mut Vec<Option<Arc<P>>>, e: u32, payload: Arc<P>)
    requires { e < length pending.old.items }
    ensures { pending.new.items ≡ set pending.old.items e (Some payload) }
{
    pending[e as usize] = Some(payload);
}

/// Moves a pending payload over the committed one, which is then of this version.
fn move_over<P: Drop>(
    pending: &mut Option<Arc<P>>,
    committed: &mut Arc<P>,
    own: &mut u32,
    version: u32,
)
    ensures committed { committed.new ≡ unwrap_or pending.old committed.old }
    ensures own { own.new ≡ (if is_some pending.old then version else own.old) }
    ensures pending { pending.new ≡ None }
{
    if let Some(payload) = pending.take() {
        *committed = payload;
        *own = version;
    }
}

/// Moves each pending payload to its place among the committed ones, last committed at this version, and lists none.
/// All that pend are listed.
pub(super) fn settle<P: Drop>(
    staged: &mut Vec<u32>,
    pending: &mut Vec<Option<Arc<P>>>,
    committed: &mut Vec<Arc<P>>,
    versions: &mut Vec<u32>,
    version: u32,
)
    requires lengths { (length pending.old.items ≡ length committed.old.items) × (length versions.old.items ≡ length committed.old.items) }
    requires listed { (e : ℕ) → slice_get (staged_of pending.old.items) e ≡ Some true → names staged.old.items e ≡ true }
    requires within { (i e : ℕ) → slice_get staged.old.items i ≡ Some e → e < length committed.old.items }
    ensures committed { values committed.new.items ≡ overlaid committed.old.items pending.old.items }
    ensures versions { versions.new.items ≡ stamped version (staged_of pending.old.items) versions.old.items }
    ensures pending { (e : ℕ) → e < length pending.new.items → slice_get pending.new.items e ≡ Some None }
    ensures staged { staged.new.items ≡ [] }
    ensures lengths { (length committed.new.items ≡ length committed.old.items) × (length pending.new.items ≡ length pending.old.items) × (length versions.new.items ≡ length versions.old.items) }
{
    for e in staged.iter() {
        let at = *e as usize;
        move_over(
            &mut pending[at],
            &mut committed[at],
            &mut versions[at],
            version,
        );
    }
    staged.clear();
}

/// Drops each pending payload, and lists none. All that pend are listed.
pub(super) fn clear<P: Drop>(numbers: &mut Vec<u32>, pending: &mut Vec<Option<Arc<P>>>)
    requires listed { (e : ℕ) → slice_get (staged_of pending.old.items) e ≡ Some true → names numbers.old.items e ≡ true }
    requires within { (i e : ℕ) → slice_get numbers.old.items i ≡ Some e → e < length pending.old.items }
    ensures pending { (e : ℕ) → e < length pending.new.items → slice_get pending.new.items e ≡ Some None }
    ensures numbers { numbers.new.items ≡ [] }
    ensures length { length pending.new.items ≡ length pending.old.items }
{
    for e in numbers.iter() {
        pending[*e as usize] = None;
    }
    numbers.clear();
}
