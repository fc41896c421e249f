//! What stands in a world's lists.
ghost use Rattle.std.specs.Prelude.{◌≡◌, ◌≢◌, ◌↔◌, ◌<◌, ◌≤◌, ◌+◌, ℕ, Bool, true, List, length, slice_get, map, Option, Some, None};
ghost use Rattle.std.specs.Option.{option_map};
ghost use Rattle.std.specs.Arc.{arc_value};

use flow_values::List;
use std::sync::Arc;

/// Whether a payload of the entity pends.
pub(super) fn pends<P: Drop>(pending: &[Option<Arc<P>>], e: u32) -> bool
    ensures yes { result ≡ true → (e < length pending.now) × ((x : P) × (slice_get (map (option_map arc_value) pending.now) e ≡ Some (Some x))) }
    ensures no { ((x : P) × (slice_get (map (option_map arc_value) pending.now) e ≡ Some (Some x))) → result ≡ true }
{
    let at = e as usize;
    at < pending.len() && pending[at].is_some()
}

/// Whether no payload pends.
pub(super) fn none_pends<P: Drop>(pending: &[Option<Arc<P>>]) -> bool
    ensures yes { result ≡ true → (e : ℕ) → ¬ ((x : P) × (slice_get (map (option_map arc_value) pending.now) e ≡ Some (Some x))) }
    ensures no { ((e : ℕ) → ¬ ((x : P) × (slice_get (map (option_map arc_value) pending.now) e ≡ Some (Some x)))) → result ≡ true }
{
    for payload in pending {
        if payload.is_some() {
            return false;
        }
    }
    true
}

/// Whether each row has true at `e`, which is below their lengths.
pub(super) fn is_filled(rows: &[List<bool>], e: u32) -> bool
    requires { (n : ℕ) (row : List Bool) → slice_get rows.now n ≡ Some row → e < length row }
    ensures yes { result ≡ true → (n : ℕ) (row : List Bool) → slice_get rows.now n ≡ Some row → slice_get row e ≡ Some true }
    ensures no { ((n : ℕ) (row : List Bool) → slice_get rows.now n ≡ Some row → slice_get row e ≡ Some true) → result ≡ true }
{
    for row in rows {
        if !row.as_slice()[e as usize] {
            return false;
        }
    }
    true
}

/// Whether the lane has a pin.
pub(super) fn is_pinned(pins: &[Option<u32>], lane: u32) -> bool
    ensures yes { result ≡ true → (lane < length pins.now) × ((c : ℕ) × (slice_get pins.now lane ≡ Some (Some c))) }
    ensures no { ((c : ℕ) × (slice_get pins.now lane ≡ Some (Some c))) → result ≡ true }
{
    let at = lane as usize;
    at < pins.len() && pins[at].is_some()
}

/// Whether no lane is pinned at the version before the last one of so many.
pub(super) fn none_before(pins: &[Option<u32>], current: usize) -> bool
    ensures yes { result ≡ true → (n c : ℕ) → slice_get pins.now n ≡ Some (Some c) → c + 1 ≢ current }
    ensures no { ((n c : ℕ) → slice_get pins.now n ≡ Some (Some c) → c + 1 ≢ current) → result ≡ true }
{
    for pin in pins {
        if is_before(*pin, current) {
            return false;
        }
    }
    true
}

/// Whether it is a pin at the version before.
fn is_before(pin: Option<u32>, current: usize) -> bool
    ensures yes { result ≡ true → (c : ℕ) × (pin ≡ Some c) × (c + 1 ≡ current) }
    ensures no { result ≢ true → (c : ℕ) → pin ≡ Some c → c + 1 ≢ current }
{
    match pin {
        Some(version) => version as usize + 1 == current,
        None => false,
    }
}
