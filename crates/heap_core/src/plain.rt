//! The heap of one thread: the committed payloads, and those that are staged over them.
ghost use Rattle.std.specs.Prelude.{◌≡◌, ℕ, ◌+◌, ◌^◌, ◌<◌, ◌≤◌, true, false, length, Some, slice_get};
ghost use Rattle.heap_core.specs.Meaning.{AllFit, none_of, names};
ghost use Rattle.heap_core.specs.Plain.{values, staged_of};
ghost use Rattle.heap_core.specs.PlainLaws.{AllFit-prop};

use crate::traits::Program;
use std::sync::Arc;

mod opens;
mod reads;
mod steps;
mod writes;

/// A heap whose writer and readers take turns. It keeps one committed state and no history.
#[derive(Drop)]
pub struct PlainHeap<P: Program> {
    version: u32,
    is_open: bool,
    committed: Vec<Arc<P>>,
    pending: Vec<Option<Arc<P>>>,
    versions: Vec<u32>,
    // the numbers of the entities that pend: a commit looks at no others
    staged: Vec<u32>,
    ghost some_entity: { 0 < length committed.items },
    ghost numbered: { length committed.items < 2 ^ 32 },
    ghost as_many: { (length pending.items ≡ length committed.items) × (length versions.items ≡ length committed.items) },
    ghost fit: { AllFit P.fits (values committed.items) } by { AllFit-prop P.fits P.fits_once (values committed.items) },
    ghost bounded: { (e n : ℕ) → slice_get versions.items e ≡ Some n → n ≤ version },
    ghost closed: { is_open ≡ false → staged_of pending.items ≡ none_of (staged_of pending.items) },
    ghost room: { is_open ≡ true → version + 1 < 2 ^ 31 },
    ghost listed: { (e : ℕ) → slice_get (staged_of pending.items) e ≡ Some true → names staged.items e ≡ true },
    ghost within: { (i e : ℕ) → slice_get staged.items i ≡ Some e → e < length committed.items },
}

/// A reader of a plain heap's committed state.
#[derive(Drop)]
pub struct PlainReader<'a, P: Program> {
    heap: &'a PlainHeap<P>,
}
