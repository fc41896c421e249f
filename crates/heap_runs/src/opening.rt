//! A heap of marks.
ghost use Rattle.std.specs.Prelude.{◌≡◌, ◌+◌, ◌*◌, ◌≤◌, false, length, refl, IfOk};
ghost use Rattle.entity_heap.specs.Writers.{IsWriterOf, meaning_in};
ghost use Rattle.heap_runs.specs.Fresh.{AreFresh};

use entity_heap::{Heap, Lane, Writer, open};
use flow_values::{List, NoMemory};
use heap_core::Program;
use std::alloc::Global;
use std::sync::Arc;

/// A payload that fits everywhere.
#[derive(Clone, Copy, Debug, PartialEq, Eq, Drop)]
pub struct Mark {
    pub number: u32,
}

impl Program for Mark {
    ghost fits = { λ _ _ _ _. Unit {0} };

    ghost fits_once = { λ _ _ _ _. λ _ _. refl };
}

/// A heap of marks for so many modules, with its writer and its lanes.
pub fn open_marks(
    alloc: Global,
    modules: u32,
    lanes: u32,
) -> Result<(Heap<Mark>, Writer<Mark>, List<Lane<Mark>>), NoMemory>
    requires { (1 ≤ modules) × (modules ≤ 4096) × (1 ≤ lanes) × (lanes ≤ 16) }
    ensures writer { IfOk result (λ h. IsWriterOf h.0 h.1 × ((meaning_in h.1).is_open ≡ false) × ((meaning_in h.1).version ≡ 0) × (length (meaning_in h.1).committed ≡ 1 + 4 * modules)) }
    ensures lanes { IfOk result (λ h. AreFresh h.0 h.2) }
{
    let root = Arc::new(alloc, Mark { number: 1 })?;
    let absent = Arc::new(alloc, Mark { number: 0 })?;
    let made = open(alloc, modules, lanes, root, absent)?;
    Ok(made)
}
