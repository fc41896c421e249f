//! Each public call once, and a second writer: one entity that tells its states, and that may wait.
ghost use Rattle.std.specs.Prelude.{refl};

mod calls;
mod rows;
mod running;
mod teller;
mod worlds;

use heap_core::Program;

/// A payload that fits everywhere.
#[derive(Clone, Copy, Debug, PartialEq, Eq, Drop)]
pub struct Mark {
    pub number: u32,
}

impl Program for Mark {
    ghost fits = { λ _ _ _ _. Unit {0} };

    ghost fits_once = { λ _ _ _ _. λ _ _. refl };
}
