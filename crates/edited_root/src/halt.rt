ghost use Rattle.std.specs.Prelude.{◌≡◌};

use flow_values::{NoMemory, Path};
use std::alloc::{AllocError, AllocFailed};

/// Why the edited program can't be had.
#[derive(Debug, Drop)]
pub enum Halt {
    /// The folder failed at this path.
    Unread(Path),
    /// Memory was refused.
    NoMemory,
}

impl From<NoMemory> for Halt {
    ghost use Rattle.edited_root.specs.declared.halt.Halt.TheVariants.{NoMemory};

    ghost from_gives = { λ _ e. e ≡ NoMemory };

    fn from(_: NoMemory) -> Self {
        Halt::NoMemory
    }
}

impl From<AllocError> for Halt {
    ghost use Rattle.edited_root.specs.declared.halt.Halt.TheVariants.{NoMemory};

    ghost from_gives = { λ _ e. e ≡ NoMemory };

    fn from(_: AllocError) -> Self {
        Halt::NoMemory
    }
}

impl<T: Drop> From<AllocFailed<T>> for Halt {
    ghost use Rattle.edited_root.specs.declared.halt.Halt.TheVariants.{NoMemory};

    ghost from_gives = { λ _ e. e ≡ NoMemory };

    fn from(_: AllocFailed<T>) -> Self {
        Halt::NoMemory
    }
}
