ghost use Rattle.std.specs.Prelude.{◌≡◌, ◌≤◌};
ghost use Rattle.std.specs.Option.{option_copied};
ghost use Rattle.pending_edits.specs.Counting.{kept_of};

use flow_values::{NoMemory, Text};
use std::alloc::{AllocError, AllocFailed};

/// What the next recheck does with a path.
#[derive(Debug, Drop)]
pub enum Edit {
    /// The module has this text.
    Put(Text),
    /// The module has the text that the folder then gives; a path that the folder lacks is no module.
    Touch,
    /// The path is no module.
    Delete,
}

/// Why an edit was refused.
#[derive(Clone, Copy, Debug, PartialEq, Eq)]
pub enum EditFault {
    /// With this edit `count` modules would be counted, more than there may be.
    TooManyModules { count: u64 },
    /// Memory was refused.
    NoMemory,
}

impl From<NoMemory> for EditFault {
    ghost use Rattle.pending_edits.specs.declared.edit.EditFault.TheVariants.{NoMemory};

    ghost from_gives = { λ _ e. e ≡ NoMemory };

    fn from(_: NoMemory) -> Self {
        EditFault::NoMemory
    }
}

impl From<AllocError> for EditFault {
    ghost use Rattle.pending_edits.specs.declared.edit.EditFault.TheVariants.{NoMemory};

    ghost from_gives = { λ _ e. e ≡ NoMemory };

    fn from(_: AllocError) -> Self {
        EditFault::NoMemory
    }
}

impl<T: Drop> From<AllocFailed<T>> for EditFault {
    ghost use Rattle.pending_edits.specs.declared.edit.EditFault.TheVariants.{NoMemory};

    ghost from_gives = { λ _ e. e ≡ NoMemory };

    fn from(_: AllocFailed<T>) -> Self {
        EditFault::NoMemory
    }
}

// 1 where an edit keeps its path a module, and else 0; a path without an edit has none that does.
pub(crate) fn kept_by(edit: Option<&Edit>) -> u32
    ensures kept { result ≡ kept_of (option_copied edit.entry) }
    ensures small { result ≤ 1 }
{
    match edit {
        Some(Edit::Put(_)) => 1,
        Some(Edit::Touch) => 1,
        Some(Edit::Delete) => 0,
        None => 0,
    }
}
