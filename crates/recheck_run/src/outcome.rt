ghost use Rattle.std.specs.Prelude.{◌≡◌};

use flow_values::{NoMemory, Path};
use recheck_checking::edited_root::Halt as ReadHalt;

/// How a recheck ended.
#[derive(Debug, Drop)]
pub enum Outcome {
    /// The edited program is committed, with its full check.
    Done {
        /// The heap's new version.
        version: u32,
        /// The number of modules whose sources were read.
        parsed: u32,
        /// The number of modules that were checked.
        checked: u32,
        /// The number of errors of all modules.
        errors: u64,
    },
    /// It was to stop at a poll. Nothing changed.
    Cancelled {
        /// The number of the poll, counted from 1.
        poll: u32,
    },
    /// The folder failed. Nothing changed.
    ReadFault {
        /// The path that was asked for.
        path: Path,
    },
    /// Memory was refused. Nothing changed.
    NoMemory,
}

/// Why a recheck can't go on.
#[derive(Debug, Drop)]
pub(crate) enum Halt {
    /// The folder failed at this path.
    Unread(Path),
    /// It is to stop at this poll.
    Stopped(u32),
    /// Memory was refused.
    NoMemory,
}

impl From<NoMemory> for Halt {
    ghost use Rattle.recheck_run.specs.declared.outcome.Halt.TheVariants.{NoMemory};

    ghost from_gives = { λ _ e. e ≡ NoMemory };

    fn from(_: NoMemory) -> Self {
        Halt::NoMemory
    }
}

impl From<ReadHalt> for Halt {
    ghost use Rattle.recheck_run.specs.Ends.{IsUnreadHalt};

    ghost from_gives = { λ halt e. IsUnreadHalt halt e };

    fn from(halt: ReadHalt) -> Self {
        match halt {
            ReadHalt::Unread(path) => Halt::Unread(path),
            ReadHalt::NoMemory => Halt::NoMemory,
        }
    }
}
