ghost use Rattle.std.specs.Prelude.{◌≡◌};

use flow_base::{NoMemory, PathFault};
use std::alloc::{AllocError, AllocFailed};
use std::io;
use std::io::ErrorKind;

// Why a folder was not listed, or a file not read.
pub enum DirFault {
    Failed,
    NoMemory,
}

impl From<AllocError> for DirFault {
    ghost use Rattle.flowd.specs.declared.dir_fault.DirFault.TheVariants.{NoMemory};

    ghost from_gives = { λ _ e. e ≡ NoMemory };

    fn from(_: AllocError) -> Self {
        DirFault::NoMemory
    }
}

impl<T: Drop> From<AllocFailed<T>> for DirFault {
    ghost use Rattle.flowd.specs.declared.dir_fault.DirFault.TheVariants.{NoMemory};

    ghost from_gives = { λ _ e. e ≡ NoMemory };

    fn from(_: AllocFailed<T>) -> Self {
        DirFault::NoMemory
    }
}

impl From<NoMemory> for DirFault {
    ghost use Rattle.flowd.specs.declared.dir_fault.DirFault.TheVariants.{NoMemory};

    ghost from_gives = { λ _ e. e ≡ NoMemory };

    fn from(_: NoMemory) -> Self {
        DirFault::NoMemory
    }
}

impl From<io::Error> for DirFault {
    fn from(error: io::Error) -> Self {
        if error.kind() == ErrorKind::OutOfMemory {
            DirFault::NoMemory
        } else {
            DirFault::Failed
        }
    }
}

impl From<PathFault> for DirFault {
    fn from(fault: PathFault) -> Self {
        match fault {
            PathFault::BadPath => DirFault::Failed,
            PathFault::NoMemory => DirFault::NoMemory,
        }
    }
}
