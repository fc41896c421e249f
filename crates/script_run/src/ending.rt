ghost use Rattle.std.specs.Prelude.{◌≡◌, ◌+◌, IfOk};
ghost use Rattle.script_run.specs.Transcript.{last_line};

use beside::Server;
use flow_base::{NoMemory, SinkFault};
use script_print::{bad_line, long_line, many_asks, many_lines};
use std::alloc::Global;

/// How a walk over the lines of a script ends.
#[derive(Clone, Copy, Debug, PartialEq, Eq)]
pub enum WalkEnd {
    /// No line is left, or the next one ends the script.
    Finished,
    /// The next line is neither blank nor a command.
    BadLine,
    /// The next line is longer than 4,194,304 bytes.
    LongLine,
    /// 1,048,576 lines were taken, and one more is there.
    ManyLines,
    /// The next line is a recheck with so many asks, more than 64.
    ManyAsks { count: u64 },
}

/// A run that came to its end.
#[derive(Drop)]
pub struct Ended {
    /// How the script ended.
    pub ending: WalkEnd,
    /// The number of errors of the program that was committed last.
    pub errors: u64,
    /// The server, which holds that program at its version, with the lanes that answered.
    pub server: Server,
}

/// Why a run did not come to its end.
#[derive(Clone, Copy, Debug, PartialEq, Eq)]
pub enum RunFault {
    /// The script failed.
    ScriptFault,
    /// The sink failed.
    SinkFault,
    /// Memory was refused.
    NoMemory,
}

impl From<NoMemory> for RunFault {
    ghost use Rattle.script_run.specs.declared.ending.RunFault.TheVariants.{NoMemory};

    ghost from_gives = { λ _ e. e ≡ NoMemory };

    fn from(_: NoMemory) -> Self {
        RunFault::NoMemory
    }
}

/// The line that the end of a walk prints, by the number of the line that was not taken.
pub fn last_line(alloc: Global, number: u64, ending: WalkEnd) -> Result<Vec<u8>, NoMemory>
    ensures { IfOk result (λ line. line.items ≡ last_line number ending) }
{
    match ending {
        WalkEnd::Finished => Ok(Vec::new(alloc)),
        WalkEnd::BadLine => Ok(bad_line(alloc, number)?.into_bytes()),
        WalkEnd::LongLine => Ok(Vec::from_slice(alloc, long_line())?),
        WalkEnd::ManyLines => Ok(Vec::from_slice(alloc, many_lines())?),
        WalkEnd::ManyAsks { count } => Ok(many_asks(alloc, count)?.into_bytes()),
    }
}
