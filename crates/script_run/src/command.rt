ghost use Rattle.std.specs.Prelude.{◌≡◌, ◌<◌, ◌≤◌, [], ◌∷◌, List, length, IfOk, IfErr, IsErrOf};
ghost use Rattle.flow_base.specs.Program.{Bytes};
ghost use Rattle.flow_base.specs.Causes.{Counts};
ghost use Rattle.script_reader.specs.Lines.{bytes_left, lines_left, TakesFront, BreaksLine, LINE_LIMIT};
ghost use Rattle.script_run.specs.Transcript.{Ends};
ghost use Rattle.script_run.specs.Steps.{Means, Reads};

use crate::{RunFault, WalkEnd};
use flow_base::{Source, Text};
use script_line::{Line, LineFault, read_line};
use script_reader::{LineReader, ReadFault};
use std::alloc::Global;

// The most lines of a script.
const MOST_LINES: u32 = 1_048_576;

/// What is to be done next.
#[derive(Debug, Drop)]
pub enum Command {
    /// The line is answered, and the walk goes on.
    Takes(Line),
    /// The walk ends.
    Ends(WalkEnd),
}

/// Reads the next line of a script of which so many were taken.
pub fn read_command<S: Source>(
    alloc: Global,
    taken: u32,
    reader: &mut LineReader,
    script: &mut S,
) -> Result<Command, RunFault>
    ensures reads { IfOk result (λ command. Reads command taken (lines_left reader.old (S.seen script.old).left) (lines_left reader.new (S.seen script.new).left)) }
    ensures front { TakesFront (bytes_left reader.old (S.seen script.old).left) (bytes_left reader.new (S.seen script.new).left) }
    ensures ahead { IsErrOf result RunFault.ScriptFault → reader.new ≡ [] }
    ensures broken { IsErrOf result RunFault.ScriptFault → BreaksLine (bytes_left reader.old (S.seen script.old).left) (bytes_left reader.new (S.seen script.new).left) }
    ensures counts { Counts (IsErrOf result RunFault.ScriptFault) (S.seen script.old).faults (S.seen script.new).faults }
    ensures no_sink { IsErrOf result RunFault.SinkFault → ⊥ }
{
    match reader.next(script) {
        Ok(None) => Ok(Command::Ends(WalkEnd::Finished)),
        Ok(Some(line)) => next_command(alloc, taken, &line),
        Err(ReadFault::TooLong) => Ok(Command::Ends(past_limit(taken))),
        Err(ReadFault::Failed) => Err(RunFault::ScriptFault),
        Err(ReadFault::NoMemory) => Err(RunFault::NoMemory),
    }
}

// What is to be done at a line that is no longer than a line may be.
fn next_command(alloc: Global, taken: u32, line: &Text) -> Result<Command, RunFault>
    requires { length line.now ≤ LINE_LIMIT }
    ensures means { IfOk result (λ command. Means command taken line.now) }
    ensures memory { IfErr result (λ fault. fault ≡ RunFault.NoMemory) }
{
    if taken >= MOST_LINES {
        return Ok(Command::Ends(WalkEnd::ManyLines));
    }
    match read_line(alloc, line.as_bytes()) {
        Ok(Line::End) => Ok(Command::Ends(WalkEnd::Finished)),
        Ok(line) => Ok(Command::Takes(line)),
        Err(LineFault::BadLine) => Ok(Command::Ends(WalkEnd::BadLine)),
        Err(LineFault::TooManyAsks { count }) => Ok(Command::Ends(WalkEnd::ManyAsks { count })),
        Err(LineFault::NoMemory) => Err(RunFault::NoMemory),
    }
}

// How a walk ends at a line that is longer than a line may be.
fn past_limit(taken: u32) -> WalkEnd
    ensures { (bytes : Bytes) (rest : List Bytes) → LINE_LIMIT < length bytes → Ends taken (bytes ∷ rest) result }
{
    if taken >= MOST_LINES {
        WalkEnd::ManyLines
    } else {
        WalkEnd::LongLine
    }
}
