ghost use Rattle.std.specs.Prelude.{◌≡◌, ◌≤◌, ◌+◌, ◌<◌, ◌^◌, [], length, IfOk, IfSome, IfNone, OnOk, OnErr, IsErrOf};
ghost use Rattle.flow_base.specs.Program.{IsRising};
ghost use Rattle.flow_base.specs.Outside.{appended, HoldsFront};
ghost use Rattle.flow_base.specs.Causes.{Counts};
ghost use Rattle.flow_base.specs.Seen.{outside};
ghost use Rattle.script_reader.specs.Lines.{bytes_left, lines_left, TakesFront, BreaksLine};
ghost use Rattle.script_run.specs.Transcript.{start, asks_of, last_line};
ghost use Rattle.beside.specs.Writers.{meaning_in};
ghost use Rattle.script_line.specs.Says.{MOST_ASKS};
ghost use Rattle.beside.specs.Uses.{MayAnswer};
ghost use Rattle.beside.specs.Server.{uses_of};
ghost use Rattle.script_run.specs.Session.{IsNewServer, IsIdle, program_in, standing_in};
ghost use Rattle.script_run.specs.Steps.{walk_state, Takes, Closes, Breaks, HasAnswered, BreaksOff, HasLoaded, BreaksLoad, HasRun, HasStopped, HasFront};

use crate::command::{Command, read_command};
use crate::ending::last_line;
use crate::session::Session;
use crate::sinks::write_all;
use crate::{Ended, RunFault, WalkEnd};
use analyst::Analyst;
use beside::Server;
use beside::affected_sizes::each_edit_has_sizes;
use beside::answers_law::each_has_answer;
use beside::place_analyst::PlaceAnalyst;
use flow_base::{Folder, Path, Sink, SinkFault, Source, Turnstile};
use script_line::Line;
use script_reader::LineReader;
use std::alloc::Global;
use std::sync::Wait;
use std::thread::Threads;

/// The load of these paths, which rise, into a server for so many modules that has none, and then the
/// script line by line. What a line prints is written before the next one is read. All analysts recheck,
/// and each asker answers on the lane of its place. At each poll of a recheck, and at each ask, the
/// turnstile is passed. The server is given back as the walk leaves it, with the program, the version and
/// the uses of the lanes at which it ended.
///
/// # Errors
///
/// `ScriptFault` and `SinkFault` exactly where the script, or the sink, counted a fault, and then one,
/// and `NoMemory` where memory is refused. After `ScriptFault` all whole lines that the script gave are answered,
/// and what they print is written; after the others a front of what a whole run prints, with no more read faults than
/// the folder counted.
pub fn run<
    R: Threads + Wait + Sync,
    F: Folder,
    S: Source,
    K: Sink,
    T: Turnstile + Sync,
    A: Analyst + PlaceAnalyst + Send + Drop,
>(
    rt: &R,
    alloc: Global,
    server: Server,
    modules: u32,
    listed: &[Path],
    analysts: Vec<A>,
    askers: Vec<A>,
    folder: &mut F,
    script: &mut S,
    out: &mut K,
    turns: &T,
) -> Result<Ended, RunFault>
    requires new { IsNewServer server modules (length askers.items) }
    requires rising { IsRising listed.now }
    requires few { length listed.now ≤ modules }
    requires some { 0 < length analysts.items }
    ensures ended { IfOk result (λ ended. HasRun modules (length askers.items) listed.now ended.ending ended.errors (program_in (meaning_in ended.server.writer).committed) (meaning_in ended.server.writer).version (uses_of ended.server.lanes)
        (outside (F.seen folder.old) (S.seen script.old) (K.seen out.old)) (outside (F.seen folder.new) (S.seen script.new) (K.seen out.new))) }
    ensures idle { IfOk result (λ ended. IsIdle ended.server × (length ended.server.lanes ≡ length askers.items)) }
    ensures stopped { IsErrOf result RunFault.ScriptFault → HasStopped modules (length askers.items) listed.now
        (outside (F.seen folder.old) (S.seen script.old) (K.seen out.old)) (outside (F.seen folder.new) (S.seen script.new) (K.seen out.new)) }
    ensures front { OnErr result (HasFront modules (length askers.items) listed.now
        (outside (F.seen folder.old) (S.seen script.old) (K.seen out.old)) (outside (F.seen folder.new) (S.seen script.new) (K.seen out.new))) }
    ensures script_counts { Counts (IsErrOf result RunFault.ScriptFault) (S.seen script.old).faults (S.seen script.new).faults }
    ensures sink_counts { Counts (IsErrOf result RunFault.SinkFault) (K.seen out.old).faults (K.seen out.new).faults }
    ensures told { (F.seen folder.new).told ≡ (F.seen folder.old).told }
    ensures later { (F.seen folder.old).faults ≤ (F.seen folder.new).faults }
{
    each_edit_has_sizes();
    each_has_answer();
    let mut session = load(
        rt, alloc, server, modules, listed, analysts, askers, folder, out, turns,
    )?;
    let mut reader = LineReader::new(alloc)?;
    let mut taken = 0;
    loop {
        match step(
            rt,
            alloc,
            taken,
            &mut session,
            &mut reader,
            folder,
            script,
            out,
            turns,
        )? {
            Some(ending) => {
                let errors = session.errors()?;
                let server = session.into_server();
                return Ok(Ended {
                    ending,
                    errors,
                    server,
                });
            }
            None => taken += 1,
        }
    }
}

// The load: the first recheck, and its line.
#[tactic(auto, using(crate::proofs::Walks::loaded_from))]
fn load<
    R: Threads + Wait + Sync,
    F: Folder,
    K: Sink,
    T: Turnstile + Sync,
    A: Analyst + PlaceAnalyst + Send + Drop,
>(
    rt: &R,
    alloc: Global,
    server: Server,
    modules: u32,
    listed: &[Path],
    analysts: Vec<A>,
    askers: Vec<A>,
    folder: &mut F,
    out: &mut K,
    turns: &T,
) -> Result<Session<A>, RunFault>
    requires new { IsNewServer server modules (length askers.items) }
    requires rising { IsRising listed.now }
    requires few { length listed.now ≤ modules }
    requires some { 0 < length analysts.items }
    ensures loaded { IfOk result (λ session. HasLoaded (walk_state (start listed.now (length askers.items)) (F.seen folder.old) (K.seen out.old)) (walk_state (standing_in session) (F.seen folder.new) (K.seen out.new))) }
    ensures modules { IfOk result (λ session. session.waiting.capacity ≡ modules) }
    ensures front { OnErr result (BreaksLoad (walk_state (start listed.now (length askers.items)) (F.seen folder.old) (K.seen out.old)) (F.seen folder.new) (K.seen out.new).written) }
    ensures counts { Counts (IsErrOf result RunFault.SinkFault) (K.seen out.old).faults (K.seen out.new).faults }
    ensures no_script { IsErrOf result RunFault.ScriptFault → ⊥ }
    ensures told { (F.seen folder.new).told ≡ (F.seen folder.old).told }
    ensures later { (F.seen folder.old).faults ≤ (F.seen folder.new).faults }
{
    let mut session = Session::open(alloc, server, modules, listed, analysts, askers)?;
    let line = session.recheck(rt, 0, &[], folder, turns)?;
    print(out, line.as_slice())?;
    Ok(session)
}

// Takes the next line of a script of which so many were taken, and answers it. Where the walk ends
// there, it prints its last line, and tells how it ended.
fn step<
    R: Threads + Wait + Sync,
    F: Folder,
    S: Source,
    K: Sink,
    T: Turnstile + Sync,
    A: Analyst + PlaceAnalyst + Send + Drop,
>(
    rt: &R,
    alloc: Global,
    taken: u32,
    session: &mut Session<A>,
    reader: &mut LineReader,
    folder: &mut F,
    script: &mut S,
    out: &mut K,
    turns: &T,
) -> Result<Option<WalkEnd>, RunFault>
    requires version { session.old.heap.version + 1 < 2 ^ 31 }
    requires pins { MayAnswer MOST_ASKS session.old.lanes }
    ensures takes { IfOk result (λ ending. IfNone ending (Takes session.old.waiting.capacity taken (lines_left reader.old (S.seen script.old).left) (lines_left reader.new (S.seen script.new).left)
        (walk_state (standing_in session.old) (F.seen folder.old) (K.seen out.old)) (walk_state (standing_in session.new) (F.seen folder.new) (K.seen out.new)))) }
    ensures closes { IfOk result (λ ending. IfSome ending (λ how. Closes how taken (lines_left reader.old (S.seen script.old).left)
        (walk_state (standing_in session.old) (F.seen folder.old) (K.seen out.old)) (walk_state (standing_in session.new) (F.seen folder.new) (K.seen out.new)))) }
    ensures breaks { OnErr result (Breaks session.old.waiting.capacity taken (lines_left reader.old (S.seen script.old).left) (walk_state (standing_in session.old) (F.seen folder.old) (K.seen out.old)) (F.seen folder.new) (K.seen out.new).written) }
    ensures modules { session.new.waiting.capacity ≡ session.old.waiting.capacity }
    ensures silent { IsErrOf result RunFault.ScriptFault → K.seen out.new ≡ K.seen out.old }
    ensures unread { IsErrOf result RunFault.ScriptFault → F.seen folder.new ≡ F.seen folder.old }
    ensures front { TakesFront (bytes_left reader.old (S.seen script.old).left) (bytes_left reader.new (S.seen script.new).left) }
    ensures ahead { IsErrOf result RunFault.ScriptFault → reader.new ≡ [] }
    ensures broken { IsErrOf result RunFault.ScriptFault → BreaksLine (bytes_left reader.old (S.seen script.old).left) (bytes_left reader.new (S.seen script.new).left) }
    ensures script_counts { Counts (IsErrOf result RunFault.ScriptFault) (S.seen script.old).faults (S.seen script.new).faults }
    ensures sink_counts { Counts (IsErrOf result RunFault.SinkFault) (K.seen out.old).faults (K.seen out.new).faults }
    ensures told { (F.seen folder.new).told ≡ (F.seen folder.old).told }
    ensures later { (F.seen folder.old).faults ≤ (F.seen folder.new).faults }
{
    match read_command(alloc, taken, reader, script)? {
        Command::Takes(line) => {
            answer(rt, session, folder, out, turns, line)?;
            Ok(None)
        }
        Command::Ends(ending) => {
            close(alloc, taken, ending, out)?;
            Ok(Some(ending))
        }
    }
}

// Answers a line that does not end the script.
fn answer<
    R: Threads + Wait + Sync,
    F: Folder,
    K: Sink,
    T: Turnstile + Sync,
    A: Analyst + PlaceAnalyst + Send + Drop,
>(
    rt: &R,
    session: &mut Session<A>,
    folder: &mut F,
    out: &mut K,
    turns: &T,
    line: Line,
) -> Result<(), RunFault>
    requires version { session.old.heap.version + 1 < 2 ^ 31 }
    requires pins { MayAnswer (length (asks_of line)) session.old.lanes }
    requires goes_on { line ≡ Line.End → ⊥ }
    ensures answered { OnOk result (HasAnswered session.old.waiting.capacity line (walk_state (standing_in session.old) (F.seen folder.old) (K.seen out.old)) (walk_state (standing_in session.new) (F.seen folder.new) (K.seen out.new))) }
    ensures modules { session.new.waiting.capacity ≡ session.old.waiting.capacity }
    ensures breaks { OnErr result (BreaksOff session.old.waiting.capacity line (walk_state (standing_in session.old) (F.seen folder.old) (K.seen out.old)) (F.seen folder.new) (K.seen out.new).written) }
    ensures counts { Counts (IsErrOf result RunFault.SinkFault) (K.seen out.old).faults (K.seen out.new).faults }
    ensures no_script { IsErrOf result RunFault.ScriptFault → ⊥ }
    ensures told { (F.seen folder.new).told ≡ (F.seen folder.old).told }
    ensures later { (F.seen folder.old).faults ≤ (F.seen folder.new).faults }
{
    let printed = session.turn(rt, folder, turns, line)?;
    print(out, printed.as_slice())
}

// Prints the last line of a walk that took so many lines.
#[tactic(auto, using(crate::proofs::Fronts::front_none))]
fn close<K: Sink>(alloc: Global, taken: u32, ending: WalkEnd, out: &mut K) -> Result<(), RunFault>
    ensures closed { OnOk result ((K.seen out.new).written ≡ appended (K.seen out.old).written (last_line (taken + 1) ending)) }
    ensures front { HoldsFront (K.seen out.old).written (K.seen out.new).written (last_line (taken + 1) ending) }
    ensures counts { Counts (IsErrOf result RunFault.SinkFault) (K.seen out.old).faults (K.seen out.new).faults }
    ensures no_script { IsErrOf result RunFault.ScriptFault → ⊥ }
{
    let printed = last_line(alloc, taken as u64 + 1, ending)?;
    print(out, printed.as_slice())
}

// Writes what was printed.
fn print<K: Sink>(out: &mut K, printed: &[u8]) -> Result<(), RunFault>
    ensures ok { OnOk result ((K.seen out.new).written ≡ appended (K.seen out.old).written printed.now) }
    ensures front { HoldsFront (K.seen out.old).written (K.seen out.new).written printed.now }
    ensures counts { Counts (IsErrOf result RunFault.SinkFault) (K.seen out.old).faults (K.seen out.new).faults }
    ensures no_script { IsErrOf result RunFault.ScriptFault → ⊥ }
{
    match write_all(out, printed) {
        Ok(()) => Ok(()),
        Err(SinkFault::Failed) => Err(RunFault::SinkFault),
        Err(SinkFault::NoMemory) => Err(RunFault::NoMemory),
    }
}
