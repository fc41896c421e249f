//! The load, and turns behind it.
ghost use Rattle.std.specs.Prelude.{◌≡◌, ◌≤◌, ◌<◌, ◌+◌, ◌^◌, length, replicate, IfOk, OnOk, OnErr, IsErrOf};
ghost use Rattle.std.specs.List.{flat_map};
ghost use Rattle.flow_base.specs.Program.{IsRising, paths_of};
ghost use Rattle.flow_base.specs.Causes.{Counts};
ghost use Rattle.script_run.specs.beside.specs.Uses.{new_lane, MayAnswer};
ghost use Rattle.script_run.specs.Transcript.{asks_of};
ghost use Rattle.script_run.specs.Session.{IsNewServer, standing_in};
ghost use Rattle.generated_run.specs.Run.{put_and_check, Goes};
ghost use Rattle.generated_run.specs.Steps.{HasDone, HasBegun, Loads, TakesTurn, BreaksOff};

use crate::printing::print;
use analyst::Analyst;
use flow_base::{List, MemFolder, Path, Sink, Text, Turnstile};
use place_analyst::PlaceAnalyst;
use script_line::Line;
use script_run::affected_sizes::each_edit_has_sizes;
use script_run::beside::Server;
use script_run::{RunFault, Session};
use std::alloc::Global;
use std::sync::Wait;
use std::thread::Threads;

/// The load of a folder whose paths these are: the first recheck, and its line.
///
/// # Errors
///
/// As `print` has them; a front of a load's line is written then.
pub(crate) fn load<
    R: Threads + Wait + Sync,
    K: Sink,
    T: Turnstile + Sync,
    A: Analyst + PlaceAnalyst + Send + Drop,
>(
    rt: &R,
    alloc: Global,
    server: Server,
    modules: u32,
    listed: &[Path],
    analysts: Vec<A>,
    askers: Vec<A>,
    folder: &mut MemFolder,
    out: &mut K,
    turns: &T,
) -> Result<Session<A>, RunFault>
    requires new { IsNewServer server modules (length askers.items) }
    requires listed { listed.now ≡ paths_of folder.old }
    requires rising { IsRising listed.now }
    requires few { length listed.now ≤ modules }
    requires some { 0 < length analysts.items }
    ensures loaded { IfOk result (λ session. HasDone (Loads (length askers.items) folder.old) (standing_in session) (K.seen out.old).written (K.seen out.new).written) }
    ensures version { IfOk result (λ session. session.heap.version ≤ 1) }
    ensures lanes { IfOk result (λ session. session.lanes ≡ replicate (length askers.items) new_lane) }
    ensures modules { IfOk result (λ session. session.waiting.capacity ≡ modules) }
    ensures front { OnErr result (HasBegun (Loads (length askers.items) folder.old) (K.seen out.old).written (K.seen out.new).written) }
    ensures counts { Counts (IsErrOf result RunFault.SinkFault) (K.seen out.old).faults (K.seen out.new).faults }
    ensures no_script { IsErrOf result RunFault.ScriptFault → ⊥ }
    ensures same { folder.new ≡ folder.old }
{
    each_edit_has_sizes();
    let mut session = Session::open(alloc, server, modules, listed, analysts, askers)?;
    let printed = session.recheck(rt, 0, &[], folder, turns)?;
    print(out, printed.as_slice())?;
    Ok(session)
}

// Takes a turn that does not end the run.
fn turn<
    R: Threads + Wait + Sync,
    K: Sink,
    T: Turnstile + Sync,
    A: Analyst + PlaceAnalyst + Send + Drop,
>(
    rt: &R,
    session: &mut Session<A>,
    folder: &mut MemFolder,
    out: &mut K,
    turns: &T,
    line: Line,
) -> Result<(), RunFault>
    requires version { session.old.heap.version + 1 < 2 ^ 31 }
    requires pins { MayAnswer (length (asks_of line)) session.old.lanes }
    requires goes_on { line ≡ Line.End → ⊥ }
    ensures turned { OnOk result (HasDone (TakesTurn session.old.waiting.capacity folder.old line (standing_in session.old)) (standing_in session.new) (K.seen out.old).written (K.seen out.new).written) }
    ensures breaks { OnErr result (BreaksOff session.old.waiting.capacity folder.old line (standing_in session.old) (K.seen out.old).written (K.seen out.new).written) }
    ensures modules { session.new.waiting.capacity ≡ session.old.waiting.capacity }
    ensures counts { Counts (IsErrOf result RunFault.SinkFault) (K.seen out.old).faults (K.seen out.new).faults }
    ensures no_script { IsErrOf result RunFault.ScriptFault → ⊥ }
    ensures same { folder.new ≡ folder.old }
{
    let printed = session.turn(rt, folder, turns, line)?;
    print(out, printed.as_slice())
}

// Puts an edit, and rechecks.
fn put_and_check<
    R: Threads + Wait + Sync,
    K: Sink,
    T: Turnstile + Sync,
    A: Analyst + PlaceAnalyst + Send + Drop,
>(
    rt: &R,
    alloc: Global,
    session: &mut Session<A>,
    folder: &mut MemFolder,
    out: &mut K,
    turns: &T,
    path: Path,
    text: Text,
) -> Result<(), RunFault>
    requires version { session.old.heap.version + 1 < 2 ^ 31 }
    requires pins { MayAnswer 0 session.old.lanes }
    ensures goes { OnOk result (HasDone (Goes session.old.waiting.capacity folder.old (put_and_check (path, text)) (standing_in session.old)) (standing_in session.new) (K.seen out.old).written (K.seen out.new).written) }
    ensures front { OnErr result (HasBegun (Goes session.old.waiting.capacity folder.old (put_and_check (path, text)) (standing_in session.old)) (K.seen out.old).written (K.seen out.new).written) }
    ensures version { OnOk result (session.new.heap.version ≤ session.old.heap.version + 1) }
    ensures lanes { OnOk result (session.new.lanes ≡ session.old.lanes) }
    ensures modules { session.new.waiting.capacity ≡ session.old.waiting.capacity }
    ensures counts { Counts (IsErrOf result RunFault.SinkFault) (K.seen out.old).faults (K.seen out.new).faults }
    ensures no_script { IsErrOf result RunFault.ScriptFault → ⊥ }
    ensures same { folder.new ≡ folder.old }
{
    each_edit_has_sizes();
    turn(rt, session, folder, out, turns, Line::Edit { path, text })?;
    let asks = List::new(alloc);
    turn(
        rt,
        session,
        folder,
        out,
        turns,
        Line::Recheck { stop: 0, asks },
    )
}

/// Puts edits one by one, and rechecks behind each.
///
/// # Errors
///
/// As `print` has them; a front of what all the edits print is written then.
pub(crate) fn put_and_check_all<
    R: Threads + Wait + Sync,
    K: Sink,
    T: Turnstile + Sync,
    A: Analyst + PlaceAnalyst + Send + Drop,
>(
    rt: &R,
    alloc: Global,
    session: &mut Session<A>,
    folder: &mut MemFolder,
    out: &mut K,
    turns: &T,
    edits: &[(Path, Text)],
) -> Result<(), RunFault>
    requires version { session.old.heap.version + length edits.now < 2 ^ 31 }
    requires pins { MayAnswer 0 session.old.lanes }
    ensures goes { OnOk result (HasDone (Goes session.old.waiting.capacity folder.old (flat_map put_and_check edits.now) (standing_in session.old)) (standing_in session.new) (K.seen out.old).written (K.seen out.new).written) }
    ensures lanes { OnOk result (session.new.lanes ≡ session.old.lanes) }
    ensures front { OnErr result (HasBegun (Goes session.old.waiting.capacity folder.old (flat_map put_and_check edits.now) (standing_in session.old)) (K.seen out.old).written (K.seen out.new).written) }
    ensures counts { Counts (IsErrOf result RunFault.SinkFault) (K.seen out.old).faults (K.seen out.new).faults }
    ensures no_script { IsErrOf result RunFault.ScriptFault → ⊥ }
    ensures same { folder.new ≡ folder.old }
{
    each_edit_has_sizes();
    for i in 0..edits.len() {
        let (path, text) = &edits[i];
        put_and_check(
            rt,
            alloc,
            session,
            folder,
            out,
            turns,
            path.share()?,
            text.share()?,
        )?;
    }
    Ok(())
}
