ghost use Rattle.std.specs.Prelude.{◌≡◌, ◌≤◌, ◌<◌, length, IfOk, OnErr, IsErrOf};
ghost use Rattle.std.specs.Int.{IsInRange};
ghost use Rattle.flow_base.specs.Causes.{Counts};
ghost use Rattle.script_run.specs.beside.specs.Writers.{meaning_in};
ghost use Rattle.script_run.specs.beside.specs.Server.{uses_of};
ghost use Rattle.script_run.specs.declared.ending.WalkEnd.TheVariants.{Finished};
ghost use Rattle.script_run.specs.Session.{IsNewServer, IsIdle, program_in};
ghost use Rattle.generated_run.specs.Run.{HasGenerated, HasGeneratedFront};

use crate::folders::{folder_of, paths_in};
use crate::printing::close;
use crate::turns::{load, put_and_check_all};
use analyst::Analyst;
use flow_base::{Sink, Turnstile};
use generator::generate;
use place_analyst::PlaceAnalyst;
use script_run::affected_sizes::each_edit_has_sizes;
use script_run::beside::Server;
use script_run::{Ended, RunFault, WalkEnd};
use std::alloc::Global;
use std::sync::Wait;
use std::thread::Threads;

/// A run on `n` modules that are made up by a seed, on a new server for so many modules: the load, the ten
/// edits, each put and rechecked, and a last line. What each prints is written before the next one begins. All
/// analysts recheck, and each lane has an asker. At each poll of a recheck the turnstile is passed. The server is given
/// back as the run leaves it.
///
/// # Errors
///
/// `SinkFault` exactly where the sink counted a fault, and then one, and `NoMemory` where memory is refused. A front of
/// what the run prints is written then.
pub fn run_generated<
    R: Threads + Wait + Sync,
    K: Sink,
    T: Turnstile + Sync,
    A: Analyst + PlaceAnalyst + Send + Drop,
>(
    rt: &R,
    alloc: Global,
    server: Server,
    modules: u32,
    n: u32,
    seed: u64,
    analysts: Vec<A>,
    askers: Vec<A>,
    out: &mut K,
    turns: &T,
) -> Result<Ended, RunFault>
    requires new { IsNewServer server modules (length askers.items) }
    requires made { IsInRange 1 4096 n }
    requires few { n ≤ modules }
    requires some { 0 < length analysts.items }
    ensures finished { IfOk result (λ ended. ended.ending ≡ Finished) }
    ensures generated { IfOk result (λ ended. HasGenerated modules (length askers.items) n seed ended.errors (program_in (meaning_in ended.server.writer).committed) (meaning_in ended.server.writer).version (uses_of ended.server.lanes)
        (K.seen out.old).written (K.seen out.new).written) }
    ensures idle { IfOk result (λ ended. IsIdle ended.server × (length ended.server.lanes ≡ length askers.items)) }
    ensures front { OnErr result (HasGeneratedFront modules (length askers.items) n seed (K.seen out.old).written (K.seen out.new).written) }
    ensures counts { Counts (IsErrOf result RunFault.SinkFault) (K.seen out.old).faults (K.seen out.new).faults }
    ensures no_script { IsErrOf result RunFault.ScriptFault → ⊥ }
{
    each_edit_has_sizes();
    let generated = generate(alloc, n, seed)?;
    let mut folder = folder_of(alloc, generated.modules)?;
    let listed = paths_in(&mut folder)?;
    let paths = listed.as_slice();
    let mut session = load(
        rt,
        alloc,
        server,
        modules,
        paths,
        analysts,
        askers,
        &mut folder,
        out,
        turns,
    )?;
    let edits = generated.edits.as_slice();
    put_and_check_all(rt, alloc, &mut session, &mut folder, out, turns, edits)?;
    close(alloc, n, out)?;
    let errors = session.errors()?;
    Ok(Ended {
        ending: WalkEnd::Finished,
        errors,
        server: session.into_server(),
    })
}
