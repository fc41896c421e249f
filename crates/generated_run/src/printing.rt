//! What is printed, and where it goes.
ghost use Rattle.std.specs.Prelude.{◌≡◌, string_bytes, IfOk, OnOk, IsErrOf};
ghost use Rattle.flow_base.specs.Outside.{appended, HoldsFront};
ghost use Rattle.flow_base.specs.Causes.{Counts};
ghost use Rattle.generated_run.specs.Run.{generated_line};

use flow_base::{NoMemory, Sink, SinkFault};
use script_run::{RunFault, write_all};
use std::alloc::Global;

/// Writes what was printed.
///
/// # Errors
///
/// `SinkFault` exactly where the sink counted a fault, and then one, and `NoMemory` where memory is refused. A front of
/// it is written then.
pub(crate) fn print<K: Sink>(out: &mut K, printed: &[u8]) -> Result<(), RunFault>
    ensures ok { OnOk result ((K.seen out.new).written ≡ appended (K.seen out.old).written printed.now) }
    ensures front { HoldsFront (K.seen out.old).written (K.seen out.new).written printed.now }
    ensures counts { Counts (IsErrOf result RunFault.SinkFault) (K.seen out.old).faults (K.seen out.new).faults }
    ensures no_script { IsErrOf result RunFault.ScriptFault → ⊥ }
{
    match write_all(out, printed) {
        Ok(()) => Ok(()),
        Err(SinkFault::Failed) => Err(RunFault::SinkFault),
        Err(SinkFault::NoMemory) => Err(RunFault::NoMemory),
    }
}

/// The last line of a run on so many modules.
fn generated_line(alloc: Global, modules: u32) -> Result<String, NoMemory>
    ensures { IfOk result (λ line. string_bytes line ≡ generated_line modules) }
{
    Ok(format!(in alloc; "generated {modules} modules\n")?)
}

/// Prints the last line of a run on so many modules.
///
/// # Errors
///
/// As `print` has them.
#[tactic(auto, using(script_run::proofs::Fronts::front_none))]
pub(crate) fn close<K: Sink>(alloc: Global, modules: u32, out: &mut K) -> Result<(), RunFault>
    ensures ok { OnOk result ((K.seen out.new).written ≡ appended (K.seen out.old).written (generated_line modules)) }
    ensures front { HoldsFront (K.seen out.old).written (K.seen out.new).written (generated_line modules) }
    ensures counts { Counts (IsErrOf result RunFault.SinkFault) (K.seen out.old).faults (K.seen out.new).faults }
    ensures no_script { IsErrOf result RunFault.ScriptFault → ⊥ }
{
    let line = generated_line(alloc, modules)?;
    print(out, line.as_bytes())
}
