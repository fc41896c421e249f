//! Whole transactions, over every writer.
ghost use Rattle.std.specs.Prelude.{◌≡◌, ◌+◌, ◌^◌, ◌<◌, true, false, length, map, replicate, IfOk, OnOk, OnErr};
ghost use Rattle.std.specs.Arc.{arc_value};
ghost use Rattle.heap_core.specs.Meaning.{AllFit, Appends};
ghost use Rattle.heap_core.specs.Transactions.{IsStaging, with_state};

use crate::traits::{HeapWriter, Program};
use flow_values::NoMemory;
use std::sync::Arc;

/// Stages the payload of each entity.
fn stage_state<P: Program, W: HeapWriter<P>>(
    writer: &mut W,
    state: &[Arc<P>],
) -> Result<(), NoMemory>
    requires is_open { (W.meaning writer.old).is_open ≡ true }
    requires entities { length state.now ≡ length (W.meaning writer.old).committed }
    ensures latest { OnOk result ((W.meaning writer.new).latest ≡ map arc_value state.now) }
    ensures staged { OnOk result ((W.meaning writer.new).staged ≡ replicate (length state.now) true) }
    ensures staging { IsStaging (W.meaning writer.old) (W.meaning writer.new) }
    ensures told { W.told writer.new ≡ W.told writer.old }
    ensures part { W.part writer.new ≡ W.part writer.old }
{
    for e in 0..state.len() {
        writer.stage(e as u32, Arc::try_clone(&state[e])?)?;
    }
    Ok(())
}

/// Commits this state, with a payload for each entity, as one transaction, and answers its version.
///
/// # Errors
///
/// `NoMemory` where memory is refused. The writer is as before then.
pub fn commit_state<P: Program, W: HeapWriter<P>>(
    writer: &mut W,
    state: &[Arc<P>],
) -> Result<u32, NoMemory>
    requires closed { ((W.meaning writer.old).is_open ≡ false) × ((W.meaning writer.old).version + 1 < 2 ^ 31) }
    requires entities { length state.now ≡ length (W.meaning writer.old).committed }
    requires fit { AllFit P.fits (map arc_value state.now) }
    ensures version { IfOk result (λ version. version ≡ (W.meaning writer.new).version) }
    ensures ok { OnOk result (W.meaning writer.new ≡ with_state (map arc_value state.now) (W.meaning writer.old)) }
    ensures ok_told { OnOk result (Appends (W.told writer.old) (map arc_value state.now) (W.told writer.new)) }
    ensures err { OnErr result (W.meaning writer.new ≡ W.meaning writer.old) }
    ensures err_told { OnErr result (W.told writer.new ≡ W.told writer.old) }
    ensures part { W.part writer.new ≡ W.part writer.old }
{
    writer.begin();
    match stage_state(writer, state) {
        Ok(()) => Ok(writer.commit()),
        Err(NoMemory) => {
            writer.rollback();
            Err(NoMemory)
        }
    }
}
