//! All results of the edited program, staged.
ghost use Rattle.std.specs.Prelude.{◌≡◌, ◌<◌, ◌≤◌, ◌^◌, true, false, All, IfOk, OnOk, length, count_by, slice_get, Some};
ghost use Rattle.heap_core.specs.Meaning.{none_of};
ghost use Rattle.heap_core.specs.Transactions.{IsStaging};
ghost use Rattle.recheck_run.specs.Stages.{IsBase, IsBaseIn, IsChecking};
ghost use Rattle.recheck_run.specs.Steps.{AreAnew, IsReady};

use crate::flags::flags_of;
use crate::laws::error_laws;
use crate::stages::{Base, Checking, Staged};
use committed_results::recheck_staging::{Anew, stage_anew};
use flow_values::NoMemory;
use heap_core::HeapWriter;
use recheck_checking::payloads::Payload;
use recheck_checking::whole_errors;
use recheck_reach::check_phases::{Made, count_errors};
use std::alloc::Global;

// All results, and which of them were made anew.
#[derive(Drop)]
struct Results {
    made: Made,
    anew: Anew,
}

// All results of the edited program, where all that is to be checked is.
fn results_of(alloc: Global, base: &Base, checking: Checking) -> Result<Results, NoMemory>
    requires base { IsBase base.now }
    requires checking { IsChecking base.now checking }
    requires all { length checking.checked ≤ checking.done }
    ensures { IfOk result (λ r. AreAnew base.now r.made r.anew) }
{
    error_laws();
    errors_by_reach::errors_by_reach();
    let Checking {
        sources,
        relisted,
        signatures,
        moved,
        table: _,
        checked: ones,
        done: _,
        errors: slots,
    } = checking;
    let errors = whole_errors(alloc, slots)?;
    let flags = base.fresh.as_slice();
    let fresh = Vec::from_slice(alloc, flags)?;
    let root = base.root.get();
    let count = root.modules.len();
    let numbers = ones.as_slice();
    let checked = flags_of(alloc, count, numbers)?;
    Ok(Results {
        made: Made {
            sources,
            signatures,
            errors,
        },
        anew: Anew {
            fresh,
            relisted,
            moved,
            checked,
        },
    })
}

/// Counts the errors of all modules, and stages what was made anew.
///
/// # Errors
///
/// `NoMemory` where memory is refused. Some of it may be staged then.
pub(crate) fn stage_all<W: HeapWriter<Payload>>(
    alloc: Global,
    writer: &mut W,
    base: &Base,
    checking: Checking,
) -> Result<Staged, NoMemory>
    requires is_open { (W.meaning writer.old).is_open ≡ true }
    requires bare { (W.meaning writer.old).staged ≡ none_of (W.meaning writer.old).staged }
    requires base { IsBaseIn (W.meaning writer.old).committed base.now }
    requires checking { IsChecking base.now checking }
    requires all { length checking.checked ≤ checking.done }
    ensures ready { IfOk result (λ staged. IsReady base.now (W.meaning writer.old) (W.meaning writer.new) staged.errors) }
    ensures parsed { IfOk result (λ staged. staged.parsed ≡ count_by (λ on. on) base.now.fresh.items) }
    ensures checked { IfOk result (λ staged. staged.checked ≡ length checking.checked) }
    ensures staging { IsStaging (W.meaning writer.old) (W.meaning writer.new) }
    ensures is_open { (W.meaning writer.new).is_open ≡ true }
    ensures told { W.told writer.new ≡ W.told writer.old }
    ensures part { W.part writer.new ≡ W.part writer.old }
{
    let parsed = base.fresh.iter().filter(|flag| **flag).count() as u32;
    let checked = checking.checked.len() as u32;
    let results = results_of(alloc, base, checking)?;
    let Results { made, anew } = results;
    let all = made.errors.as_slice();
    let errors = count_errors(all)?;
    let freed = base.freed.as_slice();
    stage_anew(alloc, writer, &made, &anew, freed)?;
    Ok(Staged {
        parsed,
        checked,
        errors,
    })
}
