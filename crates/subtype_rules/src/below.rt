ghost use Rattle.std.specs.Prelude.{◌≡◌, ◌↔◌, IsTrue, IfOk};
ghost use Rattle.alias_table.specs.Table.{unfolded};
ghost use Rattle.subtyping.specs.Closed.{IsBelow};
ghost use Rattle.subtype_rules.specs.Answer.{below};

use crate::collecting::collect;
use crate::covering::is_covered;
use crate::deleting::{is_alive, survivors};
use crate::losing::is_lost;
use crate::rows::is_free;
use alias_table::AliasTable;
use flow_values::NoMemory;
use std::alloc::Global;
use type_values::FlowType;

// Whether some closed set has the pair.
fn decide(alloc: Global, table: &AliasTable, a: &FlowType, b: &FlowType) -> Result<bool, NoMemory>
    ensures { IfOk result (λ yes. IsTrue yes ↔ IsBelow (unfolded table.now) a.now b.now) }
{
    if is_free(a, b) {
        return Ok(true);
    }
    if a.equals(b) {
        return Ok(true);
    }
    if is_lost(a, b) {
        return Ok(false);
    }
    let covered = is_covered(alloc, a, b)?;
    if covered {
        return Ok(true);
    }
    let rows = collect(alloc, table, a, b)?;
    let alive = survivors(alloc, rows.as_slice())?;
    Ok(is_alive(alive.as_slice(), 0))
}

/// Whether a type is below another one: whether some closed set has the pair.
///
/// # Errors
///
/// `NoMemory` where memory is refused.
pub fn is_subtype(
    alloc: Global,
    table: &AliasTable,
    a: &FlowType,
    b: &FlowType,
) -> Result<bool, NoMemory>
    ensures relation { IfOk result (λ yes. IsTrue yes ↔ IsBelow (unfolded table.now) a.now b.now) }
    ensures value { IfOk result (λ yes. yes ≡ below table.now a.now b.now) }
{
    let yes = decide(alloc, table, a, b)?;
    Ok(yes)
}
