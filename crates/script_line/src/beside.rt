//! The questions beside a recheck.
ghost use Rattle.std.specs.Prelude.{List, map, IfOk, IfSome, IfNone};
ghost use Rattle.std.specs.List.{AllZip};
ghost use Rattle.serde_json.specs.View.{view};
ghost use Rattle.asks.specs.declared.ask.Ask as the_ask;
ghost use Rattle.ask_line.specs.Asking.{Asks};
ghost use Rattle.script_line.specs.Says.{HasBeside};

use ask_line::read_ask;
use asks::Ask;
use flow_values::{List, NoMemory};
use serde_json::Value;
use std::alloc::Global;

// What the values ask, in order, where each asks something.
fn asks_of(alloc: Global, values: &[Value]) -> Result<Option<List<Ask>>, NoMemory>
    ensures found { IfOk result (λ asks. IfSome asks (AllZip Asks (map view values.now))) }
    ensures none { IfOk result (λ asks. IfNone asks ((l : List the_ask.Ask) → AllZip Asks (map view values.now) l → ⊥)) }
{
    let mut asks = List::new(alloc);
    for value in values {
        let Some(ask) = read_ask(alloc, value)? else {
            return Ok(None);
        };
        asks.push(ask)?;
    }
    Ok(Some(asks))
}

/// The questions beside a recheck: those of the array at the key `asks`, or none where nothing stands
/// there. It answers `None` where what stands there is no array of questions.
pub(crate) fn beside_in(alloc: Global, value: &Value) -> Result<Option<List<Ask>>, NoMemory>
    ensures found { IfOk result (λ asks. IfSome asks (λ l. HasBeside l (view value.now))) }
    ensures none { IfOk result (λ asks. IfNone asks ((l : List the_ask.Ask) → HasBeside l (view value.now) → ⊥)) }
{
    let Some(asks) = value.get("asks") else {
        return Ok(Some(List::new(alloc)));
    };
    let Some(values) = asks.as_array() else {
        return Ok(None);
    };
    asks_of(alloc, values)
}
