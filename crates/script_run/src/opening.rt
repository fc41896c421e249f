ghost use Rattle.std.specs.Prelude.{◌≤◌, IfOk};
ghost use Rattle.script_run.specs.Session.{IsNewServer};

use beside::{Server, open};
use check_values::Root;
use flow_values::{List, NoMemory, Shared};
use payloads::Payload;
use std::alloc::Global;
use std::sync::Arc;

/// A server for so many modules, of 1 to 4,096, and with so many lanes, of 1 to 16: it is at version 0,
/// has no module, and has answered nothing.
///
/// # Errors
///
/// `NoMemory` where memory is refused.
pub fn open_server(alloc: Global, modules: u32, lanes: u32) -> Result<Server, NoMemory>
    requires { (1 ≤ modules) × (modules ≤ 4096) × (1 ≤ lanes) × (lanes ≤ 16) }
    ensures { IfOk result (λ server. IsNewServer server modules lanes) }
{
    let root = Root {
        modules: List::new(alloc),
    };
    let root = Arc::new(alloc, Payload::Root(Shared::new(alloc, root)?))?;
    let absent = Arc::new(alloc, Payload::Absent)?;
    let (heap, writer, lanes) = open(alloc, modules, lanes, root, absent)?;
    Ok(Server {
        heap,
        writer,
        lanes,
    })
}
