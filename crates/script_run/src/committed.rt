//! What a writer has committed, as a reader of it.
ghost use Rattle.std.specs.Prelude.{◌≡◌, false};
ghost use Rattle.beside.specs.Writers.{meaning_in};

use beside::Writer;
use flow_base::NoMemory;
use heap_core::HeapReader;
use payloads::Payload;
use std::sync::Arc;

/// The committed state of a writer without an open transaction.
#[derive(Drop)]
pub struct Committed<'a> {
    writer: &'a Writer<Payload>,
    ghost closed: { (meaning_in writer.now).is_open ≡ false },
}

impl<'a> Committed<'a> {
    /// What this writer has committed.
    pub fn of(writer: &'a Writer<Payload>) -> Committed<'a>
        requires { (meaning_in writer.now).is_open ≡ false }
        ensures { result.writer.now ≡ writer.now }
    {
        Committed { writer }
    }
}

impl HeapReader<Payload> for Committed<'_> {
    ghost use Rattle.heap_core.specs.PlainHeaps.{plain_sound, plain_numbered};
    ghost use Rattle.script_run.specs.Session.{may_be_read};

    type Part = ();

    ghost part = { λ _. tt };

    ghost at = { λ r. (meaning_in r.writer.now).version };

    ghost state = { λ r. (meaning_in r.writer.now).committed };

    fn version(&self) -> u32 {
        self.writer.version()
    }

    fn root(&mut self) -> Result<Arc<Payload>, NoMemory> {
        self.writer.latest(0)
    }

    fn read(&mut self, e: u32) -> Result<Arc<Payload>, NoMemory> {
        self.writer.latest(e)
    }

    ghost fit = { λ r. may_be_read (plain_sound r.writer.now.plain) };

    ghost numbered = { λ r. plain_numbered r.writer.now.plain };
}
