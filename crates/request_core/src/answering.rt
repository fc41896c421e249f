ghost use Rattle.std.specs.Prelude.{◌≡◌};
ghost use Rattle.heap_answers.specs.States.{program_in, Answers};
ghost use Rattle.request_core.specs.Works.{WorksFor};

use crate::contents::check_contents;
use crate::laws::numbered;
use crate::places::type_at_pos;
use analyst::Analyst;
use asks::{Answer, Ask, AskFault};
use heap_answers::payloads::Payload;
use heap_answers::{errors, find_module, importers, ls, signature, status};
use heap_core::HeapReader;
use place_analyst::PlaceAnalyst;
use std::alloc::Global;

/// What is asked, answered from the state that a reader reads. For a text that isn't saved the analyst reads it and checks it once; no
/// other answer counts as its work.
///
/// # Errors
///
/// `UnknownPath` where a path is asked for that is no module's; else `NoExpression` where a type is asked for and no expression that is
/// read covers the place; and `NoMemory` where memory is refused.
pub fn answer<R: HeapReader<Payload>, A: Analyst + PlaceAnalyst>(
    alloc: Global,
    reader: &mut R,
    analyst: &mut A,
    ask: &Ask,
) -> Result<Answer, AskFault>
    ensures answer { Answers (program_in (R.state reader.old)) ask.now result }
    ensures work { WorksFor ask.now result (A.work analyst.old) (A.work analyst.new) }
    ensures same { (R.at reader.new ≡ R.at reader.old) × (R.state reader.new ≡ R.state reader.old) }
    ensures part { R.part reader.new ≡ R.part reader.old }
{
    numbered(&*reader);
    match ask {
        Ask::Status => status(alloc, reader),
        Ask::Errors { path } => errors(alloc, reader, path),
        Ask::CheckContents { path, text } => check_contents(alloc, reader, analyst, path, text),
        Ask::TypeAtPos { path, line, column } => {
            type_at_pos(alloc, reader, &*analyst, path, *line, *column)
        }
        Ask::FindModule { path, spec } => find_module(alloc, reader, path, spec),
        Ask::Ls => ls(alloc, reader),
        Ask::Importers { path } => importers(alloc, reader, path),
        Ask::Signature { path } => signature(alloc, reader, path),
    }
}
