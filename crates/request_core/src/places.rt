//! The type at a place of a module.
ghost use Rattle.std.specs.Prelude.{◌≡◌};
ghost use Rattle.asks.specs.declared.ask.Ask.TheVariants as the_ask;
ghost use Rattle.heap_answers.specs.States.{program_in, Answers};

use crate::jobs::job_of;
use crate::laws::numbered;
use crate::rows::{place_in, root_of};
use asks::{Answer, AskFault};
use byte_places::byte_place;
use flow_base::Path;
use heap_answers::payloads::Payload;
use heap_answers::program_check::one_full;
use heap_core::HeapReader;
use place_analyst::{PlaceAnalyst, types_are_right};
use std::alloc::Global;

/// The type of the innermost expression that is read and covers the character at a line and a column of a module, both from 1.
///
/// # Errors
///
/// `UnknownPath` where the path is no module's, `NoExpression` where no such expression is there, and `NoMemory` where memory is
/// refused.
pub(crate) fn type_at_pos<R: HeapReader<Payload>, A: PlaceAnalyst>(
    alloc: Global,
    reader: &mut R,
    analyst: &A,
    path: &Path,
    line: u64,
    column: u64,
) -> Result<Answer, AskFault>
    ensures answer { Answers (program_in (R.state reader.old)) (the_ask.TypeAtPos path.now line column) result }
    ensures same { (R.at reader.new ≡ R.at reader.old) × (R.state reader.new ≡ R.state reader.old) }
    ensures part { R.part reader.new ≡ R.part reader.old }
{
    one_full();
    types_are_right();
    numbered(&*reader);
    let root = reader.root()?;
    let root = root_of(&root);
    let modules = root.modules.as_slice();
    let Some(at) = place_in(modules, path) else {
        return Err(AskFault::UnknownPath);
    };
    let module = &modules[at];
    let Some(place) = byte_place(module.text.as_bytes(), line, column) else {
        return Err(AskFault::NoExpression);
    };
    // Behind so many bytes a source is too long to be read.
    let Ok(byte) = u32::try_from(place) else {
        return Err(AskFault::NoExpression);
    };
    let job = job_of(alloc, reader, modules, module)?;
    match analyst.type_at(&job, byte)? {
        Some(ty) => Ok(Answer::Shown(ty)),
        None => Err(AskFault::NoExpression),
    }
}
