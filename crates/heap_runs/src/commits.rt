//! A writer that commits.
ghost use Rattle.std.specs.Prelude.{◌≡◌, ◌+◌, ◌<◌, ◌≤◌, ◌^◌, true, false, length};
ghost use Rattle.entity_heap.specs.Writers.{IsWriterOf, meaning_in};

use crate::opening::Mark;
use entity_heap::{Heap, Writer};
use flow_values::NoMemory;
use std::sync::{Arc, Wait};

/// Commits so many versions, with nothing staged.
pub fn commit_often<R: Wait>(rt: &R, heap: &Heap<Mark>, writer: &mut Writer<Mark>, times: u32)
    requires { IsWriterOf heap.now writer.old × ((meaning_in writer.old).is_open ≡ false) × ((meaning_in writer.old).version + times < 2 ^ 31) }
    ensures { IsWriterOf heap.now writer.new × ((meaning_in writer.new).version ≡ (meaning_in writer.old).version + times) }
{
    for _i in 0..times {
        writer.begin(rt, heap);
        writer.commit(heap);
    }
}

/// Stages the payload for each of the first entities.
fn stage_first(
    heap: &Heap<Mark>,
    writer: &mut Writer<Mark>,
    payload: &Arc<Mark>,
    staged: u32,
) -> Result<(), NoMemory>
    requires { IsWriterOf heap.now writer.old × ((meaning_in writer.old).is_open ≡ true) × (staged ≤ length (meaning_in writer.old).committed) }
    ensures { IsWriterOf heap.now writer.new × ((meaning_in writer.new).is_open ≡ true) × ((meaning_in writer.new).version ≡ (meaning_in writer.old).version) × (length (meaning_in writer.new).committed ≡ length (meaning_in writer.old).committed) }
{
    for e in 0..staged {
        writer.stage(heap, e, Arc::try_clone(payload)?)?;
    }
    Ok(())
}

/// Makes so many transactions, each of which stages the payload for the first entities. One whose memory is refused is
/// given up.
pub fn stage_often<R: Wait>(
    rt: &R,
    heap: &Heap<Mark>,
    writer: &mut Writer<Mark>,
    payload: &Arc<Mark>,
    staged: u32,
    times: u32,
)
    requires { IsWriterOf heap.now writer.old × ((meaning_in writer.old).is_open ≡ false) × ((meaning_in writer.old).version + times < 2 ^ 31) × (staged ≤ length (meaning_in writer.old).committed) }
{
    for _i in 0..times {
        writer.begin(rt, heap);
        match stage_first(heap, writer, payload, staged) {
            Ok(()) => {
                writer.commit(heap);
            }
            Err(NoMemory) => writer.rollback(heap),
        }
    }
}
