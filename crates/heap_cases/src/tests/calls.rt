//! The plain heap's calls, by their laws.
use super::Mark;
use heap_core::{HeapReader, PlainHeap};
use heap_world::laws::{begin_stands, commit_stands, reader_stands, rollback_stands, stage_stands};
use std::sync::Arc;
use std::test::Fail;

#[test]
fn a_plain_heap_stands_for_a_world(rt: HostRuntime) -> Result<(), Fail> {
    let alloc = rt.alloc();
    let root = Arc::new(alloc, Mark { number: 1 })?;
    let absent = Arc::new(alloc, Mark { number: 0 })?;
    let mut heap = PlainHeap::open(alloc, 2, root, absent)?;
    begin_stands(&mut heap);
    stage_stands(&mut heap, 1, Arc::new(alloc, Mark { number: 8 })?)?;
    assert_eq!(rt; commit_stands(&mut heap), 1);
    begin_stands(&mut heap);
    rollback_stands(&mut heap);
    assert_eq!(rt; reader_stands(&heap).read(1)?.number, 8);
    Ok(())
}
