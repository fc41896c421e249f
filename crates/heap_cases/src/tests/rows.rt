//! The plain heap.
use super::Mark;
use heap_core::{HeapReader, HeapWriter, PlainHeap};
use std::sync::Arc;
use std::test::Fail;

#[test]
fn the_plain_heap_opens_stages_and_gives_up(rt: HostRuntime) -> Result<(), Fail> {
    let alloc = rt.alloc();
    let root = Arc::new(alloc, Mark { number: 1 })?;
    let absent = Arc::new(alloc, Mark { number: 0 })?;
    let mut heap = PlainHeap::open(alloc, 5, root, absent)?;
    assert_eq!(rt; heap.version(), 0);
    assert_eq!(rt; heap.reader().root()?.number, 1);
    assert_eq!(rt; heap.reader().read(1)?.number, 0);
    heap.begin();
    heap.stage(1, Arc::new(alloc, Mark { number: 7 })?)?;
    assert_eq!(rt; heap.latest(1)?.number, 7);
    assert_eq!(rt; heap.entity_version(1), 1);
    heap.rollback();
    assert_eq!(rt; heap.latest(1)?.number, 0);
    assert!(rt; !heap.is_open());
    Ok(())
}

#[test]
fn a_plain_heap_commits(rt: HostRuntime) -> Result<(), Fail> {
    let alloc = rt.alloc();
    let root = Arc::new(alloc, Mark { number: 1 })?;
    let absent = Arc::new(alloc, Mark { number: 0 })?;
    let mut heap = PlainHeap::open(alloc, 2, root, absent)?;
    heap.begin();
    heap.stage(1, Arc::new(alloc, Mark { number: 7 })?)?;
    heap.stage(1, Arc::new(alloc, Mark { number: 8 })?)?;
    assert_eq!(rt; heap.commit(), 1);
    assert_eq!(rt; heap.entity_version(0), 0);
    let mut reader = heap.reader();
    assert_eq!(rt; reader.version(), 1);
    assert_eq!(rt; reader.read(1)?.number, 8);
    Ok(())
}
