//! The running heap, its calls one after the other.
ghost use Rattle.std.specs.Prelude.{◌≡◌, ◌+◌, ◌≤◌, ◌^◌, IfSome};
ghost use Rattle.entity_heap.specs.Lanes.{IsLaneOf, AreNew, visit_in};

use super::Mark;
use entity_heap::{Heap, Lane, Pinned, open};
use flow_values::List;
use heap_core::transactions::commit_state;
use heap_core::{HeapReader, HeapWriter};
use std::sync::Arc;
use std::test::Fail;

/// Takes the last lane of a heap of one module.
pub(super) fn take_lane(heap: &Heap<Mark>, lanes: &mut List<Lane<Mark>>) -> Option<Lane<Mark>>
    requires { AreNew heap.now 5 lanes.old }
    ensures lane { IfSome result (λ l. IsLaneOf heap.now l × ((visit_in l).pins ≡ 0)) }
    ensures others { AreNew heap.now 5 lanes.new }
{
    lanes.pop()
}

#[test]
fn a_transaction_waits_for_the_version_before(rt: HostRuntime) -> Result<(), Fail> {
    let alloc = rt.alloc();
    let root = Arc::new(alloc, Mark { number: 1 })?;
    let absent = Arc::new(alloc, Mark { number: 0 })?;
    let Ok((heap, mut writer, mut lanes)) = open(alloc, 1, 1, root, absent) else {
        panic!(rt; "no memory")
    };
    let Some(mut lane) = take_lane(&heap, &mut lanes) else {
        panic!(rt; "no lane")
    };
    assert!(rt; writer.try_begin(&heap).is_ok());
    assert!(rt; writer.commit(&heap) == 1);
    let snapshot = lane.pin(&heap);
    assert!(rt; writer.try_begin(&heap).is_ok());
    assert!(rt; writer.commit(&heap) == 2);
    let refused = writer.try_begin(&heap);
    assert!(rt;
        matches!(
            refused,
            Err(Pinned {
                version: 1,
                arrived: 1,
                left: 0
            })
        )
    );
    snapshot.done();
    assert!(rt; writer.try_begin(&heap).is_ok());
    assert!(rt; lane.seen() == 1);
    assert!(rt; heap.version(&mut lane) == 2);
    Ok(())
}

#[test]
fn pins_at_the_current_version_hold_up_nothing(rt: HostRuntime) -> Result<(), Fail> {
    let alloc = rt.alloc();
    let root = Arc::new(alloc, Mark { number: 1 })?;
    let absent = Arc::new(alloc, Mark { number: 0 })?;
    let fresh = Arc::new(alloc, Mark { number: 7 })?;
    let other = Arc::new(alloc, Mark { number: 9 })?;
    let again = Arc::new(alloc, Mark { number: 11 })?;
    let Ok((heap, mut writer, mut lanes)) = open(alloc, 1, 2, root, absent) else {
        panic!(rt; "no memory")
    };
    let Some(mut second) = take_lane(&heap, &mut lanes) else {
        panic!(rt; "no lane")
    };
    let Some(mut first) = take_lane(&heap, &mut lanes) else {
        panic!(rt; "one lane")
    };
    let mut a = first.pin(&heap);
    assert!(rt; a.version() == 0);
    assert!(rt; writer.try_begin(&heap).is_ok());
    assert!(rt; writer.stage(&heap, 3, fresh).is_ok());
    assert!(rt; writer.commit(&heap) == 1);
    let mut b = second.pin(&heap);
    assert!(rt; b.version() == 1);
    let refused = writer.try_begin(&heap);
    assert!(rt;
        matches!(
            refused,
            Err(Pinned {
                version: 0,
                arrived: 1,
                left: 0
            })
        )
    );
    let Ok(old) = a.read(3) else {
        panic!(rt; "no memory")
    };
    assert!(rt; old.number == 0);
    let Ok(new) = b.read(3) else {
        panic!(rt; "no memory")
    };
    assert!(rt; new.number == 7);
    a.done();
    assert!(rt; writer.try_begin(&heap).is_ok());
    assert!(rt; writer.stage(&heap, 3, other).is_ok());
    assert!(rt; writer.stage(&heap, 3, again).is_ok());
    assert!(rt; writer.entity_version(3) == 2);
    writer.rollback(&heap);
    let Ok(still) = b.read(3) else {
        panic!(rt; "no memory")
    };
    assert!(rt; still.number == 7);
    assert!(rt; writer.entity_version(3) == 1);
    b.done();
    Ok(())
}

#[test]
fn a_snapshot_keeps_its_version(rt: HostRuntime) -> Result<(), Fail> {
    let alloc = rt.alloc();
    let root = Arc::new(alloc, Mark { number: 1 })?;
    let absent = Arc::new(alloc, Mark { number: 0 })?;
    let fresh = Arc::new(alloc, Mark { number: 7 })?;
    let Ok((heap, mut writer, mut lanes)) = open(alloc, 1, 1, root, absent) else {
        panic!(rt; "no memory")
    };
    assert!(rt; lanes.len() == 1);
    let Some(mut lane) = take_lane(&heap, &mut lanes) else {
        panic!(rt; "no lane")
    };
    writer.meet(&mut lane, &heap);
    assert!(rt; lane.seen() == 0 && lane.pins() == 0);
    let mut snapshot = lane.pin(&heap);
    assert!(rt; writer.try_begin(&heap).is_ok());
    assert!(rt; writer.stage(&heap, 1, fresh).is_ok());
    assert!(rt; writer.commit(&heap) == 1);
    let Ok(latest) = writer.latest(1) else {
        panic!(rt; "no memory")
    };
    assert!(rt; latest.number == 7);
    let Ok(old_root) = snapshot.root() else {
        panic!(rt; "no memory")
    };
    assert!(rt; old_root.number == 1);
    let Ok(old) = snapshot.read(1) else {
        panic!(rt; "no memory")
    };
    assert!(rt; old.number == 0);
    snapshot.done();
    let mut next = lane.pin(&heap);
    let Ok(new) = next.read(1) else {
        panic!(rt; "no memory")
    };
    assert!(rt; new.number == 7);
    next.done();
    assert!(rt; lane.seen() == 1 && lane.pins() == 2);
    Ok(())
}

#[test]
fn a_running_heap_is_a_writer(rt: HostRuntime) -> Result<(), Fail> {
    let alloc = rt.alloc();
    let root = Arc::new(alloc, Mark { number: 1 })?;
    let absent = Arc::new(alloc, Mark { number: 0 })?;
    let fresh = Arc::new(alloc, Mark { number: 7 })?;
    let state = [
        Arc::new(alloc, Mark { number: 4 })?,
        Arc::new(alloc, Mark { number: 5 })?,
        Arc::new(alloc, Mark { number: 6 })?,
        Arc::new(alloc, Mark { number: 7 })?,
        Arc::new(alloc, Mark { number: 8 })?,
    ];
    let (heap, mut writer, _lanes) = open(alloc, 1, 1, root, absent)?;
    let mut writing = writer.on(&rt, &heap);
    writing.begin();
    writing.stage(1, fresh)?;
    assert_eq!(rt; writing.latest(1)?.number, 7);
    writing.rollback();
    assert_eq!(rt; writing.latest(1)?.number, 0);
    assert!(rt; !writing.is_open());
    assert_eq!(rt; commit_state(&mut writing, &state)?, 1);
    assert_eq!(rt; writing.version(), 1);
    assert_eq!(rt; writing.entity_version(4), 1);
    assert_eq!(rt; writer.latest(4)?.number, 8);
    Ok(())
}
