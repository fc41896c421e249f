//! The pure heap.
ghost use Rattle.std.specs.Prelude.{◌≡◌, length, IfOk};
ghost use Rattle.heap_world.specs.World.{HasLengths};
ghost use Rattle.heap_world.specs.Seen.{world_of};

use super::Mark;
use flow_values::{List, NoMemory};
use heap_world::{Event, World};
use std::alloc::Global;
use std::sync::Arc;
use std::test::Fail;

/// Two entities and a lane, at version 0.
fn first_world(alloc: Global, mark: &Arc<Mark>) -> Result<World<Mark>, NoMemory>
    ensures lengths { IfOk result (λ w. HasLengths (world_of w)) }
    ensures first { IfOk result (λ w. length w.history ≡ 1) }
{
    let mut state = List::new(alloc);
    state.push(Arc::try_clone(mark)?)?;
    state.push(Arc::try_clone(mark)?)?;
    let mut history = List::new(alloc);
    history.push(state)?;
    let mut pending = List::new(alloc);
    pending.push(None)?;
    pending.push(None)?;
    let mut filled = List::new(alloc);
    filled.push(List::from_slice(alloc, &[false, false])?)?;
    Ok(World {
        entities: 2,
        lanes: 1,
        history,
        versions: List::from_slice(alloc, &[0, 0])?,
        is_open: false,
        drained: true,
        pending,
        filled,
        published: List::from_slice(alloc, &[false, false])?,
        pins: List::from_slice(alloc, &[None])?,
    })
}

#[test]
fn a_commit_without_a_begin_is_refused(rt: HostRuntime) -> Result<(), Fail> {
    let alloc = rt.alloc();
    let mark = Arc::new(alloc, Mark { number: 1 })?;
    let mut world = first_world(alloc, &mark)?;
    assert!(rt; !world.apply(alloc, &Event::Commit)?);
    assert_eq!(rt; world.history.len(), 1);
    assert_eq!(rt; world.versions.as_slice(), [0, 0].as_slice());
    assert!(rt; world.drained && !world.is_open);
    Ok(())
}

#[test]
fn each_event_is_taken(rt: HostRuntime) -> Result<(), Fail> {
    let alloc = rt.alloc();
    let mark = Arc::new(alloc, Mark { number: 1 })?;
    let mut world = first_world(alloc, &mark)?;
    let payload = Arc::new(alloc, Mark { number: 7 })?;
    let events = [
        Event::Pin { lane: 0 },
        Event::Begin,
        Event::Stage {
            entity: 1,
            payload: Arc::try_clone(&payload)?,
        },
        Event::Fill { lane: 0, entity: 1 },
        Event::Publish { entity: 1 },
        Event::RollBack { entity: 1 },
        Event::End,
        Event::Begin,
        Event::Stage { entity: 1, payload },
        Event::Fill { lane: 0, entity: 1 },
        Event::Publish { entity: 1 },
        Event::Commit,
    ];
    for event in &events {
        assert!(rt; world.history.len() == 1);
        assert!(rt; world.apply(alloc, event)?);
    }
    assert!(rt; world.history.len() == 2);
    assert!(rt; !world.apply(alloc, &Event::Drained)?);
    assert!(rt; world.apply(alloc, &Event::Read { lane: 0, entity: 1 })?);
    assert!(rt; world.apply(alloc, &Event::Unpin { lane: 0 })?);
    assert!(rt; world.apply(alloc, &Event::Drained)?);
    assert_eq!(rt; world.versions.as_slice(), [0, 1].as_slice());
    Ok(())
}
