//! Lanes that pin and end snapshots.
ghost use Rattle.std.specs.Prelude.{◌≡◌, ◌+◌, ◌≤◌, ◌^◌};
ghost use Rattle.entity_heap.specs.Lanes.{IsLaneOf, visit_in};
ghost use Rattle.heap_runs.specs.Fresh.{AreFresh};

use crate::opening::Mark;
use entity_heap::{Heap, Lane};
use flow_values::{List, NoMemory};
use heap_core::HeapReader;
use std::alloc::Global;
use std::thread::Threads;
use std::time::{Clock, Instant};
use std::{io, thread};

/// A lane that is to pin and end so many snapshots.
#[derive(Drop)]
pub struct Reader<'a> {
    pub heap: &'a Heap<Mark>,
    pub lane: Lane<Mark>,
    pub times: u32,
    /// Whether no version was below the one before it.
    pub rises: bool,
    /// The nanoseconds that all of them took.
    pub took: u128,
    ghost of: { IsLaneOf heap.now lane },
    ghost room: { (visit_in lane).pins + times ≤ 2 ^ 27 },
}

impl Reader<'_> {
    fn run(&mut self, clock: &impl Clock) {
        let start = Instant::now(clock);
        let rises = pin_often(self.heap, &mut self.lane, self.times);
        self.times = 0;
        self.rises = rises;
        self.took = nanos_since(clock, start);
    }
}

/// A reader of each lane, which is to pin so many snapshots.
pub fn readers_of<'a>(
    alloc: Global,
    heap: &'a Heap<Mark>,
    mut lanes: List<Lane<Mark>>,
    times: u32,
) -> Result<Vec<Reader<'a>>, NoMemory>
    requires { AreFresh heap.now lanes × (times ≤ 2 ^ 27) }
{
    let mut readers = Vec::with_capacity(alloc, lanes.len())?;
    for _i in 0..lanes.len() {
        let Some(lane) = lanes.pop() else {
            break;
        };
        readers.push(Reader {
            heap,
            lane,
            times,
            rises: true,
            took: 0,
        })?;
    }
    Ok(readers)
}

/// The nanoseconds since then, and 0 where the clock fails.
pub fn nanos_since(clock: &impl Clock, start: io::Result<Instant>) -> u128 {
    let Ok(start) = start else {
        return 0;
    };
    match start.elapsed(clock) {
        Ok(time) => time.as_nanos(),
        Err(_) => 0,
    }
}

/// Pins and ends so many snapshots, and answers whether no version was below the one before it.
fn pin_often(heap: &Heap<Mark>, lane: &mut Lane<Mark>, times: u32) -> bool
    requires { IsLaneOf heap.now lane.old × ((visit_in lane.old).pins + times ≤ 2 ^ 27) }
    ensures { IsLaneOf heap.now lane.new × ((visit_in lane.new).pins ≡ (visit_in lane.old).pins + times) }
{
    let mut rises = true;
    let mut last = lane.seen();
    for _i in 0..times {
        let snapshot = lane.pin(heap);
        let version = snapshot.version();
        snapshot.done();
        rises = rises && last <= version;
        last = version;
    }
    rises
}

/// All of them run beside one another, each on a thread of its own.
pub fn run_all<R: Threads + Clock + Sync>(rt: &R, readers: &mut [Reader<'_>]) {
    let count = readers.len();
    if count > 0 {
        thread::for_each_mut(rt, readers, count, &|_, reader| reader.run(rt));
    }
}
