//! The runs, with their numbers cut to what a heap takes.
ghost use Rattle.std.specs.Prelude.{◌≡◌, ◌+◌, ◌<◌, ◌≤◌, ◌^◌, false};
ghost use Rattle.entity_heap.specs.Writers.{IsWriterOf, meaning_in};

use crate::adders::adds;
use crate::commits::{commit_often, stage_often};
use crate::opening::{Mark, open_marks};
use crate::orders::Order;
use crate::readers::{Reader, nanos_since, readers_of, run_all};
use entity_heap::{Heap, Writer};
use flow_values::NoMemory;
use std::alloc::Global;
use std::sync::{Arc, Wait};
use std::thread::{Threads, join_mut};
use std::time::{Clock, Instant};

/// The most snapshots of a lane, and the most commits.
const MOST: u32 = 100_000_000;

/// Does what is asked, and answers what it found.
pub fn answer<R: Threads + Wait + Clock + Sync>(
    rt: &R,
    alloc: Global,
    order: Order,
) -> Result<String, NoMemory> {
    match order {
        Order::Beside {
            lanes,
            snapshots,
            commits,
        } => beside(
            rt,
            alloc,
            lanes.clamp(1, 16),
            snapshots.min(MOST),
            commits.min(MOST),
        ),
        Order::Pins { lanes, times } => pins(rt, alloc, lanes.clamp(1, 16), times.min(MOST)),
        Order::Adds { threads, times } => {
            let took = adds(rt, alloc, threads.clamp(1, 16), times)?;
            Ok(format!(in alloc; "{took}")?)
        }
        Order::Commits {
            lanes,
            modules,
            staged,
            times,
        } => commits(
            rt,
            alloc,
            lanes.clamp(1, 16),
            modules.clamp(1, 4096),
            staged.min(4096),
            times.min(MOST),
        ),
        Order::Unknown => Ok(String::from_str(alloc, "unknown")?),
    }
}

/// The writer commits so often while the lanes read.
fn run_beside<R: Threads + Wait + Clock + Sync>(
    rt: &R,
    heap: &Heap<Mark>,
    writer: &mut Writer<Mark>,
    commits: u32,
    readers: &mut [Reader<'_>],
)
    requires { IsWriterOf heap.now writer.old × ((meaning_in writer.old).is_open ≡ false) × ((meaning_in writer.old).version + commits < 2 ^ 31) }
{
    join_mut(
        rt,
        &mut || commit_often(rt, heap, writer, commits),
        &mut || run_all(rt, readers),
    );
}

fn beside<R: Threads + Wait + Clock + Sync>(
    rt: &R,
    alloc: Global,
    lanes: u32,
    snapshots: u32,
    commits: u32,
) -> Result<String, NoMemory>
    requires { (1 ≤ lanes) × (lanes ≤ 16) × (snapshots ≤ 100000000) × (commits ≤ 100000000) }
{
    let (heap, mut writer, lanes) = open_marks(alloc, 1, lanes)?;
    let mut readers = readers_of(alloc, &heap, lanes, snapshots)?;
    run_beside(rt, &heap, &mut writer, commits, readers.as_mut_slice());
    let rises = readers.iter().all(|reader| reader.rises);
    let version = writer.version();
    let count = readers.len();
    Ok(format!(in alloc; "{count} lanes, versions never fell: {rises}, last version {version}")?)
}

fn pins<R: Threads + Clock + Sync>(
    rt: &R,
    alloc: Global,
    lanes: u32,
    times: u32,
) -> Result<String, NoMemory>
    requires { (1 ≤ lanes) × (lanes ≤ 16) × (times ≤ 100000000) }
{
    let (heap, _writer, lanes) = open_marks(alloc, 1, lanes)?;
    let mut readers = readers_of(alloc, &heap, lanes, times)?;
    run_all(rt, readers.as_mut_slice());
    let took = readers.first().map_or(0, |reader| reader.took);
    Ok(format!(in alloc; "{took}")?)
}

fn commits<R: Wait + Clock>(
    rt: &R,
    alloc: Global,
    lanes: u32,
    modules: u32,
    staged: u32,
    times: u32,
) -> Result<String, NoMemory>
    requires { (1 ≤ lanes) × (lanes ≤ 16) × (1 ≤ modules) × (modules ≤ 4096) × (staged ≤ 4096) × (times ≤ 100000000) }
{
    let (heap, mut writer, _lanes) = open_marks(alloc, modules, lanes)?;
    let payload = Arc::new(alloc, Mark { number: 2 })?;
    let start = Instant::now(rt);
    stage_often(
        rt,
        &heap,
        &mut writer,
        &payload,
        staged.min(4 * modules),
        times,
    );
    let took = nanos_since(rt, start);
    Ok(format!(in alloc; "{took}")?)
}
