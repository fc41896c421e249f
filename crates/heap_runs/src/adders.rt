//! Two bare words that threads add to.
use crate::readers::nanos_since;
use flow_values::NoMemory;
use std::alloc::Global;
use std::sync::atomic::{AtomicU64, Ordering};
use std::thread;
use std::thread::Threads;
use std::time::{Clock, Instant};

/// Words that stand beside one another, as those of a heap's arrivals and departures do.
#[derive(Drop)]
struct Words {
    arrivals: AtomicU64,
    departures: AtomicU64,
}

fn add_often(clock: &impl Clock, words: &Words, times: u32) -> u128 {
    let start = Instant::now(clock);
    for _ in 0..times {
        words.arrivals.fetch_add(1, Ordering::SeqCst);
        words.departures.fetch_add(1, Ordering::SeqCst);
    }
    nanos_since(clock, start)
}

/// The nanoseconds in which the first of so many threads adds to each of two words so many times, beside the others.
pub fn adds<R: Threads + Clock + Sync>(
    rt: &R,
    alloc: Global,
    threads: u32,
    times: u32,
) -> Result<u128, NoMemory> {
    let words = Words {
        arrivals: AtomicU64::new(0),
        departures: AtomicU64::new(0),
    };
    let took = thread::map_indices(
        rt,
        alloc,
        threads as usize,
        &|_| add_often(rt, &words, times),
    )?;
    Ok(took.first().copied().unwrap_or(0))
}
