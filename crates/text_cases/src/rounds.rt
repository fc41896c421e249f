//! How long reading a module takes.
use crate::modules;
use std::alloc::Global;
use std::io::{self, Read};
use std::time::Instant;

const ROUNDS: u32 = 10;

// Reads a source so many times over.
fn report_rounds(rt: &impl Print, alloc: Global, source: &[u8]) -> io::Result<()> {
    for _ in 0..ROUNDS {
        modules::report_source(rt, alloc, source, false)?;
    }
    Ok(())
}

/// Reads all of the input as one module, so many times over, and once more so many times, and prints how many microseconds the
/// latter took.
pub(crate) fn report(rt: &HostRuntime) -> io::Result<()> {
    let mut source = Vec::new(rt.alloc());
    rt.reader().read_to_end(&mut source)?;
    report_rounds(rt, rt.alloc(), source.as_slice())?;
    let start = Instant::now(rt)?;
    report_rounds(rt, rt.alloc(), source.as_slice())?;
    println!(rt; "{} us", start.elapsed(rt)?.as_micros())
}
