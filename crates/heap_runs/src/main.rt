//! Runs the heap beside itself, by lines of a word and numbers.
//!
//! - `beside LANES SNAPSHOTS COMMITS`: lanes that pin and end so many snapshots each beside a writer that commits. It
//!   answers whether the versions of each lane never fell, and the last version.
//! - `pins LANES TIMES`: the nanoseconds in which the first lane pins and ends so many snapshots, beside others that do.
//! - `adds THREADS TIMES`: the same of two bare `fetch_add`s in place of a snapshot.
//! - `commits LANES MODULES STAGED TIMES`: the nanoseconds of so many transactions, each of so many staged entities.
#![tactic(auto)]

mod adders;
mod commits;
mod opening;
mod orders;
mod readers;
mod runs;

use flow_values::NoMemory;
use orders::read_order;
use runs::answer;
use std::io;

fn main(rt: HostRuntime) -> io::Result<()> {
    for line in rt.lines(rt.alloc()) {
        let line = line?;
        match answer(&rt, rt.alloc(), read_order(line.as_str())) {
            Ok(text) => println!(rt; "{line}: {text}")?,
            Err(NoMemory) => println!(rt; "{line}: no memory")?,
        }
    }
    Ok(())
}
