//! Reads lines of cases and writes them again with what the checker answers: `expr` lines, with a type and faults behind an
//! expression and the type that it is read against, in the context of the last `context` line; lines of a type and a source, in
//! which `¦` stands at the place whose type is asked; and `errors` lines, with the number of a source's errors. What must be
//! printed was made from the language's description by hand and by a second implementation.
#![tactic(auto)]

mod lines;
mod module;

use flow_values::NoMemory;
use lines::answer;
use std::io;

fn main(rt: HostRuntime) -> io::Result<()> {
    let mut context = String::new(rt.alloc());
    for line in rt.lines(rt.alloc()) {
        let line = line?;
        if let Some(rest) = line.strip_prefix("context\t") {
            context = String::from_str(rt.alloc(), rest)?;
        }
        match answer(rt.alloc(), context.as_str(), line.as_str()) {
            Ok(text) => println!(rt; "{text}")?,
            Err(NoMemory) => println!(rt; "no memory: {line}")?,
        }
    }
    Ok(())
}
