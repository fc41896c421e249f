//! The types of one place, step by step: narrowed, assigned behind a mark, back at the mark, and joined with the facts before that.
use crate::example;
use flow_values::NoMemory;
use std::alloc::Global;
use std::io;

/// Prints the types of the example that a line names; of another line it says so.
pub(crate) fn report(rt: &impl Print, alloc: Global, line: &str) -> io::Result<()> {
    if line != "one place, step by step" {
        return println!(rt; "no example: {line}");
    }
    match example::types(alloc) {
        Ok(types) => {
            for ty in &types {
                println!(rt; "{}", str::from_utf8(ty.as_bytes()).unwrap_or(""))?;
            }
            Ok(())
        }
        Err(NoMemory) => println!(rt; "no memory"),
    }
}
