//! Programs: the path and the source of each module in rising order of the paths, with a TAB between any two and `⏎` for each end of
//! a line. The merged signature of each module is printed, after merging the program's components in waves. The answers that must
//! be printed are those of the language's description.
use crate::merging::{Signatures, merged};
use crate::printing::print_signature;
use crate::reading::{edges_of, members_of, modules_of};
use flow_values::NoMemory;
use std::alloc::Global;
use std::io;

// The merged signatures of a line's modules.
fn signatures_of(alloc: Global, line: &str) -> Result<Signatures, NoMemory> {
    let members = members_of(alloc, &modules_of(alloc, line)?)?;
    let edges = edges_of(alloc, members.as_slice())?;
    merged(alloc, members.as_slice(), edges.as_slice())
}

/// Prints the merged signatures of a line's modules, and an empty line.
pub(crate) fn report(rt: &impl Print, alloc: Global, line: &str) -> io::Result<()> {
    let signatures = match signatures_of(alloc, line) {
        Ok(signatures) => signatures,
        Err(NoMemory) => return println!(rt; "no memory"),
    };
    for (path, signature) in signatures.iter() {
        print_signature(rt, alloc, path, signature.get())?;
    }
    println!(rt;)
}
