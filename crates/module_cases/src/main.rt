//! Reads cases of modules and programs by sections, and prints the answers. A line `# WORD` begins a section, and is printed as it
//! is; each other line is answered as the module of its section says.
#![tactic(auto)]

mod graphs;
mod merging;
mod printing;
mod programs;
mod reading;
mod resolution;
mod roots;
mod signatures;

use std::alloc::Global;
use std::io;

/// What the lines of a section are.
#[derive(Clone, Copy)]
enum Section {
    Signatures,
    Counts,
    Merging,
    Resolution,
    Graphs,
}

// The section that a line begins.
fn section_of(line: &str) -> Option<Section> {
    match line {
        "# signatures" => Some(Section::Signatures),
        "# counts" => Some(Section::Counts),
        "# merging" => Some(Section::Merging),
        "# resolution" => Some(Section::Resolution),
        "# graphs" => Some(Section::Graphs),
        _ => None,
    }
}

// Prints what a line of a section answers.
fn report(rt: &impl Print, alloc: Global, section: Option<Section>, line: &str) -> io::Result<()> {
    match section {
        Some(Section::Signatures) => signatures::report(rt, alloc, line),
        Some(Section::Counts) => signatures::report_counts(rt, alloc, line),
        Some(Section::Merging) => programs::report(rt, alloc, line),
        Some(Section::Resolution) => resolution::report(rt, alloc, line),
        Some(Section::Graphs) => graphs::report(rt, alloc, line),
        None => println!(rt; "in no section: {line}"),
    }
}

fn main(rt: HostRuntime) -> io::Result<()> {
    let mut section = None;
    for line in rt.lines(rt.alloc()) {
        let line = line?;
        if let Some(next) = section_of(line.as_str()) {
            section = Some(next);
            println!(rt; "{line}")?;
        } else {
            report(&rt, rt.alloc(), section, line.as_str())?;
        }
    }
    Ok(())
}
