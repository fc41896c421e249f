//! Reads cases of types by sections, and prints the answers. A line `# WORD` begins a section, and is printed as it is; each other
//! line is answered as the module of its section says. What must be printed comes from the language's description.
#![tactic(auto)]

mod example;
mod facts;
mod members;
mod narrowed;
mod reading;
mod subtypes;
mod texts;

use std::alloc::Global;
use std::io;

/// What the lines of a section are.
#[derive(Clone, Copy)]
enum Section {
    Types,
    Members,
    Subtyping,
    Narrowing,
    Facts,
}

// The section that a line begins.
fn section_of(line: &str) -> Option<Section> {
    match line {
        "# types" => Some(Section::Types),
        "# members" => Some(Section::Members),
        "# subtyping" => Some(Section::Subtyping),
        "# narrowing" => Some(Section::Narrowing),
        "# facts" => Some(Section::Facts),
        _ => None,
    }
}

// Prints what a line of a section answers.
fn report(rt: &impl Print, alloc: Global, section: Option<Section>, line: &str) -> io::Result<()> {
    match section {
        Some(Section::Types) => reading::report(rt, alloc, line),
        Some(Section::Members) => members::report(rt, alloc, line),
        Some(Section::Subtyping) => subtypes::report(rt, alloc, line),
        Some(Section::Narrowing) => narrowed::report(rt, alloc, line),
        Some(Section::Facts) => facts::report(rt, alloc, line),
        None => println!(rt; "in no section: {line}"),
    }
}

fn main(rt: HostRuntime) -> io::Result<()> {
    let mut section = None;
    for line in rt.lines(rt.alloc()) {
        let line = line?;
        if let Some(next) = section_of(line.as_str()) {
            section = Some(next);
            println!(rt; "{line}")?;
        } else {
            report(&rt, rt.alloc(), section, line.as_str())?;
        }
    }
    Ok(())
}
