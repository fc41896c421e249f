//! Reads cases of tokens and of modules by sections, and prints the answers. A line `# WORD` begins a section, and is printed as it
//! is; each other line is answered as the module of its section says. With a word on its command line it measures how long it takes
//! to read its input as one module instead: `bench/parse.sh` runs it so.
#![tactic(auto)]

mod marks;
mod modules;
mod rounds;
mod tokens;
mod trees;

use std::alloc::Global;
use std::{env, io};

/// What the lines of a section are.
#[derive(Clone, Copy)]
enum Section {
    Tokens,
    Trees,
    Modules,
}

// The section that a line begins.
fn section_of(line: &str) -> Option<Section> {
    match line {
        "# tokens" => Some(Section::Tokens),
        "# trees" => Some(Section::Trees),
        "# modules" => Some(Section::Modules),
        _ => None,
    }
}

// Prints what a line of a section answers.
fn report(rt: &impl Print, alloc: Global, section: Option<Section>, line: &str) -> io::Result<()> {
    match section {
        Some(Section::Tokens) => tokens::report(rt, alloc, line),
        Some(Section::Trees) => trees::report(rt, alloc, line),
        Some(Section::Modules) => modules::report(rt, alloc, line),
        None => println!(rt; "in no section: {line}"),
    }
}

// Whether there is a word on the command line.
fn has_word(rt: &HostRuntime) -> bool {
    match env::args(rt) {
        Ok(mut words) => words.nth(1).is_some(),
        Err(_) => false,
    }
}

fn main(rt: HostRuntime) -> io::Result<()> {
    if has_word(&rt) {
        return rounds::report(&rt);
    }
    let mut section = None;
    for line in rt.lines(rt.alloc()) {
        let line = line?;
        if let Some(next) = section_of(line.as_str()) {
            section = Some(next);
            println!(rt; "{line}")?;
        } else {
            report(&rt, rt.alloc(), section, line.as_str())?;
        }
    }
    Ok(())
}
