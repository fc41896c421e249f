//! Modules, with `⏎` for each end of a line, and what each says by itself: its exports, its aliases, the imports that these lead to,
//! and the faults of its signature, a row each with a TAB between any two words; or how many of each there are. The answers that
//! must be printed are those of the language's description.
use crate::printing::chars;
use check_values::{Fault, LocalSig, Origin};
use flow_values::{NoMemory, Text};
use source_front::Parse;
use source_reading::front;
use std::alloc::Global;
use std::io;
use type_terms::show;
use type_values::FlowType;

fn kind(is_type: bool) -> &'static str {
    if is_type { "type" } else { "value" }
}

fn print_type(
    rt: &impl Print,
    alloc: Global,
    word: &str,
    name: &Text,
    t: &FlowType,
) -> io::Result<()> {
    match show(alloc, t) {
        Ok(text) => println!(rt; "{word}\t{}\t{}", chars(name), chars(&text)),
        Err(NoMemory) => println!(rt; "no memory"),
    }
}

fn print_export(rt: &impl Print, alloc: Global, name: &Text, origin: &Origin) -> io::Result<()> {
    match origin {
        Origin::Value(t) => print_type(rt, alloc, "value", name, t),
        Origin::Alias(alias) => println!(rt; "type\t{}\t{}", chars(name), chars(alias)),
        Origin::Import {
            spec,
            name: there,
            is_type,
        } => println!(rt;
            "import\t{}\t{}\t{}\t{}",
            chars(name),
            chars(spec),
            chars(there),
            kind(*is_type)
        ),
        Origin::Unknown => println!(rt; "unknown\t{}", chars(name)),
    }
}

fn print_signature(rt: &impl Print, alloc: Global, signature: &LocalSig) -> io::Result<()> {
    for (name, origin) in signature.exports.as_slice() {
        print_export(rt, alloc, name, origin)?;
    }
    for (name, t) in signature.aliases.as_slice() {
        print_type(rt, alloc, "alias", name, t)?;
    }
    for row in signature.imports.as_slice() {
        println!(rt;
            "uses\t{}\t{}\t{}\t{}",
            chars(&row.local),
            chars(&row.spec),
            chars(&row.name),
            kind(row.is_type)
        )?;
    }
    Ok(())
}

fn print_faults(rt: &impl Print, faults: &[Fault]) -> io::Result<()> {
    for fault in faults {
        println!(rt;
            "fault\t{}..{}\t{}\t{}",
            fault.span.start,
            fault.span.end,
            fault.code.name(),
            chars(&fault.details)
        )?;
    }
    Ok(())
}

// What a line's module says by itself.
fn parse_in_line(alloc: Global, line: &str) -> Result<Parse, NoMemory> {
    front(alloc, line.replace(alloc, '⏎', "\n")?.as_bytes())
}

/// Prints what a line's module says by itself, and an empty line.
pub(crate) fn report(rt: &impl Print, alloc: Global, line: &str) -> io::Result<()> {
    match parse_in_line(alloc, line) {
        Ok(parse) => {
            print_signature(rt, alloc, parse.sig.get())?;
            print_faults(rt, parse.faults.as_slice())?;
            println!(rt;)
        }
        Err(NoMemory) => println!(rt; "no memory"),
    }
}

/// Prints how many exports, aliases, imports and faults a line's module has.
pub(crate) fn report_counts(rt: &impl Print, alloc: Global, line: &str) -> io::Result<()> {
    match parse_in_line(alloc, line) {
        Ok(parse) => println!(rt;
            "{} exports, {} aliases, {} imports, {} faults",
            parse.sig.get().exports.len(),
            parse.sig.get().aliases.len(),
            parse.sig.get().imports.len(),
            parse.faults.len()
        ),
        Err(NoMemory) => println!(rt; "no memory"),
    }
}
