//! Merged signatures as they are printed.
use check_values::{Export, Sig};
use flow_values::{NoMemory, Path, Text};
use std::alloc::Global;
use std::io;
use type_terms::show;
use type_values::FlowType;

/// The characters of a text.
pub(crate) fn chars(text: &Text) -> &str {
    str::from_utf8(text.as_bytes()).unwrap_or("no text")
}

fn print_type(
    rt: &impl Print,
    alloc: Global,
    front: &str,
    name: &Text,
    between: &str,
    t: &FlowType,
) -> io::Result<()> {
    match show(alloc, t) {
        Ok(text) => println!(rt; "  {front} {}{between}{}", chars(name), chars(&text)),
        Err(NoMemory) => println!(rt; "no memory"),
    }
}

fn print_export(rt: &impl Print, alloc: Global, name: &Text, export: &Export) -> io::Result<()> {
    match export {
        Export::Value(t) => print_type(rt, alloc, "value", name, ": ", t),
        Export::Alias {
            module,
            name: alias,
        } => {
            println!(rt;
                "  type {} is {}#{}",
                chars(name),
                module.as_str(),
                chars(alias)
            )
        }
        Export::Unknown => println!(rt; "  unknown {}", chars(name)),
        Export::Cyclic => println!(rt; "  cyclic {}", chars(name)),
    }
}

/// Prints the merged signature of a module.
pub(crate) fn print_signature(
    rt: &impl Print,
    alloc: Global,
    path: &Path,
    signature: &Sig,
) -> io::Result<()> {
    println!(rt;
        "signature {}: {} exports",
        path.as_str(),
        signature.exports.len()
    )?;
    for (name, export) in signature.exports.as_slice() {
        print_export(rt, alloc, name, export)?;
    }
    for (name, t) in signature.aliases.as_slice() {
        print_type(rt, alloc, "alias", name, " = ", t)?;
    }
    Ok(())
}
