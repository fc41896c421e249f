//! Types with their members. The texts that must be printed are those of the language's description.
use crate::texts::type_in_text;
use alias_members::members;
use alias_table::AliasTable;
use flow_values::{NoMemory, Path, Text};
use std::alloc::Global;
use std::io;
use type_terms::show;
use type_values::FlowType;

// The aliases that the cases name.
const ALIASES: [(&str, &str); 8] = [
    ("N", "number"),
    ("M", "null | void | string"),
    ("L", "{+next: null | void | L}"),
    ("P", "Q"),
    ("Q", "null | P"),
    ("R", "P"),
    ("E", "empty"),
    ("U", "1 | M"),
];

fn type_of(alloc: Global, home: &Path, text: &str) -> Result<FlowType, NoMemory> {
    type_in_text(alloc, home, text)?.ok_or(NoMemory)
}

fn table(alloc: Global, home: &Path) -> Result<AliasTable, NoMemory> {
    let mut rows = Vec::new(alloc);
    for (name, text) in ALIASES.iter() {
        let name = Text::from_bytes(alloc, name.as_bytes())?;
        rows.push((home.share()?, name, type_of(alloc, home, text)?))?;
    }
    AliasTable::build(alloc, rows.as_slice())
}

// The text of a type, and the texts of its members.
fn describe(alloc: Global, table: &AliasTable, ty: &FlowType) -> Result<Vec<u8>, NoMemory> {
    let mut text = Vec::new(alloc);
    text.extend_from_slice(show(alloc, ty)?.as_bytes())?;
    text.extend_from_slice(b" => ")?;
    let all = members(alloc, table, ty)?;
    for i in 0..all.len() {
        if i > 0 {
            text.extend_from_slice(b" ; ")?;
        }
        text.extend_from_slice(show(alloc, &all.as_slice()[i])?.as_bytes())?;
    }
    Ok(text)
}

fn answer(alloc: Global, line: &str) -> Result<Vec<u8>, NoMemory> {
    let home = Path::read(alloc, b"a.js").ok().ok_or(NoMemory)?;
    let table = table(alloc, &home)?;
    let ty = type_of(alloc, &home, line)?;
    describe(alloc, &table, &ty)
}

/// Prints the type of a line and its members.
pub(crate) fn report(rt: &impl Print, alloc: Global, line: &str) -> io::Result<()> {
    match answer(alloc, line) {
        Ok(text) => match str::from_utf8(text.as_slice()) {
            Ok(text) => println!(rt; "{text}"),
            Err(_) => println!(rt; "no text"),
        },
        Err(NoMemory) => println!(rt; "not read"),
    }
}
