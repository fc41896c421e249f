//! Questions of subtyping: the first type, the second one, and then aliases of one module as `NAME = TYPE`, with a TAB between any
//! two. The answer stands before the line. The examples were made from the rules by hand and by a second implementation of them.
use crate::texts::type_in_text;
use alias_table::AliasTable;
use flow_values::{NoMemory, Path, Text};
use std::alloc::Global;
use std::{fmt, io};
use subtype_rules::is_subtype;
use type_values::FlowType;

/// What a line answers.
#[derive(Clone, Copy)]
enum Outcome {
    Told(bool),
    NotRead,
    NoMemory,
}

impl fmt::Display for Outcome {
    fn fmt<W: fmt::Write>(&self, f: &mut fmt::Formatter<W>) -> fmt::Result {
        match self {
            Outcome::Told(yes) => write!(f, "{yes}"),
            Outcome::NotRead => write!(f, "not read"),
            Outcome::NoMemory => write!(f, "no memory"),
        }
    }
}

impl From<NoMemory> for Outcome {
    fn from(_: NoMemory) -> Outcome {
        Outcome::NoMemory
    }
}

fn type_of(alloc: Global, home: &Path, source: &str) -> Result<FlowType, Outcome> {
    match type_in_text(alloc, home, source)? {
        Some(ty) => Ok(ty),
        None => Err(Outcome::NotRead),
    }
}

fn answer(alloc: Global, line: &str) -> Result<bool, Outcome> {
    let Ok(home) = Path::read(alloc, b"a.js") else {
        return Err(Outcome::NoMemory);
    };
    let mut types = Vec::new(alloc);
    let mut rows = Vec::new(alloc);
    for field in line.split('\t') {
        match field.split_once(" = ") {
            Some((name, source)) => {
                let name = Text::from_bytes(alloc, name.as_bytes())?;
                let row = (home.share()?, name, type_of(alloc, &home, source)?);
                rows.push(row).map_err(|_| Outcome::NoMemory)?;
            }
            None => {
                let ty = type_of(alloc, &home, field)?;
                types.push(ty).map_err(|_| Outcome::NoMemory)?;
            }
        }
    }
    let table = AliasTable::build(alloc, rows.as_slice())?;
    match types.as_slice() {
        [a, b] => Ok(is_subtype(alloc, &table, a, b)?),
        _ => Err(Outcome::NotRead),
    }
}

/// Prints the answer to a line, a TAB and the line.
pub(crate) fn report(rt: &impl Print, alloc: Global, line: &str) -> io::Result<()> {
    let outcome = match answer(alloc, line) {
        Ok(yes) => Outcome::Told(yes),
        Err(outcome) => outcome,
    };
    println!(rt; "{outcome}\t{line}")
}
