//! A type, a test and aliases, with a TAB between any two, and behind them the type narrowed by the test. A line that isn't read
//! so is printed alone. What must be printed was made from the table of narrowing by hand and by a second implementation.
use crate::texts::type_in_text;
use alias_table::AliasTable;
use flow_facts::{Lit, Test};
use flow_values::{Boxed, NoMemory, Path, Text};
use narrowing::narrow;
use std::alloc::Global;
use std::io;
use type_terms::show;
use type_values::FlowType;

// The literal that a type is.
fn literal(t: &FlowType) -> Result<Option<Lit>, NoMemory> {
    match t {
        FlowType::StrLit(text) => Ok(Some(Lit::Str(text.share()?))),
        FlowType::NumLit(spelling) => Ok(Some(Lit::Num(spelling.share()?))),
        FlowType::BoolLit(b) => Ok(Some(Lit::Bool(*b))),
        _ => Ok(None),
    }
}

// The string that a text spells.
fn string(alloc: Global, home: &Path, text: &str) -> Result<Option<Text>, NoMemory> {
    let Some(t) = type_in_text(alloc, home, text)? else {
        return Ok(None);
    };
    match &t {
        FlowType::StrLit(text) => Ok(Some(text.share()?)),
        _ => Ok(None),
    }
}

fn plain_test(text: &str) -> Option<Test> {
    match text {
        "truthy" => Some(Test::Truthy),
        "falsy" => Some(Test::Falsy),
        "is null" => Some(Test::IsNull),
        "not null" => Some(Test::NotNull),
        "is void" => Some(Test::IsVoid),
        "not void" => Some(Test::NotVoid),
        "nullish" => Some(Test::Nullish),
        "not nullish" => Some(Test::NotNullish),
        _ => None,
    }
}

fn literal_test(
    alloc: Global,
    home: &Path,
    text: &str,
    holds: bool,
) -> Result<Option<Test>, NoMemory> {
    let Some(t) = type_in_text(alloc, home, text)? else {
        return Ok(None);
    };
    let Some(lit) = literal(&t)? else {
        return Ok(None);
    };
    if holds {
        return Ok(Some(Test::IsLit(lit)));
    }
    Ok(Some(Test::NotLit(lit)))
}

fn kind_test(
    alloc: Global,
    home: &Path,
    text: &str,
    holds: bool,
) -> Result<Option<Test>, NoMemory> {
    let Some(kind) = string(alloc, home, text)? else {
        return Ok(None);
    };
    if holds {
        return Ok(Some(Test::Typeof(kind)));
    }
    Ok(Some(Test::NotTypeof(kind)))
}

// A test on the place itself.
fn own_test(alloc: Global, home: &Path, text: &str) -> Result<Option<Test>, NoMemory> {
    if let Some(text) = text.strip_prefix("is lit ") {
        return literal_test(alloc, home, text, true);
    }
    if let Some(text) = text.strip_prefix("not lit ") {
        return literal_test(alloc, home, text, false);
    }
    if let Some(text) = text.strip_prefix("typeof ") {
        return kind_test(alloc, home, text, true);
    }
    if let Some(text) = text.strip_prefix("not typeof ") {
        return kind_test(alloc, home, text, false);
    }
    Ok(plain_test(text))
}

// A test on the property that a text spells.
fn prop_test(alloc: Global, home: &Path, key: &str, inner: &str) -> Result<Option<Test>, NoMemory> {
    let Some(key) = string(alloc, home, key)? else {
        return Ok(None);
    };
    match own_test(alloc, home, inner)? {
        Some(test) => Ok(Some(Test::OnProp {
            key,
            test: Boxed::new(alloc, test)?,
        })),
        None => Ok(None),
    }
}

// A test on the place, or on one of its properties.
fn test(alloc: Global, home: &Path, text: &str) -> Result<Option<Test>, NoMemory> {
    let Some(rest) = text.strip_prefix("prop ") else {
        return own_test(alloc, home, text);
    };
    match rest.split_once(' ') {
        Some((key, inner)) => prop_test(alloc, home, key, inner),
        None => Ok(None),
    }
}

// The alias that a field `N = T` declares.
fn alias(
    alloc: Global,
    home: &Path,
    field: &str,
) -> Result<Option<(Path, Text, FlowType)>, NoMemory> {
    let Some((name, text)) = field.split_once(" = ") else {
        return Ok(None);
    };
    match type_in_text(alloc, home, text)? {
        Some(t) => Ok(Some((home.share()?, Text::from_bytes(alloc, name.as_bytes())?, t))),
        None => Ok(None),
    }
}

// The fields of a line.
fn fields_of(alloc: Global, line: &str) -> Result<Vec<&str>, NoMemory> {
    let mut fields = Vec::new(alloc);
    for field in line.split('\t') {
        fields.push(field)?;
    }
    Ok(fields)
}

// Adds the alias that a field declares, if it declares one.
fn add_alias(
    alloc: Global,
    home: &Path,
    field: &str,
    rows: &mut Vec<(Path, Text, FlowType)>,
) -> Result<(), NoMemory> {
    match alias(alloc, home, field)? {
        Some(row) => {
            rows.push(row)?;
            Ok(())
        }
        None => Ok(()),
    }
}

// The table of the aliases that stand from the third field on.
fn table_of(alloc: Global, home: &Path, fields: &[&str]) -> Result<AliasTable, NoMemory> {
    let mut rows = Vec::new(alloc);
    for i in 2..fields.len() {
        add_alias(alloc, home, fields[i], &mut rows)?;
    }
    AliasTable::build(alloc, rows.as_slice())
}

// A type narrowed by a test, as it is printed.
fn shown(alloc: Global, table: &AliasTable, t: &FlowType, test: &Test) -> Result<Text, NoMemory> {
    let narrowed = narrow(alloc, table, t, test)?;
    show(alloc, &narrowed)
}

// A type narrowed by the test in a text.
fn narrowed_type(
    alloc: Global,
    home: &Path,
    table: &AliasTable,
    t: &FlowType,
    text: &str,
) -> Result<Option<Text>, NoMemory> {
    match test(alloc, home, text)? {
        Some(test) => Ok(Some(shown(alloc, table, t, &test)?)),
        None => Ok(None),
    }
}

// The type in a text narrowed by the test in another one.
fn narrowed_texts(
    alloc: Global,
    home: &Path,
    table: &AliasTable,
    first: &str,
    second: &str,
) -> Result<Option<Text>, NoMemory> {
    match type_in_text(alloc, home, first)? {
        Some(t) => narrowed_type(alloc, home, table, &t, second),
        None => Ok(None),
    }
}

// The narrowed type of a line.
fn narrowed(alloc: Global, home: &Path, line: &str) -> Result<Option<Text>, NoMemory> {
    let fields = fields_of(alloc, line)?;
    let (Some(first), Some(second)) = (fields.get(0), fields.get(1)) else {
        return Ok(None);
    };
    let table = table_of(alloc, home, fields.as_slice())?;
    narrowed_texts(alloc, home, &table, first, second)
}

/// Prints a line, with the narrowed type behind it where there is one.
pub(crate) fn report(rt: &impl Print, alloc: Global, line: &str) -> io::Result<()> {
    let Ok(home) = Path::read(alloc, b"a.js") else {
        return Ok(());
    };
    match narrowed(alloc, &home, line) {
        Ok(Some(text)) => {
            let text = str::from_utf8(text.as_bytes()).unwrap_or("");
            println!(rt; "{line}\t{text}")
        }
        Ok(None) => println!(rt; "{line}"),
        Err(NoMemory) => println!(rt; "{line}: no memory"),
    }
}
