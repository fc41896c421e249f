//! Single lines, and their parts.
ghost use Rattle.std.specs.Prelude.{◌≡◌, ◌++◌, string_bytes, IfOk, OnOk};
ghost use Rattle.program_check.specs.Status.{error_place, details_part, end_of_line, status_line};
ghost use Rattle.check_values.specs.declared.signatures.Export.TheVariants as the_export;
ghost use Rattle.answer_print.specs.Lines.{located_line, path_line, export_line, alias_line, count_line, ls_line, type_head, found_name, found_line, unknown_line, nothing_line};

use asks::Located;
use check_values::Export;
use flow_values::{NoMemory, Path, Text};
use std::alloc::Global;
use type_terms::show;
use type_values::FlowType;

/// The line of so many of something at a path, for what was asked.
pub(crate) fn count_line(
    alloc: Global,
    version: u32,
    asked: &str,
    path: &Path,
    count: usize,
    what: &str,
) -> Result<String, NoMemory>
    ensures { IfOk result (λ text. string_bytes text ≡ count_line version asked.now path.now count what.now) }
{
    let path = path.as_str();
    Ok(format!(in alloc; "{version} {asked} {path}: {count} {what}\n")?)
}

/// The line of so many modules.
pub(crate) fn ls_line(alloc: Global, version: u32, count: usize) -> Result<String, NoMemory>
    ensures { IfOk result (λ text. string_bytes text ≡ ls_line version count) }
{
    Ok(format!(in alloc; "{version} ls: {count} modules\n")?)
}

/// The line of so many errors of all modules.
pub(crate) fn status_line(alloc: Global, version: u32, count: usize) -> Result<String, NoMemory>
    ensures { IfOk result (λ text. string_bytes text ≡ status_line version count) }
{
    Ok(format!(in alloc; "{version} status: {count} errors\n")?)
}

/// The place of a type, which follows.
pub(crate) fn type_head(
    alloc: Global,
    version: u32,
    path: &Path,
    line: u64,
    column: u64,
) -> Result<String, NoMemory>
    ensures { IfOk result (λ text. string_bytes text ≡ type_head version path.now line column) }
{
    let path = path.as_str();
    Ok(format!(in alloc; "{version} type-at-pos {path}:{line}:{column}: ")?)
}

fn found_name(found: &Option<Path>) -> &str
    ensures { result.now ≡ found_name found.now }
{
    match found {
        Some(path) => path.as_str(),
        None => "none",
    }
}

/// The line of the module that a specifier finds.
pub(crate) fn found_line(
    alloc: Global,
    version: u32,
    path: &Path,
    found: &Option<Path>,
) -> Result<String, NoMemory>
    ensures { IfOk result (λ text. string_bytes text ≡ found_line version path.now found.now) }
{
    let path = path.as_str();
    let found = found_name(found);
    Ok(format!(in alloc; "{version} find-module {path}: {found}\n")?)
}

/// The line of a path that is no module's.
pub(crate) fn unknown_line(alloc: Global, version: u32, path: &Path) -> Result<String, NoMemory>
    ensures { IfOk result (λ text. string_bytes text ≡ unknown_line version path.now) }
{
    let path = path.as_str();
    Ok(format!(in alloc; "{version} unknown path {path}\n")?)
}

/// The line of a place that no expression covers.
pub(crate) fn nothing_line(
    alloc: Global,
    version: u32,
    path: &Path,
    line: u64,
    column: u64,
) -> Result<String, NoMemory>
    ensures { IfOk result (λ text. string_bytes text ≡ nothing_line version path.now line column) }
{
    let path = path.as_str();
    Ok(format!(in alloc; "{version} no expression {path}:{line}:{column}\n")?)
}

fn error_place(alloc: Global, path: &Path, line: u64, column: u64) -> Result<String, NoMemory>
    ensures { IfOk result (λ text. string_bytes text ≡ error_place path.now line column) }
{
    let path = path.as_str();
    Ok(format!(in alloc; "  {path}:{line}:{column} ")?)
}

// Nothing, or a space and the details.
fn push_details(out: &mut Vec<u8>, details: &[u8]) -> Result<(), NoMemory>
    ensures { OnOk result (out.new.items ≡ out.old.items ++ details_part details.now) }
{
    if !details.is_empty() {
        out.extend_from_slice(b" ")?;
        out.extend_from_slice(details)?;
    }
    Ok(())
}

/// Appends the line of an error.
#[tactic(auto, using(crate::proofs::Parts::four))]
pub(crate) fn push_located(alloc: Global, out: &mut Vec<u8>, e: &Located) -> Result<(), NoMemory>
    ensures { OnOk result (out.new.items ≡ out.old.items ++ located_line e.now) }
{
    let place = error_place(alloc, &e.path, e.line, e.column)?;
    out.extend_from_slice(place.as_bytes())?;
    out.extend_from_slice(e.code.name().as_bytes())?;
    push_details(out, e.details.as_bytes())?;
    out.extend_from_slice(b"\n")?;
    Ok(())
}

/// Appends the line of a module.
#[tactic(auto, using(crate::proofs::Parts::three))]
pub(crate) fn push_path(out: &mut Vec<u8>, path: &Path) -> Result<(), NoMemory>
    ensures { OnOk result (out.new.items ≡ out.old.items ++ path_line path.now) }
{
    out.extend_from_slice(b"  ")?;
    out.extend_from_slice(path.as_bytes())?;
    out.extend_from_slice(b"\n")?;
    Ok(())
}

#[tactic(auto, using(crate::proofs::Parts::five))]
fn push_value(alloc: Global, out: &mut Vec<u8>, name: &Text, t: &FlowType) -> Result<(), NoMemory>
    ensures { OnOk result (out.new.items ≡ out.old.items ++ export_line name.now (the_export.Value t.now)) }
{
    out.extend_from_slice(b"  value ")?;
    out.extend_from_slice(name.as_bytes())?;
    out.extend_from_slice(b": ")?;
    out.extend_from_slice(show(alloc, t)?.as_bytes())?;
    out.extend_from_slice(b"\n")?;
    Ok(())
}

#[tactic(auto, using(crate::proofs::Parts::seven))]
fn push_type(out: &mut Vec<u8>, name: &Text, home: &Path, alias: &Text) -> Result<(), NoMemory>
    ensures { OnOk result (out.new.items ≡ out.old.items ++ export_line name.now (the_export.Alias home.now alias.now)) }
{
    out.extend_from_slice(b"  type ")?;
    out.extend_from_slice(name.as_bytes())?;
    out.extend_from_slice(b" is ")?;
    out.extend_from_slice(home.as_bytes())?;
    out.extend_from_slice(b"#")?;
    out.extend_from_slice(alias.as_bytes())?;
    out.extend_from_slice(b"\n")?;
    Ok(())
}

// A name behind a word.
#[tactic(auto, using(crate::proofs::Parts::three))]
fn push_name(out: &mut Vec<u8>, word: &[u8], name: &Text) -> Result<(), NoMemory>
    ensures { OnOk result (out.new.items ≡ out.old.items ++ (word.now ++ (name.now ++ end_of_line))) }
{
    out.extend_from_slice(word)?;
    out.extend_from_slice(name.as_bytes())?;
    out.extend_from_slice(b"\n")?;
    Ok(())
}

/// Appends the line of an export.
pub(crate) fn push_export(
    alloc: Global,
    out: &mut Vec<u8>,
    name: &Text,
    meant: &Export,
) -> Result<(), NoMemory>
    ensures { OnOk result (out.new.items ≡ out.old.items ++ export_line name.now meant.now) }
{
    match meant {
        Export::Value(t) => push_value(alloc, out, name, t),
        Export::Alias {
            module,
            name: alias,
        } => push_type(out, name, module, alias),
        Export::Unknown => push_name(out, b"  unknown ", name),
        Export::Cyclic => push_name(out, b"  cyclic ", name),
    }
}

/// Appends the line of an alias.
#[tactic(auto, using(crate::proofs::Parts::five))]
pub(crate) fn push_alias(
    alloc: Global,
    out: &mut Vec<u8>,
    name: &Text,
    t: &FlowType,
) -> Result<(), NoMemory>
    ensures { OnOk result (out.new.items ≡ out.old.items ++ alias_line name.now t.now) }
{
    out.extend_from_slice(b"  alias ")?;
    out.extend_from_slice(name.as_bytes())?;
    out.extend_from_slice(b" = ")?;
    out.extend_from_slice(show(alloc, t)?.as_bytes())?;
    out.extend_from_slice(b"\n")?;
    Ok(())
}
