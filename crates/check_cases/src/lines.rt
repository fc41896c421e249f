//! The answers to lines.
use crate::module;
use crate::module::Answer;
use check_values::Fault;
use flow_values::{NoMemory, Text};
use std::alloc::Global;
use std::fmt::Write;

const PLACE: &str = "¦";

fn text(t: &Text) -> &str {
    str::from_utf8(t.as_bytes()).unwrap_or("?")
}

// The place of a fault, counted from the expression's start.
fn place(at: u32, base: usize) -> usize {
    (at as usize).saturating_sub(base)
}

// A fault, with a tab before it.
fn add_fault(out: &mut String, fault: &Fault, base: usize) -> Result<(), NoMemory> {
    let (start, end) = (place(fault.span.start, base), place(fault.span.end, base));
    let code = fault.code.name();
    write!(out, "\t{start}..{end} {code}")?;
    if !fault.details.is_empty() {
        write!(out, " {}", text(&fault.details))?;
    }
    Ok(())
}

fn add_faults(out: &mut String, faults: &[Fault], base: usize) -> Result<(), NoMemory> {
    for fault in faults {
        add_fault(out, fault, base)?;
    }
    Ok(())
}

// The source up to the expression of an `expr` line.
fn before_expression(alloc: Global, context: &str, want: &str) -> Result<String, NoMemory> {
    let mut source = String::new(alloc);
    write!(source, "{context} const it")?;
    if !want.is_empty() {
        write!(source, ": {want}")?;
    }
    source.push_str(" = ")?;
    Ok(source)
}

// An expression and the type that it is read against, with what the checker answers.
fn expression_answer(
    alloc: Global,
    e: &str,
    want: &str,
    answer: &Answer,
    base: usize,
) -> Result<String, NoMemory> {
    let mut out = String::new(alloc);
    write!(out, "expr\t{e}\t{want}\t{}", text(&answer.ty))?;
    add_faults(&mut out, answer.faults.as_slice(), base)?;
    Ok(out)
}

// The answer to an expression and the type that it is read against.
fn expression(
    alloc: Global,
    context: &str,
    e: &str,
    want: &str,
) -> Result<Option<String>, NoMemory> {
    let mut source = before_expression(alloc, context, want)?;
    let base = source.len();
    write!(source, "{e};")?;
    match module::read_last(alloc, source.as_bytes())? {
        Some(answer) => Ok(Some(expression_answer(alloc, e, want, &answer, base)?)),
        None => Ok(None),
    }
}

// The answer to an `expr` line; nothing where the line or the source is none.
fn expression_line(alloc: Global, context: &str, line: &str) -> Result<Option<String>, NoMemory> {
    let mut fields = line.split('\t');
    match (fields.next(), fields.next(), fields.next()) {
        (Some(_), Some(e), Some(want)) => expression(alloc, context, e, want),
        _ => Ok(None),
    }
}

// The answer to a source with a mark at the place whose type is asked.
fn type_at(alloc: Global, marked: &str) -> Result<Option<String>, NoMemory> {
    let Some((before, behind)) = marked.split_once(PLACE) else {
        return Ok(None);
    };
    let source = format!(in alloc; "{before}{behind}")?;
    let column = (before.chars().count() as u64).saturating_add(1);
    match module::type_at(alloc, source.as_bytes(), column)? {
        Some(ty) => Ok(Some(format!(in alloc; "{}\t{marked}", text(&ty))?)),
        None => Ok(Some(format!(in alloc; "none\t{marked}")?)),
    }
}

// The answer to a line of a type and a source.
fn type_line(alloc: Global, line: &str) -> Result<Option<String>, NoMemory> {
    match line.split_once('\t') {
        Some((_, marked)) => type_at(alloc, marked),
        None => Ok(None),
    }
}

// The answer to an `errors` line.
fn errors_line(alloc: Global, line: &str) -> Result<Option<String>, NoMemory> {
    let mut fields = line.split('\t');
    let (Some(_), Some(_), Some(source)) = (fields.next(), fields.next(), fields.next()) else {
        return Ok(None);
    };
    let count = module::errors(alloc, source.as_bytes())?;
    Ok(Some(format!(in alloc; "errors\t{count}\t{source}")?))
}

fn answered(alloc: Global, context: &str, line: &str) -> Result<Option<String>, NoMemory> {
    if line.starts_with("expr\t") {
        expression_line(alloc, context, line)
    } else if line.starts_with("errors\t") {
        errors_line(alloc, line)
    } else if line.contains(PLACE) && !line.starts_with("#") {
        type_line(alloc, line)
    } else {
        Ok(Some(String::from_str(alloc, line)?))
    }
}

/// The answer to a line in a context, which is the line itself where nothing is asked.
///
/// # Errors
///
/// `NoMemory` where memory is refused.
pub(crate) fn answer(alloc: Global, context: &str, line: &str) -> Result<String, NoMemory> {
    match answered(alloc, context, line)? {
        Some(text) => Ok(text),
        None => Ok(format!(in alloc; "no answer: {line}")?),
    }
}
