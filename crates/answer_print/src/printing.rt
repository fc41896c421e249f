ghost use Rattle.std.specs.Prelude.{◌≡◌, ◌++◌, codes, IfOk, OnOk};
ghost use Rattle.std.specs.Option.{option_map};
ghost use Rattle.answer_print.specs.Lines.{errors_text, signature_text, answered, unknown_text, refused, answer_lines};
ghost use Rattle.asks.specs.Kinds.{asked_path, CanAnswer, IsOfKind, IsRefusal};
ghost use Rattle.asks.specs.declared.ask.Ask.TheVariants as the_ask;

use crate::lines::{
    count_line, found_line, ls_line, nothing_line, status_line, type_head, unknown_line,
};
use crate::rows::{push_faults, push_paths, push_signature};
use asks::{Answer, Ask, AskFault, Located};
use check_values::Sig;
use flow_values::{List, NoMemory, Path, Text};
use std::alloc::Global;
use type_terms::show;

// The errors of all modules.
#[tactic(auto, using(crate::proofs::Parts::two))]
fn push_status(
    alloc: Global,
    out: &mut Vec<u8>,
    version: u32,
    answer: &Answer,
) -> Result<(), NoMemory>
    requires { IsOfKind the_ask.Status answer.now }
    ensures { OnOk result (out.new.items ≡ out.old.items ++ answered version the_ask.Status answer.now) }
{
    let Answer::Faults(errors) = answer else {
        unreachable!()
    };
    out.extend_from_slice(status_line(alloc, version, errors.len())?.as_bytes())?;
    push_faults(alloc, out, errors.as_slice())
}

// The errors of a module.
#[tactic(auto, using(crate::proofs::Parts::two))]
fn push_errors(
    alloc: Global,
    out: &mut Vec<u8>,
    version: u32,
    asked: &str,
    path: &Path,
    errors: &List<Located>,
) -> Result<(), NoMemory>
    ensures { OnOk result (out.new.items ≡ out.old.items ++ errors_text version asked.now path.now errors.now) }
{
    let line = count_line(alloc, version, asked, path, errors.len(), "errors")?;
    out.extend_from_slice(line.as_bytes())?;
    push_faults(alloc, out, errors.as_slice())
}

// The errors of a module as it is.
fn push_module(
    alloc: Global,
    out: &mut Vec<u8>,
    version: u32,
    path: &Path,
    answer: &Answer,
) -> Result<(), NoMemory>
    requires { IsOfKind (the_ask.Errors path.now) answer.now }
    ensures { OnOk result (out.new.items ≡ out.old.items ++ answered version (the_ask.Errors path.now) answer.now) }
{
    let Answer::Faults(errors) = answer else {
        unreachable!()
    };
    push_errors(alloc, out, version, "errors", path, errors)
}

// The errors of a module with another text.
fn push_contents(
    alloc: Global,
    out: &mut Vec<u8>,
    version: u32,
    path: &Path,
    text: &Text,
    answer: &Answer,
) -> Result<(), NoMemory>
    requires { IsOfKind (the_ask.CheckContents path.now text.now) answer.now }
    ensures { OnOk result (out.new.items ≡ out.old.items ++ answered version (the_ask.CheckContents path.now text.now) answer.now) }
{
    let Answer::Faults(errors) = answer else {
        unreachable!()
    };
    push_errors(alloc, out, version, "check-contents", path, errors)
}

// The type at a place.
#[tactic(auto, using(crate::proofs::Parts::three))]
fn push_type(
    alloc: Global,
    out: &mut Vec<u8>,
    version: u32,
    path: &Path,
    line: u64,
    column: u64,
    answer: &Answer,
) -> Result<(), NoMemory>
    requires { IsOfKind (the_ask.TypeAtPos path.now line column) answer.now }
    ensures { OnOk result (out.new.items ≡ out.old.items ++ answered version (the_ask.TypeAtPos path.now line column) answer.now) }
{
    let Answer::Shown(t) = answer else {
        unreachable!()
    };
    out.extend_from_slice(type_head(alloc, version, path, line, column)?.as_bytes())?;
    out.extend_from_slice(show(alloc, t)?.as_bytes())?;
    out.extend_from_slice(b"\n")?;
    Ok(())
}

// The module that a specifier finds.
fn push_found(
    alloc: Global,
    out: &mut Vec<u8>,
    version: u32,
    path: &Path,
    spec: &Text,
    answer: &Answer,
) -> Result<(), NoMemory>
    requires { IsOfKind (the_ask.FindModule path.now spec.now) answer.now }
    ensures { OnOk result (out.new.items ≡ out.old.items ++ answered version (the_ask.FindModule path.now spec.now) answer.now) }
{
    let Answer::Found(found) = answer else {
        unreachable!()
    };
    out.extend_from_slice(found_line(alloc, version, path, found)?.as_bytes())?;
    Ok(())
}

// The paths of all modules.
#[tactic(auto, using(crate::proofs::Parts::two))]
fn push_ls(alloc: Global, out: &mut Vec<u8>, version: u32, answer: &Answer) -> Result<(), NoMemory>
    requires { IsOfKind the_ask.Ls answer.now }
    ensures { OnOk result (out.new.items ≡ out.old.items ++ answered version the_ask.Ls answer.now) }
{
    let Answer::Paths(paths) = answer else {
        unreachable!()
    };
    out.extend_from_slice(ls_line(alloc, version, paths.len())?.as_bytes())?;
    push_paths(out, paths.as_slice())
}

// The modules whose specifiers find a module.
#[tactic(auto, using(crate::proofs::Parts::two))]
fn push_importers(
    alloc: Global,
    out: &mut Vec<u8>,
    version: u32,
    path: &Path,
    answer: &Answer,
) -> Result<(), NoMemory>
    requires { IsOfKind (the_ask.Importers path.now) answer.now }
    ensures { OnOk result (out.new.items ≡ out.old.items ++ answered version (the_ask.Importers path.now) answer.now) }
{
    let Answer::Paths(paths) = answer else {
        unreachable!()
    };
    let line = count_line(alloc, version, "importers", path, paths.len(), "modules")?;
    out.extend_from_slice(line.as_bytes())?;
    push_paths(out, paths.as_slice())
}

// What a module says to others.
#[tactic(auto, using(crate::proofs::Parts::two))]
fn push_sig(
    alloc: Global,
    out: &mut Vec<u8>,
    version: u32,
    path: &Path,
    sig: &Sig,
) -> Result<(), NoMemory>
    ensures { OnOk result (out.new.items ≡ out.old.items ++ signature_text version path.now sig.now) }
{
    let line = count_line(
        alloc,
        version,
        "signature",
        path,
        sig.exports.len(),
        "exports",
    )?;
    out.extend_from_slice(line.as_bytes())?;
    push_signature(alloc, out, sig)
}

// What the module that was asked for says.
fn push_told(
    alloc: Global,
    out: &mut Vec<u8>,
    version: u32,
    path: &Path,
    answer: &Answer,
) -> Result<(), NoMemory>
    requires { IsOfKind (the_ask.Signature path.now) answer.now }
    ensures { OnOk result (out.new.items ≡ out.old.items ++ answered version (the_ask.Signature path.now) answer.now) }
{
    let Answer::Sig(sig) = answer else {
        unreachable!()
    };
    push_sig(alloc, out, version, path, sig.get())
}

// The lines of an answer.
fn push_answer(
    alloc: Global,
    out: &mut Vec<u8>,
    version: u32,
    ask: &Ask,
    answer: &Answer,
) -> Result<(), NoMemory>
    requires { IsOfKind ask.now answer.now }
    ensures { OnOk result (out.new.items ≡ out.old.items ++ answered version ask.now answer.now) }
{
    match ask {
        Ask::Status => push_status(alloc, out, version, answer),
        Ask::Errors { path } => push_module(alloc, out, version, path, answer),
        Ask::CheckContents { path, text } => push_contents(alloc, out, version, path, text, answer),
        Ask::TypeAtPos { path, line, column } => {
            push_type(alloc, out, version, path, *line, *column, answer)
        }
        Ask::FindModule { path, spec } => push_found(alloc, out, version, path, spec, answer),
        Ask::Ls => push_ls(alloc, out, version, answer),
        Ask::Importers { path } => push_importers(alloc, out, version, path, answer),
        Ask::Signature { path } => push_told(alloc, out, version, path, answer),
    }
}

// The path that is asked for.
fn asked_path(ask: &Ask) -> Option<&Path>
    ensures { option_map (λ path. path.now) result ≡ asked_path ask.now }
{
    match ask {
        Ask::Status => None,
        Ask::Errors { path } => Some(path),
        Ask::CheckContents { path, text: _ } => Some(path),
        Ask::TypeAtPos {
            path,
            line: _,
            column: _,
        } => Some(path),
        Ask::FindModule { path, spec: _ } => Some(path),
        Ask::Ls => None,
        Ask::Importers { path } => Some(path),
        Ask::Signature { path } => Some(path),
    }
}

fn unknown_text(alloc: Global, version: u32, path: Option<&Path>) -> Result<Text, NoMemory>
    ensures { IfOk result (λ text. text ≡ unknown_text version (option_map (λ path. path.now) path.entry)) }
{
    match path {
        Some(path) => Text::from_bytes(alloc, unknown_line(alloc, version, path)?.as_bytes()),
        None => Text::from_bytes(alloc, b""),
    }
}

fn nothing_text(alloc: Global, version: u32, ask: &Ask) -> Result<Text, NoMemory>
    requires { IsRefusal ask.now AskFault.NoExpression }
    ensures { IfOk result (λ text. text ≡ refused version ask.now AskFault.NoExpression) }
{
    let Ask::TypeAtPos { path, line, column } = ask else {
        unreachable!()
    };
    let line = nothing_line(alloc, version, path, *line, *column)?;
    Text::from_bytes(alloc, line.as_bytes())
}

// The line of a refusal.
fn refusal(alloc: Global, version: u32, ask: &Ask, fault: AskFault) -> Result<Text, NoMemory>
    requires { IsRefusal ask.now fault }
    ensures { IfOk result (λ text. text ≡ refused version ask.now fault) }
{
    match fault {
        AskFault::UnknownPath => unknown_text(alloc, version, asked_path(ask)),
        AskFault::NoExpression => nothing_text(alloc, version, ask),
        AskFault::NoMemory => unreachable!(),
    }
}

/// The lines that are printed of an answer of a version to what was asked: the answer is of a kind that
/// this is answered with, and no want of memory.
///
/// # Errors
///
/// `NoMemory` where memory is refused.
pub fn print_answer(
    alloc: Global,
    version: u32,
    ask: &Ask,
    answer: &Result<Answer, AskFault>,
) -> Result<Text, NoMemory>
    requires { CanAnswer ask.now answer.now }
    ensures { IfOk result (λ text. text ≡ answer_lines version ask.now answer.now) }
{
    match answer {
        Ok(answer) => {
            let mut out = Vec::new(alloc);
            push_answer(alloc, &mut out, version, ask, answer)?;
            Text::from_vec(alloc, out)
        }
        Err(fault) => refusal(alloc, version, ask, *fault),
    }
}
