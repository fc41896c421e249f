ghost use Rattle.std.specs.Prelude.{◌≡◌, IfOk, IfSome, IfNone};
ghost use Rattle.serde_json.specs.View.{view};
ghost use Rattle.ask_line.specs.Asking.{HasParts, IsOfPath, Asks, kind_in};
ghost use Rattle.asks.specs.declared.ask.Ask as the_ask;

use crate::kinds::{Kind, kind_named};
use crate::parts::{path_at, text_at, whole_at};
use asks::Ask;
use flow_values::{NoMemory, Text};
use serde_json::Value;
use std::alloc::Global;

// A question of a module alone.
fn of_path(alloc: Global, value: &Value, kind: Kind) -> Result<Option<Ask>, NoMemory>
    requires { IsOfPath kind }
    ensures found { IfOk result (λ ask. IfSome ask (HasParts kind (view value.now))) }
    ensures none { IfOk result (λ ask. IfNone ask ((a : the_ask.Ask) → HasParts kind (view value.now) a → ⊥)) }
{
    let Some(path) = path_at(alloc, value)? else {
        return Ok(None);
    };
    match kind {
        Kind::Errors => Ok(Some(Ask::Errors { path })),
        Kind::Importers => Ok(Some(Ask::Importers { path })),
        Kind::Signature => Ok(Some(Ask::Signature { path })),
        _ => unreachable!(),
    }
}

fn check_contents_of(alloc: Global, value: &Value) -> Result<Option<Ask>, NoMemory>
    ensures found { IfOk result (λ ask. IfSome ask (HasParts Kind.CheckContents (view value.now))) }
    ensures none { IfOk result (λ ask. IfNone ask ((a : the_ask.Ask) → HasParts Kind.CheckContents (view value.now) a → ⊥)) }
{
    let Some(path) = path_at(alloc, value)? else {
        return Ok(None);
    };
    let Some(text) = text_at(value, "text") else {
        return Ok(None);
    };
    let text = Text::from_bytes(alloc, text.as_bytes())?;
    Ok(Some(Ask::CheckContents { path, text }))
}

fn type_at_pos_of(alloc: Global, value: &Value) -> Result<Option<Ask>, NoMemory>
    ensures found { IfOk result (λ ask. IfSome ask (HasParts Kind.TypeAtPos (view value.now))) }
    ensures none { IfOk result (λ ask. IfNone ask ((a : the_ask.Ask) → HasParts Kind.TypeAtPos (view value.now) a → ⊥)) }
{
    let Some(path) = path_at(alloc, value)? else {
        return Ok(None);
    };
    let Some(line) = whole_at(value, "line") else {
        return Ok(None);
    };
    let Some(column) = whole_at(value, "col") else {
        return Ok(None);
    };
    Ok(Some(Ask::TypeAtPos { path, line, column }))
}

fn find_module_of(alloc: Global, value: &Value) -> Result<Option<Ask>, NoMemory>
    ensures found { IfOk result (λ ask. IfSome ask (HasParts Kind.FindModule (view value.now))) }
    ensures none { IfOk result (λ ask. IfNone ask ((a : the_ask.Ask) → HasParts Kind.FindModule (view value.now) a → ⊥)) }
{
    let Some(path) = path_at(alloc, value)? else {
        return Ok(None);
    };
    let Some(spec) = text_at(value, "spec") else {
        return Ok(None);
    };
    let spec = Text::from_bytes(alloc, spec.as_bytes())?;
    Ok(Some(Ask::FindModule { path, spec }))
}

// A question of a kind, where the object has its parts.
fn ask_of(alloc: Global, value: &Value, kind: Kind) -> Result<Option<Ask>, NoMemory>
    ensures found { IfOk result (λ ask. IfSome ask (HasParts kind (view value.now))) }
    ensures none { IfOk result (λ ask. IfNone ask ((a : the_ask.Ask) → HasParts kind (view value.now) a → ⊥)) }
{
    match kind {
        Kind::Status => Ok(Some(Ask::Status)),
        Kind::Ls => Ok(Some(Ask::Ls)),
        Kind::Errors => of_path(alloc, value, Kind::Errors),
        Kind::Importers => of_path(alloc, value, Kind::Importers),
        Kind::Signature => of_path(alloc, value, Kind::Signature),
        Kind::CheckContents => check_contents_of(alloc, value),
        Kind::TypeAtPos => type_at_pos_of(alloc, value),
        Kind::FindModule => find_module_of(alloc, value),
    }
}

// The kind of an object.
fn kind_of(value: &Value) -> Option<Kind>
    ensures { result ≡ kind_in (view value.now) }
{
    kind_named(text_at(value, "what")?)
}

/// What an object asks, or `None` where it asks nothing. Keys that the kind of question doesn't name are
/// ignored, and of a repeated key the last one counts.
///
/// # Errors
///
/// `NoMemory` where memory is refused.
#[tactic(auto, using(crate::proofs::Words::asks_so, crate::proofs::Words::asks_no_other, crate::proofs::Words::asks_nothing))]
pub fn read_ask(alloc: Global, value: &Value) -> Result<Option<Ask>, NoMemory>
    ensures asks { IfOk result (λ ask. IfSome ask (Asks (view value.now))) }
    ensures none { IfOk result (λ ask. IfNone ask ((a : the_ask.Ask) → Asks (view value.now) a → ⊥)) }
{
    let Some(kind) = kind_of(value) else {
        return Ok(None);
    };
    let ask = ask_of(alloc, value, kind)?;
    Ok(ask)
}
