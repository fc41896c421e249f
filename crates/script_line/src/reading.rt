ghost use Rattle.std.specs.Prelude.{◌≡◌, ◌↔◌, ◌<◌, ◌≤◌, ℕ, List, length, Some, None, IfOk, IfErr, IfSome, IfNone, IsTrue, IsErrOf, IsSome, All, codes, option_and_then};
ghost use Rattle.std.specs.Option.{option_map};
ghost use Rattle.serde_json.specs.Find.{get, as_number, as_u64};
ghost use Rattle.serde_json.specs.View.{view};
ghost use Rattle.ask_line.specs.Asking.{text_at, HasText};
ghost use Rattle.script_line.specs.Says.{is_blank, poll_of, stop_in, Commands, IsBlankLine, IsCommand, asks_beside, MOST_ASKS, Says, SaysTooMany, SaysNothing};
ghost use Rattle.flow_values.specs.Path.{IsNormalPath};
ghost use Rattle.script_line.specs.declared.line.Line.{Line};

use crate::beside::beside_in;
use crate::{Line, LineFault};
use ask_line::read_ask;
use flow_values::{NoMemory, Path, PathFault, Text};
use serde_json::Value;
use std::alloc::Global;

// The most questions beside a recheck.
const MOST_ASKS: usize = 64;

// The text at a key, where there is one.
fn text_at<'a>(value: &'a Value, key: &str) -> Option<&'a str>
    ensures { option_map (λ text. text.now) result ≡ text_at key.now (view value.now) }
{
    value.get(key).and_then(Value::as_str)
}

// The path at the key `path`, where there is one.
fn path_at(alloc: Global, value: &Value) -> Result<Option<Path>, NoMemory>
    ensures found { IfOk result (λ path. IfSome path (λ p. HasText (codes "path") p (view value.now) × IsNormalPath p)) }
    ensures none { IfOk result (λ path. IfNone path ((p : List ℕ) → HasText (codes "path") p (view value.now) → IsNormalPath p → ⊥)) }
{
    let Some(text) = text_at(value, "path") else {
        return Ok(None);
    };
    match Path::read(alloc, text.as_bytes()) {
        Ok(path) => Ok(Some(path)),
        Err(PathFault::BadPath) => Ok(None),
        Err(PathFault::NoMemory) => Err(NoMemory),
    }
}

fn edit_of(alloc: Global, value: &Value) -> Result<Option<Line>, NoMemory>
    requires { HasText (codes "do") (codes "edit") (view value.now) }
    ensures found { IfOk result (λ line. IfSome line (Commands (view value.now))) }
    ensures none { IfOk result (λ line. IfNone line ((l : Line) → Commands (view value.now) l → ⊥)) }
{
    let Some(path) = path_at(alloc, value)? else {
        return Ok(None);
    };
    let Some(text) = text_at(value, "text") else {
        return Ok(None);
    };
    let text = Text::from_bytes(alloc, text.as_bytes())?;
    Ok(Some(Line::Edit { path, text }))
}

fn delete_of(alloc: Global, value: &Value) -> Result<Option<Line>, NoMemory>
    requires { HasText (codes "do") (codes "delete") (view value.now) }
    ensures found { IfOk result (λ line. IfSome line (Commands (view value.now))) }
    ensures none { IfOk result (λ line. IfNone line ((l : Line) → Commands (view value.now) l → ⊥)) }
{
    let Some(path) = path_at(alloc, value)? else {
        return Ok(None);
    };
    Ok(Some(Line::Delete { path }))
}

fn touch_of(alloc: Global, value: &Value) -> Result<Option<Line>, NoMemory>
    requires { HasText (codes "do") (codes "touch") (view value.now) }
    ensures found { IfOk result (λ line. IfSome line (Commands (view value.now))) }
    ensures none { IfOk result (λ line. IfNone line ((l : Line) → Commands (view value.now) l → ⊥)) }
{
    let Some(path) = path_at(alloc, value)? else {
        return Ok(None);
    };
    Ok(Some(Line::Touch { path }))
}

// The number of a poll, counted from 1.
fn poll_of(value: &Value) -> Option<u64>
    ensures { result ≡ option_and_then poll_of (option_and_then as_u64 (as_number (view value.now))) }
{
    match value.as_u64() {
        Some(0) => None,
        poll => poll,
    }
}

// The poll at which a recheck is to stop, 0 where the object says none, and nothing where what it says
// is no poll.
fn stop_in(value: &Value) -> Option<u64>
    ensures { result ≡ stop_in (view value.now) }
{
    match value.get("stop") {
        None => Some(0),
        Some(stop) => poll_of(stop),
    }
}

fn recheck_of(alloc: Global, value: &Value) -> Result<Option<Line>, NoMemory>
    requires { HasText (codes "do") (codes "recheck") (view value.now) }
    ensures found { IfOk result (λ line. IfSome line (Commands (view value.now))) }
    ensures none { IfOk result (λ line. IfNone line ((l : Line) → Commands (view value.now) l → ⊥)) }
{
    let Some(stop) = stop_in(value) else {
        return Ok(None);
    };
    let Some(asks) = beside_in(alloc, value)? else {
        return Ok(None);
    };
    Ok(Some(Line::Recheck { stop, asks }))
}

fn ask_of(alloc: Global, value: &Value) -> Result<Option<Line>, NoMemory>
    requires { HasText (codes "do") (codes "ask") (view value.now) }
    ensures found { IfOk result (λ line. IfSome line (Commands (view value.now))) }
    ensures none { IfOk result (λ line. IfNone line ((l : Line) → Commands (view value.now) l → ⊥)) }
{
    let Some(inner) = value.get("ask") else {
        return Ok(None);
    };
    let Some(ask) = read_ask(alloc, inner)? else {
        return Ok(None);
    };
    Ok(Some(Line::Ask(ask)))
}

// The command that an object is, however many questions it has.
fn command_of(alloc: Global, value: &Value) -> Result<Option<Line>, NoMemory>
    ensures found { IfOk result (λ line. IfSome line (Commands (view value.now))) }
    ensures none { IfOk result (λ line. IfNone line ((l : Line) → Commands (view value.now) l → ⊥)) }
{
    match text_at(value, "do") {
        Some("edit") => edit_of(alloc, value),
        Some("delete") => delete_of(alloc, value),
        Some("touch") => touch_of(alloc, value),
        Some("recheck") => recheck_of(alloc, value),
        Some("ask") => ask_of(alloc, value),
        Some("end") => Ok(Some(Line::End)),
        _ => Ok(None),
    }
}

fn is_blank_line(bytes: &[u8]) -> bool
    ensures { IsTrue result ↔ IsBlankLine bytes.now }
{
    bytes
        .iter()
        .all(|b| *b == b' ' || *b == b'\t' || *b == b'\r')
}

// The command that the bytes are, where they are JSON at all, however many questions it has.
fn command_in(alloc: Global, bytes: &[u8]) -> Result<Option<Line>, NoMemory>
    ensures found { IfOk result (λ line. IfSome line (IsCommand bytes.now)) }
    ensures none { IfOk result (λ line. IfNone line ((l : Line) → IsCommand bytes.now l → ⊥)) }
{
    match Value::from_slice(alloc, bytes) {
        Ok(value) => command_of(alloc, &value),
        Err(error) => {
            if error.is_memory() {
                Err(NoMemory)
            } else {
                Ok(None)
            }
        }
    }
}

// The number of questions beside a line's recheck.
fn ask_count(line: &Line) -> usize
    ensures { result ≡ length (asks_beside line.now) }
{
    match line {
        Line::Recheck { asks, .. } => asks.len(),
        _ => 0,
    }
}

// A command, where it has no more questions than there may be.
fn within_limit(line: Line) -> Result<Line, LineFault>
    ensures within { IfOk result (λ same. (same ≡ line) × (length (asks_beside same) ≤ MOST_ASKS)) }
    ensures past { IfErr result (λ fault. (fault ≡ LineFault.TooManyAsks (length (asks_beside line))) × (MOST_ASKS < length (asks_beside line))) }
{
    let count = ask_count(&line);
    if count > MOST_ASKS {
        return Err(LineFault::TooManyAsks {
            count: count as u64,
        });
    }
    Ok(line)
}

/// What a line of a script says, without its LF. A blank line and a command are read; keys of an
/// object that the command doesn't name are ignored, and of a repeated key the last one counts.
///
/// # Errors
///
/// `TooManyAsks` exactly where the bytes would say a command, but it has more than 64 questions, and
/// `BadLine` exactly where they say nothing else. `NoMemory` where memory is refused.
pub fn read_line(alloc: Global, bytes: &[u8]) -> Result<Line, LineFault>
    ensures says { IfOk result (Says bytes.now) }
    ensures many { (count : ℕ) → IsErrOf result (LineFault.TooManyAsks count) → SaysTooMany bytes.now count }
    ensures bad { IsErrOf result LineFault.BadLine → SaysNothing bytes.now }
{
    if is_blank_line(bytes) {
        return Ok(Line::Blank);
    }
    match command_in(alloc, bytes)? {
        Some(line) => within_limit(line),
        None => Err(LineFault::BadLine),
    }
}
