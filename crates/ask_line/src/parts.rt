//! The parts of an object.
ghost use Rattle.std.specs.Prelude.{◌≡◌, ℕ, List, IfOk, IfSome, IfNone};
ghost use Rattle.std.specs.Option.{option_map};
ghost use Rattle.serde_json.specs.View.{view};
ghost use Rattle.ask_line.specs.Asking.{text_at, whole_at, HasPath};

use flow_values::{NoMemory, Path, PathFault};
use serde_json::Value;
use std::alloc::Global;

/// The text at a key, where there is one.
pub(crate) fn text_at<'a>(value: &'a Value, key: &str) -> Option<&'a str>
    ensures { option_map (λ text. text.now) result ≡ text_at key.now (view value.now) }
{
    value.get(key).and_then(Value::as_str)
}

/// The whole number at a key, where there is one below 2^64.
pub(crate) fn whole_at(value: &Value, key: &str) -> Option<u64>
    ensures { result ≡ whole_at key.now (view value.now) }
{
    value.get(key).and_then(Value::as_u64)
}

/// The path at the key `path`, where there is one.
pub(crate) fn path_at(alloc: Global, value: &Value) -> Result<Option<Path>, NoMemory>
    ensures found { IfOk result (λ path. IfSome path (λ p. HasPath p (view value.now))) }
    ensures none { IfOk result (λ path. IfNone path ((p : List ℕ) → HasPath p (view value.now) → ⊥)) }
{
    let Some(text) = text_at(value, "path") else {
        return Ok(None);
    };
    match Path::read(alloc, text.as_bytes()) {
        Ok(path) => Ok(Some(path)),
        Err(PathFault::BadPath) => Ok(None),
        Err(PathFault::NoMemory) => Err(NoMemory),
    }
}
