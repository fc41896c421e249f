//! A module in a round.
ghost use Rattle.std.specs.Prelude.{◌≡◌, string_bytes, IfOk};
ghost use Rattle.generator.specs.Modules.{path_of, linked_type, linked_value, widens, wider_type, wider_value, import_line, type_line, value_line, function_line, text_of};

use flow_values::{NoMemory, Path, PathFault, Text};
use std::alloc::Global;

// The members that the type of a module behind the first one has.
fn linked_type(alloc: Global, i: u32, import: u32) -> Result<String, NoMemory>
    ensures { IfOk result (λ text. string_bytes text ≡ linked_type i import) }
{
    if i == 0 {
        return Ok(String::new(alloc));
    }
    Ok(format!(in alloc; ", b: ?T{import}")?)
}

// And its value.
fn linked_value(i: u32) -> &'static str
    ensures { result.now ≡ linked_value i }
{
    if i == 0 { "" } else { ", b: null" }
}

fn widens(round: u32) -> bool
    ensures { result ≡ widens round }
{
    round == 3 || round == 6 || round == 9
}

// The members that the type has in rounds 3, 6 and 9.
fn wider_type(round: u32) -> &'static str
    ensures { result.now ≡ wider_type round }
{
    if widens(round) { ", c: number" } else { "" }
}

// And the value.
fn wider_value(alloc: Global, round: u32) -> Result<String, NoMemory>
    ensures { IfOk result (λ text. string_bytes text ≡ wider_value round) }
{
    if !widens(round) {
        return Ok(String::new(alloc));
    }
    Ok(format!(in alloc; ", c: {round}")?)
}

fn import_line(alloc: Global, i: u32, import: u32) -> Result<String, NoMemory>
    ensures { IfOk result (λ text. string_bytes text ≡ import_line i import) }
{
    if i == 0 {
        return Ok(String::new(alloc));
    }
    Ok(format!(in alloc; "import type {{T{import}}} from './m{import}';\n")?)
}

fn type_line(alloc: Global, i: u32, import: u32, round: u32) -> Result<String, NoMemory>
    ensures { IfOk result (λ text. string_bytes text ≡ type_line i import round) }
{
    let linked = linked_type(alloc, i, import)?;
    let wider = wider_type(round);
    Ok(format!(in alloc; "export type T{i} = {{a: number{linked}{wider}}};\n")?)
}

fn value_line(alloc: Global, i: u32, round: u32) -> Result<String, NoMemory>
    ensures { IfOk result (λ text. string_bytes text ≡ value_line i round) }
{
    let linked = linked_value(i);
    let wider = wider_value(alloc, round)?;
    Ok(format!(in alloc; "export const v{i}: T{i} = {{a: {i}{linked}{wider}}};\n")?)
}

fn function_line(alloc: Global, i: u32, round: u32) -> Result<String, NoMemory>
    ensures { IfOk result (λ text. string_bytes text ≡ function_line i round) }
{
    Ok(format!(in alloc; "export function f{i}(x: T{i}): number {{ return x.a + {round}; }}\n")?)
}

/// The text of module i, which imports a module, in a round.
#[tactic(auto, using(crate::proofs::Lines::joined))]
pub(crate) fn text_of(alloc: Global, i: u32, import: u32, round: u32) -> Result<Text, NoMemory>
    ensures { IfOk result (λ text. text ≡ text_of i import round) }
{
    let mut text = import_line(alloc, i, import)?;
    text.push_str(type_line(alloc, i, import, round)?.as_str())?;
    text.push_str(value_line(alloc, i, round)?.as_str())?;
    text.push_str(function_line(alloc, i, round)?.as_str())?;
    Text::from_bytes(alloc, text.as_bytes())
}

/// The path of module i.
#[tactic(auto, using(crate::proofs::Paths::is_normal))]
pub(crate) fn path_of(alloc: Global, i: u32) -> Result<Path, NoMemory>
    ensures { IfOk result (λ path. path ≡ path_of i) }
{
    let bytes = format!(in alloc; "m{i}.js")?;
    match Path::read(alloc, bytes.as_bytes()) {
        Ok(path) => Ok(path),
        Err(PathFault::BadPath) => unreachable!(),
        Err(PathFault::NoMemory) => Err(NoMemory),
    }
}
