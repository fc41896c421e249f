//! The rows of narrowing that look at one member alone.
ghost use Rattle.std.specs.Prelude.{◌≡◌, IfOk};
ghost use Rattle.type_values.specs.declared.types.FlowType.{out-FlowType};
ghost use Rattle.type_values.specs.declared.types.FlowType.TheOpen as made;
ghost use Rattle.flow_facts.specs.Literals.{lit_type, lit_base};
ghost use Rattle.flow_facts.specs.Cells.{truthy_cell, falsy_cell, is_null_cell, not_null_cell, is_void_cell, not_void_cell, nullish_cell, not_nullish_cell, is_lit_cell, not_lit_cell, other_truth, typeof_word, typeof_mixed, typeof_cell, not_typeof_cell, keep_if};

use flow_facts::{Cell, Lit};
use flow_values::{List, NoMemory, Shared, Text};
use std::alloc::Global;
use type_values::FlowType;

fn keep_if(holds: bool) -> Cell
    ensures { result ≡ keep_if holds }
{
    if holds { Cell::Stays } else { Cell::Gone }
}

pub(crate) fn truthy(t: &FlowType) -> Cell
    ensures { result ≡ truthy_cell (out-FlowType t.now) }
{
    match t {
        FlowType::Null | FlowType::Void => Cell::Gone,
        FlowType::Boolean => Cell::Becomes(FlowType::BoolLit(true)),
        FlowType::BoolLit(b) => keep_if(*b),
        FlowType::NumLit(spelling) => keep_if(spelling.as_bytes() != b"0".as_slice()),
        FlowType::StrLit(text) => keep_if(text.as_bytes() != b"".as_slice()),
        _ => Cell::Stays,
    }
}

pub(crate) fn falsy(t: &FlowType) -> Cell
    ensures { result ≡ falsy_cell (out-FlowType t.now) }
{
    match t {
        FlowType::Boolean => Cell::Becomes(FlowType::BoolLit(false)),
        FlowType::BoolLit(b) => keep_if(!*b),
        FlowType::NumLit(spelling) => keep_if(spelling.as_bytes() == b"0".as_slice()),
        FlowType::StrLit(text) => keep_if(text.as_bytes() == b"".as_slice()),
        FlowType::Object { .. }
        | FlowType::Tuple(_)
        | FlowType::Array(_)
        | FlowType::ReadArray(_)
        | FlowType::Function { .. } => Cell::Gone,
        _ => Cell::Stays,
    }
}

pub(crate) fn is_null(t: &FlowType) -> Cell
    ensures { result ≡ is_null_cell (out-FlowType t.now) }
{
    match t {
        FlowType::Any | FlowType::Null => Cell::Stays,
        FlowType::Mixed => Cell::Becomes(FlowType::Null),
        _ => Cell::Gone,
    }
}

pub(crate) fn is_void(t: &FlowType) -> Cell
    ensures { result ≡ is_void_cell (out-FlowType t.now) }
{
    match t {
        FlowType::Any | FlowType::Void => Cell::Stays,
        FlowType::Mixed => Cell::Becomes(FlowType::Void),
        _ => Cell::Gone,
    }
}

fn null_or_void(alloc: Global) -> Result<Cell, NoMemory>
    ensures { IfOk result (λ cell. cell ≡ nullish_cell made.Mixed) }
{
    let mut all = List::new(alloc);
    all.push(FlowType::Null)?;
    all.push(FlowType::Void)?;
    Ok(Cell::Becomes(FlowType::Union(Shared::new(alloc, all)?)))
}

pub(crate) fn nullish(alloc: Global, t: &FlowType) -> Result<Cell, NoMemory>
    ensures { IfOk result (λ cell. cell ≡ nullish_cell (out-FlowType t.now)) }
{
    match t {
        FlowType::Any | FlowType::Null | FlowType::Void => Ok(Cell::Stays),
        FlowType::Mixed => null_or_void(alloc),
        _ => Ok(Cell::Gone),
    }
}

pub(crate) fn not_null(t: &FlowType) -> Cell
    ensures { result ≡ not_null_cell (out-FlowType t.now) }
{
    match t {
        FlowType::Null => Cell::Gone,
        _ => Cell::Stays,
    }
}

pub(crate) fn not_void(t: &FlowType) -> Cell
    ensures { result ≡ not_void_cell (out-FlowType t.now) }
{
    match t {
        FlowType::Void => Cell::Gone,
        _ => Cell::Stays,
    }
}

pub(crate) fn not_nullish(t: &FlowType) -> Cell
    ensures { result ≡ not_nullish_cell (out-FlowType t.now) }
{
    match t {
        FlowType::Null | FlowType::Void => Cell::Gone,
        _ => Cell::Stays,
    }
}

fn lit_type(lit: &Lit) -> Result<FlowType, NoMemory>
    ensures { IfOk result (λ t. t ≡ lit_type lit.now) }
{
    match lit {
        Lit::Str(text) => Ok(FlowType::StrLit(text.share()?)),
        Lit::Num(spelling) => Ok(FlowType::NumLit(spelling.share()?)),
        Lit::Bool(b) => Ok(FlowType::BoolLit(*b)),
    }
}

fn lit_base(lit: &Lit) -> FlowType
    ensures { result ≡ lit_base lit.now }
{
    match lit {
        Lit::Str(_) => FlowType::Str,
        Lit::Num(_) => FlowType::Number,
        Lit::Bool(_) => FlowType::Boolean,
    }
}

pub(crate) fn is_lit(lit: &Lit, t: &FlowType) -> Result<Cell, NoMemory>
    ensures { IfOk result (λ cell. cell ≡ is_lit_cell lit.now t.now) }
{
    let own = lit_type(lit)?;
    if *t == FlowType::Any || *t == own {
        return Ok(Cell::Stays);
    }
    if *t == FlowType::Mixed || *t == lit_base(lit) {
        return Ok(Cell::Becomes(own));
    }
    Ok(Cell::Gone)
}

fn other_truth(own: &FlowType) -> Cell
    ensures { result ≡ other_truth own.now }
{
    if *own == FlowType::BoolLit(true) {
        return Cell::Becomes(FlowType::BoolLit(false));
    }
    if *own == FlowType::BoolLit(false) {
        return Cell::Becomes(FlowType::BoolLit(true));
    }
    Cell::Stays
}

pub(crate) fn not_lit(lit: &Lit, t: &FlowType) -> Result<Cell, NoMemory>
    ensures { IfOk result (λ cell. cell ≡ not_lit_cell lit.now t.now) }
{
    let own = lit_type(lit)?;
    if *t == own {
        return Ok(Cell::Gone);
    }
    if *t == FlowType::Boolean {
        return Ok(other_truth(&own));
    }
    Ok(Cell::Stays)
}

fn typeof_word(t: &FlowType) -> &'static [u8]
    ensures { result.now ≡ typeof_word (out-FlowType t.now) }
{
    match t {
        FlowType::Number | FlowType::NumLit(_) => b"number",
        FlowType::Str | FlowType::StrLit(_) => b"string",
        FlowType::Boolean | FlowType::BoolLit(_) => b"boolean",
        FlowType::Void => b"undefined",
        FlowType::Null
        | FlowType::Object { .. }
        | FlowType::Tuple(_)
        | FlowType::Array(_)
        | FlowType::ReadArray(_) => b"object",
        FlowType::Function { .. } => b"function",
        _ => b"",
    }
}

fn typeof_mixed(kind: &[u8]) -> Cell
    ensures { result ≡ typeof_mixed kind.now }
{
    if kind == b"number".as_slice() {
        return Cell::Becomes(FlowType::Number);
    }
    if kind == b"string".as_slice() {
        return Cell::Becomes(FlowType::Str);
    }
    if kind == b"boolean".as_slice() {
        return Cell::Becomes(FlowType::Boolean);
    }
    if kind == b"undefined".as_slice() {
        return Cell::Becomes(FlowType::Void);
    }
    keep_if(kind == b"object".as_slice() || kind == b"function".as_slice())
}

pub(crate) fn is_kind(kind: &Text, t: &FlowType) -> Cell
    ensures { result ≡ typeof_cell kind.now (out-FlowType t.now) }
{
    match t {
        FlowType::Any => Cell::Stays,
        FlowType::Mixed => typeof_mixed(kind.as_bytes()),
        _ => keep_if(typeof_word(t) == kind.as_bytes()),
    }
}

pub(crate) fn not_kind(kind: &Text, t: &FlowType) -> Cell
    ensures { result ≡ not_typeof_cell kind.now (out-FlowType t.now) }
{
    match t {
        FlowType::Any | FlowType::Mixed => Cell::Stays,
        _ => keep_if(typeof_word(t) != kind.as_bytes()),
    }
}
