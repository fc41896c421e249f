//! What the rows of the table ask of the forms of two types.
ghost use Rattle.std.specs.Prelude.{◌≡◌};
ghost use Rattle.std.specs.Option.{is_some};
ghost use Rattle.alias_table.specs.Aliases.{is_text};
ghost use Rattle.type_values.specs.declared.types.FlowType.{out-FlowType};
ghost use Rattle.subtyping.specs.Rows.{is_low, is_high, is_str, is_num, is_truth, is_plain, is_free, does_open, is_leaf, has_no_ways, may_read, may_write, fits, prop_at, fits_at, all_fit, no_others, objects_fit};

use crate::props::Props;
use flow_values::Text;
use type_values::{FlowProp, FlowType, Variance};

pub(crate) fn is_text(a: &Text, b: &Text) -> bool
    ensures { result ≡ is_text a.now b.now }
{
    a.cmp(b).is_eq()
}

fn is_low(a: &FlowType) -> bool
    ensures { result ≡ is_low (out-FlowType a.now) }
{
    matches!(a, FlowType::Any | FlowType::Empty)
}

fn is_high(b: &FlowType) -> bool
    ensures { result ≡ is_high (out-FlowType b.now) }
{
    matches!(b, FlowType::Any | FlowType::Mixed)
}

fn is_str(text: &Text, b: &FlowType) -> bool
    ensures { result ≡ is_str text.now (out-FlowType b.now) }
{
    match b {
        FlowType::Str => true,
        FlowType::StrLit(other) => is_text(text, other),
        _ => false,
    }
}

fn is_num(text: &Text, b: &FlowType) -> bool
    ensures { result ≡ is_num text.now (out-FlowType b.now) }
{
    match b {
        FlowType::Number => true,
        FlowType::NumLit(other) => is_text(text, other),
        _ => false,
    }
}

fn is_truth(x: bool, b: &FlowType) -> bool
    ensures { result ≡ is_truth x (out-FlowType b.now) }
{
    match b {
        FlowType::Boolean => true,
        FlowType::BoolLit(y) => x == *y,
        _ => false,
    }
}

fn is_plain(a: &FlowType, b: &FlowType) -> bool
    ensures { result ≡ is_plain (out-FlowType a.now) (out-FlowType b.now) }
{
    match a {
        FlowType::Number => matches!(b, FlowType::Number),
        FlowType::Str => matches!(b, FlowType::Str),
        FlowType::Boolean => matches!(b, FlowType::Boolean),
        FlowType::Null => matches!(b, FlowType::Null),
        FlowType::Void => matches!(b, FlowType::Void),
        FlowType::StrLit(text) => is_str(text, b),
        FlowType::NumLit(text) => is_num(text, b),
        FlowType::BoolLit(x) => is_truth(*x, b),
        _ => false,
    }
}

/// Whether nothing else is needed.
pub(crate) fn is_free(a: &FlowType, b: &FlowType) -> bool
    ensures { result ≡ is_free (out-FlowType a.now) (out-FlowType b.now) }
{
    is_low(a) || is_high(b) || is_plain(a, b)
}

pub(crate) fn does_open(t: &FlowType) -> bool
    ensures { result ≡ does_open (out-FlowType t.now) }
{
    match t {
        FlowType::Ref { module: _, name: _ } => true,
        FlowType::Union(_) => true,
        _ => false,
    }
}

pub(crate) fn is_leaf(t: &FlowType) -> bool
    ensures { result ≡ is_leaf (out-FlowType t.now) }
{
    match t {
        FlowType::Ref { module: _, name: _ } => false,
        FlowType::Union(_) => false,
        FlowType::Object { exact: _, props: _ } => false,
        FlowType::Tuple(_) => false,
        FlowType::Array(_) => false,
        FlowType::ReadArray(_) => false,
        FlowType::Function {
            params: _,
            result: _,
        } => false,
        _ => true,
    }
}

/// Whether no row justifies the pair, as its outermost forms tell.
pub(crate) fn has_no_ways(a: &FlowType, b: &FlowType) -> bool
    ensures { result ≡ has_no_ways (out-FlowType a.now) (out-FlowType b.now) }
{
    !does_open(a) && !does_open(b) && (is_leaf(a) || is_leaf(b)) && !is_free(a, b)
}

fn may_read(v: Variance) -> bool
    ensures { result ≡ may_read v }
{
    match v {
        Variance::Write => false,
        _ => true,
    }
}

fn may_write(v: Variance) -> bool
    ensures { result ≡ may_write v }
{
    match v {
        Variance::Read => false,
        _ => true,
    }
}

fn fits(p: &FlowProp, q: &FlowProp) -> bool
    ensures { result ≡ fits q.now.variance p.now q.now }
{
    match q.variance {
        Variance::Both => may_read(p.variance) && may_write(p.variance) && p.optional == q.optional,
        Variance::Read => may_read(p.variance) && (!p.optional || q.optional),
        Variance::Write => may_write(p.variance),
    }
}

fn fits_in(ps: &Props, qs: &Props, key: &Text) -> bool
    ensures { result ≡ fits_at (prop_at ps.now.all.now key.now) (prop_at qs.now.all.now key.now) }
{
    match ps.at(key) {
        Some(p) => match qs.at(key) {
            Some(q) => fits(p, q),
            None => false,
        },
        None => false,
    }
}

#[tactic(auto, using(crate::proofs::Walks::fit_stops, crate::proofs::Walks::fit_goes, crate::proofs::Walks::fit_ends))]
fn all_fit(ps: &Props, qs: &Props) -> bool
    ensures { result ≡ all_fit ps.now.all.now qs.now.all.now qs.now.all.now }
{
    for i in 0..qs.all.len() {
        if !fits_in(ps, qs, &qs.all[i].key) {
            return false;
        }
    }
    true
}

#[tactic(auto, using(crate::proofs::Walks::others_stops, crate::proofs::Walks::others_goes, crate::proofs::Walks::others_ends))]
fn no_others(qs: &Props, ps: &[FlowProp]) -> bool
    ensures { result ≡ no_others qs.now.all.now ps.now }
{
    for i in 0..ps.len() {
        if !has_prop(qs, &ps[i].key) {
            return false;
        }
    }
    true
}

fn has_prop(props: &Props, key: &Text) -> bool
    ensures { result ≡ is_some (prop_at props.now.all.now key.now) }
{
    match props.at(key) {
        Some(_) => true,
        None => false,
    }
}

/// Whether the properties of an object serve for those of another one.
pub(crate) fn objects_fit(closed_a: bool, ps: &Props, closed_b: bool, qs: &Props) -> bool
    ensures { result ≡ objects_fit closed_a ps.now.all.now closed_b qs.now.all.now }
{
    all_fit(ps, qs) && (!closed_b || closed_a && no_others(qs, ps.all))
}
