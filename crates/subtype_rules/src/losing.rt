//! Pairs that no closed set has, as a look at their forms and their properties tells.
ghost use Rattle.std.specs.Prelude.{◌≡◌, true, false};
ghost use Rattle.std.specs.List.{list_all};
ghost use Rattle.type_values.specs.declared.types.FlowType.{FlowType, out-FlowType};
ghost use Rattle.alias_table.specs.Aliases.{Key};
ghost use Rattle.subtyping.specs.Rows.{has_no_ways, needs, needs_at, prop_at, all_needs};
ghost use Rattle.subtyping.specs.Collected.{IsLost};
ghost use Rattle.subtype_rules.specs.Kept.{HasDead, HasLost};

use crate::props::{FEW, Props};
use crate::rows::{does_open, has_no_ways, is_free};
use flow_values::Text;
use type_values::{FlowProp, FlowType, Variance};

fn are_required(p: &FlowProp, q: &FlowProp) -> bool
    ensures { result ≡ true → (p.now.optional ≡ false) × (q.now.optional ≡ false) }
{
    !p.optional && !q.optional
}

// Whether the types of two properties that must fit are a pair that no row justifies.
fn props_clash(p: &FlowProp, q: &FlowProp) -> bool
    ensures { result ≡ true → (named : Key → FlowType) → HasDead named (needs q.now.variance p.now q.now) }
{
    match q.variance {
        Variance::Both => {
            if has_no_ways(&p.ty, &q.ty) {
                return true;
            }
            has_no_ways(&q.ty, &p.ty)
        }
        Variance::Read => are_required(p, q) && has_no_ways(&p.ty, &q.ty),
        Variance::Write => are_required(p, q) && has_no_ways(&q.ty, &p.ty),
    }
}

fn clash_at(ps: &Props, qs: &Props, key: &Text) -> bool
    ensures { result ≡ true → (named : Key → FlowType) → HasDead named (needs_at (prop_at ps.now.all.now key.now) (prop_at qs.now.all.now key.now)) }
{
    match ps.at(key) {
        Some(p) => match qs.at(key) {
            Some(q) => props_clash(p, q),
            None => false,
        },
        None => false,
    }
}

fn clash(ps: &Props, qs: &Props) -> bool
    ensures { result ≡ true → (named : Key → FlowType) → HasDead named (all_needs ps.now.all.now qs.now.all.now qs.now.all.now) }
{
    let quick = ps.is_quick() && qs.is_quick();
    for i in 0..qs.all.len() {
        if i >= FEW && !quick {
            return false;
        }
        let q = &qs.all[i];
        if clash_at(ps, qs, &q.key) {
            return true;
        }
    }
    false
}

fn objects_clash(a: &FlowType, b: &FlowType) -> bool
    ensures { result ≡ true → (named : Key → FlowType) → IsLost named (a.now, b.now) }
{
    match (a, b) {
        (
            FlowType::Object {
                exact: _,
                props: ps,
            },
            FlowType::Object {
                exact: _,
                props: qs,
            },
        ) => {
            let ps = Props::new(ps.as_slice());
            let qs = Props::new(qs.as_slice());
            clash(&ps, &qs)
        }
        _ => false,
    }
}

// Whether no row justifies that a type is below one of these, as their forms tell.
fn misses_each(a: &FlowType, all: &[FlowType]) -> bool
    ensures { result ≡ list_all (λ y. has_no_ways (out-FlowType a.now) (out-FlowType y)) all.now }
{
    all.iter().all(|y| has_no_ways(a, y))
}

// Whether b is a union, and no row justifies that a is below one of its members.
fn misses_union(a: &FlowType, b: &FlowType) -> bool
    ensures { result ≡ true → (named : Key → FlowType) → IsLost named (a.now, b.now) }
{
    if does_open(a) || is_free(a, b) {
        return false;
    }
    match b {
        FlowType::Union(all) => misses_each(a, all.as_slice()),
        _ => false,
    }
}

// Whether a pair is lost, as its forms or its properties tell.
fn is_apart(a: &FlowType, b: &FlowType) -> bool
    ensures { result ≡ true → (named : Key → FlowType) → IsLost named (a.now, b.now) }
{
    if has_no_ways(a, b) {
        return true;
    }
    objects_clash(a, b)
}

fn has_apart(all: &[FlowType], b: &FlowType) -> bool
    ensures { result ≡ true → (named : Key → FlowType) → HasLost named all.now b.now }
{
    for i in 0..all.len() {
        let x = &all[i];
        if is_apart(x, b) {
            return true;
        }
    }
    false
}

// Whether a is a union with a member that is lost, and b neither a union nor a name.
fn loses_member(a: &FlowType, b: &FlowType) -> bool
    ensures { result ≡ true → (named : Key → FlowType) → IsLost named (a.now, b.now) }
{
    if does_open(b) || is_free(a, b) {
        return false;
    }
    match a {
        FlowType::Union(all) => has_apart(all.as_slice(), b),
        _ => false,
    }
}

/// Whether a pair is in no closed set, as its forms, its properties or its members tell.
pub(crate) fn is_lost(a: &FlowType, b: &FlowType) -> bool
    ensures { result ≡ true → (named : Key → FlowType) → IsLost named (a.now, b.now) }
{
    if is_apart(a, b) {
        return true;
    }
    if misses_union(a, b) {
        return true;
    }
    loses_member(a, b)
}
