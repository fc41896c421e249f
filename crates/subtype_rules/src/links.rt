//! The ways to justify a pair, each by links: the numbers of two types.
ghost use Rattle.std.specs.Prelude.{◌≡◌, ◌++◌, ◌∷◌, [], map, OnOk, IfOk, ◌==◌, length, slice_get, unwrap_or};
ghost use Rattle.type_values.specs.declared.types.FlowType.{out-FlowType};
ghost use Rattle.subtyping.specs.Rows.{objects_fit};
ghost use Rattle.subtype_rules.specs.Terms.{both_links, zip_links, param_links, entry_of, entry_at, entry_links, links_at, all_links, one_link_way, left_links, right_links, part_links, all_ways};

use crate::props::Props;
use crate::rows::{does_open, objects_fit};
use crate::terms::Node;
use flow_values::{List, NoMemory, Text};
use std::alloc::Global;
use type_values::{FlowProp, FlowType, Variance};

/// The numbers of two types.
pub(crate) type Link = (usize, usize);

// The numbers of the type of a property, and of that type with `void` where it may be absent.
#[derive(Clone, Copy)]
pub(crate) struct Entry {
    pub variance: Variance,
    pub ty: usize,
    pub effective: usize,
}

fn add_both(k: usize, l: usize, way: &mut List<Link>) -> Result<(), NoMemory>
    ensures { OnOk result (way.new ≡ (way.old ++ (k, l) ∷ []) ++ (l, k) ∷ []) }
{
    way.push((k, l))?;
    way.push((l, k))
}

fn both_links(alloc: Global, ks: &[usize], ls: &[usize]) -> Result<List<Link>, NoMemory>
    ensures { IfOk result (λ way. way ≡ both_links ks.now ls.now) }
{
    let mut way = List::new(alloc);
    for i in 0..ks.len().min(ls.len()) {
        let k = ks[i];
        let l = ls[i];
        add_both(k, l, &mut way)?;
    }
    Ok(way)
}

fn zip_links(alloc: Global, ks: &[usize], ls: &[usize]) -> Result<List<Link>, NoMemory>
    ensures { IfOk result (λ way. way ≡ zip_links ks.now ls.now) }
{
    let mut way = List::new(alloc);
    for i in 0..ks.len().min(ls.len()) {
        let k = ks[i];
        let l = ls[i];
        way.push((k, l))?;
    }
    Ok(way)
}

// The number of what a parameter takes, and that of `void` where there is none.
fn taken(blank: usize, ls: &[usize], i: usize) -> usize
    ensures { result ≡ unwrap_or (slice_get ls.now i) blank }
{
    if i < ls.len() { ls[i] } else { blank }
}

// A parameter takes what that of B at its place does.
fn add_taken(
    blank: usize,
    ls: &[usize],
    i: usize,
    k: usize,
    way: &mut List<Link>,
) -> Result<(), NoMemory>
    ensures { OnOk result (way.new ≡ way.old ++ (unwrap_or (slice_get ls.now i) blank, k) ∷ []) }
{
    way.push((taken(blank, ls, i), k))
}

#[tactic(auto, using(crate::proofs::LinkWalks::params_ends))]
fn add_param_links(
    blank: usize,
    ks: &[usize],
    ls: &[usize],
    way: &mut List<Link>,
) -> Result<(), NoMemory>
    ensures { OnOk result (way.new ≡ way.old ++ param_links blank ks.now ls.now) }
{
    for i in 0..ks.len() {
        add_taken(blank, ls, i, ks[i], way)?;
    }
    Ok(())
}

fn each_below(alloc: Global, ks: &[usize], j: usize) -> Result<List<Link>, NoMemory>
    ensures { IfOk result (λ way. way ≡ map (λ k. (k, j)) ks.now) }
{
    let mut way = List::new(alloc);
    for i in 0..ks.len() {
        way.push((ks[i], j))?;
    }
    Ok(way)
}

fn single(alloc: Global, link: Link) -> Result<List<Link>, NoMemory>
    ensures { IfOk result (λ way. way ≡ link ∷ []) }
{
    let mut way = List::new(alloc);
    way.push(link)?;
    Ok(way)
}

fn one(alloc: Global, way: List<Link>) -> Result<List<List<Link>>, NoMemory>
    ensures { IfOk result (λ all. all ≡ way ∷ []) }
{
    let mut all = List::new(alloc);
    all.push(way)?;
    Ok(all)
}

fn above_each(alloc: Global, i: usize, ls: &[usize]) -> Result<List<List<Link>>, NoMemory>
    ensures { IfOk result (λ all. all ≡ map (λ k. (i, k) ∷ []) ls.now) }
{
    let mut all = List::new(alloc);
    for j in 0..ls.len() {
        all.push(single(alloc, (i, ls[j]))?)?;
    }
    Ok(all)
}

fn entry_of(props: &[FlowProp], ks: &[usize], ls: &[usize], n: usize) -> Option<Entry>
    ensures { result ≡ entry_of props.now ks.now ls.now n }
{
    let p = props.get(n)?;
    let k = ks.get(n)?;
    let l = ls.get(n)?;
    Some(Entry {
        variance: p.variance,
        ty: *k,
        effective: *l,
    })
}

fn entry_at(props: &Props, node: &Node, key: &Text) -> Option<Entry>
    ensures { result ≡ entry_at props.now.all.now node.now key.now }
{
    match props.place(key) {
        Some(n) => entry_of(
            props.all,
            node.parts.as_slice(),
            node.effective.as_slice(),
            n,
        ),
        None => None,
    }
}

fn add_entry_links(p: Entry, q: Entry, way: &mut List<Link>) -> Result<(), NoMemory>
    ensures { OnOk result (way.new ≡ way.old ++ entry_links q.variance p q) }
{
    match q.variance {
        Variance::Both => {
            way.push((p.ty, q.ty))?;
            way.push((q.ty, p.ty))
        }
        Variance::Read => way.push((p.effective, q.effective)),
        Variance::Write => way.push((q.effective, p.effective)),
    }
}

fn add_links_at(p: Option<Entry>, q: Option<Entry>, way: &mut List<Link>) -> Result<(), NoMemory>
    ensures { OnOk result (way.new ≡ way.old ++ links_at p q) }
{
    match p {
        Some(p) => match q {
            Some(q) => add_entry_links(p, q, way),
            None => Ok(()),
        },
        None => Ok(()),
    }
}

#[tactic(auto, using(crate::proofs::LinkWalks::all_goes, crate::proofs::LinkWalks::all_ends))]
fn all_links(
    alloc: Global,
    ps: &Props,
    x: &Node,
    qs: &Props,
    y: &Node,
) -> Result<List<Link>, NoMemory>
    ensures { IfOk result (λ way. way ≡ all_links ps.now.all.now x.now qs.now.all.now y.now qs.now.all.now) }
{
    let mut way = List::new(alloc);
    for i in 0..qs.all.len() {
        let key = &qs.all[i].key;
        add_links_at(entry_at(ps, x, key), entry_at(qs, y, key), &mut way)?;
    }
    Ok(way)
}

fn left_links(alloc: Global, a: &FlowType, x: &Node, j: usize) -> Result<List<List<Link>>, NoMemory>
    ensures { IfOk result (λ all. all ≡ left_links (out-FlowType a.now) x.now j) }
{
    if does_open(a) {
        return one(alloc, each_below(alloc, x.parts.as_slice(), j)?);
    }
    Ok(List::new(alloc))
}

fn right_links(
    alloc: Global,
    i: usize,
    b: &FlowType,
    y: &Node,
) -> Result<List<List<Link>>, NoMemory>
    ensures { IfOk result (λ all. all ≡ right_links i (out-FlowType b.now) y.now) }
{
    if does_open(b) {
        let all = above_each(alloc, i, y.parts.as_slice())?;
        return Ok(all);
    }
    Ok(List::new(alloc))
}

fn object_links(
    alloc: Global,
    closed_a: bool,
    ps: &[FlowProp],
    x: &Node,
    closed_b: bool,
    qs: &[FlowProp],
    y: &Node,
) -> Result<List<List<Link>>, NoMemory>
    ensures { IfOk result (λ all. all ≡ one_link_way (objects_fit closed_a ps.now closed_b qs.now) (all_links ps.now x.now qs.now y.now qs.now)) }
{
    let ps = Props::indexed(alloc, ps)?;
    let qs = Props::indexed(alloc, qs)?;
    if objects_fit(closed_a, &ps, closed_b, &qs) {
        return one(alloc, all_links(alloc, &ps, x, &qs, y)?);
    }
    Ok(List::new(alloc))
}

fn tuple_links(
    alloc: Global,
    xs: &[FlowType],
    x: &Node,
    ys: &[FlowType],
    y: &Node,
) -> Result<List<List<Link>>, NoMemory>
    ensures { IfOk result (λ all. all ≡ one_link_way (length xs.now == length ys.now) (both_links x.now.parts y.now.parts)) }
{
    if xs.len() == ys.len() {
        return one(
            alloc,
            both_links(alloc, x.parts.as_slice(), y.parts.as_slice())?,
        );
    }
    Ok(List::new(alloc))
}

fn function_links(alloc: Global, x: &Node, y: &Node) -> Result<List<List<Link>>, NoMemory>
    ensures { IfOk result (λ all. all ≡ (zip_links x.now.parts y.now.parts ++ param_links x.now.blank x.now.effective y.now.effective) ∷ []) }
{
    let mut way = zip_links(alloc, x.parts.as_slice(), y.parts.as_slice())?;
    add_param_links(
        x.blank,
        x.effective.as_slice(),
        y.effective.as_slice(),
        &mut way,
    )?;
    one(alloc, way)
}

fn part_links(
    alloc: Global,
    a: &FlowType,
    x: &Node,
    b: &FlowType,
    y: &Node,
) -> Result<List<List<Link>>, NoMemory>
    ensures { IfOk result (λ all. all ≡ part_links (out-FlowType a.now) x.now (out-FlowType b.now) y.now) }
{
    match (a, b) {
        (
            FlowType::Object {
                exact: closed_a,
                props: ps,
            },
            FlowType::Object {
                exact: closed_b,
                props: qs,
            },
        ) => object_links(
            alloc,
            *closed_a,
            ps.as_slice(),
            x,
            *closed_b,
            qs.as_slice(),
            y,
        ),
        (FlowType::Tuple(xs), FlowType::Tuple(ys)) => {
            tuple_links(alloc, xs.as_slice(), x, ys.as_slice(), y)
        }
        (FlowType::Array(_), FlowType::Array(_)) => one(
            alloc,
            both_links(alloc, x.parts.as_slice(), y.parts.as_slice())?,
        ),
        (FlowType::Array(_), FlowType::ReadArray(_)) => one(
            alloc,
            zip_links(alloc, x.parts.as_slice(), y.parts.as_slice())?,
        ),
        (FlowType::ReadArray(_), FlowType::ReadArray(_)) => one(
            alloc,
            zip_links(alloc, x.parts.as_slice(), y.parts.as_slice())?,
        ),
        (
            FlowType::Function {
                params: _,
                result: _,
            },
            FlowType::Function {
                params: _,
                result: _,
            },
        ) => function_links(alloc, x, y),
        _ => Ok(List::new(alloc)),
    }
}

/// The ways to justify that a type is below another one, by the numbers of both and their nodes, but
/// for what needs nothing.
pub(crate) fn all_ways(
    alloc: Global,
    link: Link,
    a: &FlowType,
    x: &Node,
    b: &FlowType,
    y: &Node,
) -> Result<List<List<Link>>, NoMemory>
    ensures { IfOk result (λ all. all ≡ all_ways link.0 (out-FlowType a.now) x.now link.1 (out-FlowType b.now) y.now) }
{
    let mut all = left_links(alloc, a, x, link.1)?;
    all.append(right_links(alloc, link.0, b, y)?)?;
    all.append(part_links(alloc, a, x, b, y)?)?;
    Ok(all)
}
