//! All pairs that can be needed, each with its number and its ways.
ghost use Rattle.std.specs.Prelude.{◌≡◌, ◌∷◌, ◌<◌, [], true, length, List, Contains, slice_get, Some, IfSome, OnOk, IfOk};
ghost use Rattle.alias_table.specs.Table.{unfolded};
ghost use Rattle.subtyping.specs.Rows.{Pair, ways};
ghost use Rattle.subtype_rules.specs.Terms.{Adds, Extends, AreNodes, IsLink, AreLinks, AreLinkWays, IsLostLink, HasLostLink, StandAt, IsLinkRow, IsLinkAdded, InWays, IsRowOf, IsNumbering};

use crate::links::{Link, all_ways};
use crate::losing::is_lost;
use crate::rows::is_free;
use crate::terms::Terms;
use alias_table::AliasTable;
use flow_values::{List, NoMemory};
use std::alloc::Global;
use std::collections::BTreeMap;
use type_values::FlowType;

// The type of a number, if it has one.
fn type_of(types: &[FlowType], number: usize) -> Option<&FlowType>
    ensures { IfSome result (λ t. slice_get types.now number ≡ Some t.now) }
{
    types.get(number)
}

// Whether the pair of a link is lost.
fn is_lost_link(types: &[FlowType], l: Link) -> bool
    ensures { result ≡ true → IsLostLink types.now l }
{
    match type_of(types, l.0) {
        Some(a) => match type_of(types, l.1) {
            Some(b) => is_lost(a, b),
            None => false,
        },
        None => false,
    }
}

// Whether a link of a way is lost.
fn is_hopeless(types: &[FlowType], way: &[Link]) -> bool
    ensures { result ≡ true → HasLostLink types.now way.now }
{
    for i in 0..way.len() {
        if is_lost_link(types, way[i]) {
            return true;
        }
    }
    false
}

// Links by their numbers. What `numbers` gives is tried before it is believed.
#[derive(Drop)]
struct Links {
    all: List<Link>,
    numbers: BTreeMap<Link, usize>,
}

impl Links {
    fn start(alloc: Global, first: Link) -> Result<Links, NoMemory>
        ensures { IfOk result (λ links. links.all ≡ first ∷ []) }
    {
        let mut all = List::new(alloc);
        all.push(first)?;
        let mut numbers = BTreeMap::new(alloc);
        numbers.insert(first, 0)?;
        Ok(Links { all, numbers })
    }

    fn has_at(&self, k: usize, l: Link) -> bool
        ensures { result ≡ true → slice_get self.now.all k ≡ Some l }
    {
        match self.all.get(k) {
            Some(m) => m.0 == l.0 && m.1 == l.1,
            None => false,
        }
    }

    // The number of a link that is known.
    fn find(&self, l: Link) -> Option<usize>
        ensures { IfSome result (λ k. slice_get self.now.all k ≡ Some l) }
    {
        match self.numbers.get(&l) {
            Some(k) if self.has_at(*k, l) => Some(*k),
            _ => None,
        }
    }

    // The link of a number.
    fn at(&self, k: usize) -> Link
        requires { k < length self.now.all }
        ensures { slice_get self.now.all k ≡ Some result }
    {
        self.all.as_slice()[k]
    }

    fn add(&mut self, l: Link) -> Result<usize, NoMemory>
        ensures number { IfOk result (λ k. slice_get self.new.all k ≡ Some l) }
        ensures adds { OnOk result (Adds (λ m. l ≡ m) self.old.all self.new.all) }
    {
        let k = self.all.len();
        self.numbers.insert(l, k)?;
        self.all.push(l)?;
        Ok(k)
    }

    fn number(&mut self, l: Link) -> Result<usize, NoMemory>
        ensures number { IfOk result (λ k. slice_get self.new.all k ≡ Some l) }
        ensures adds { OnOk result (Adds (λ m. l ≡ m) self.old.all self.new.all) }
    {
        match self.find(l) {
            Some(k) => Ok(k),
            None => self.add(l),
        }
    }

    fn number_way(&mut self, alloc: Global, way: &[Link]) -> Result<List<usize>, NoMemory>
        ensures numbers { IfOk result (λ ks. StandAt self.new.all ks way.now) }
        ensures adds { OnOk result (Adds (Contains way.now) self.old.all self.new.all) }
    {
        let mut ks = List::new(alloc);
        for i in 0..way.len() {
            let l = way[i];
            let k = self.number(l)?;
            ks.push(k)?;
        }
        Ok(ks)
    }

    // Puts a way into a row, unless it is hopeless.
    fn add_way(
        &mut self,
        alloc: Global,
        types: &[FlowType],
        way: &[Link],
        row: &mut List<List<usize>>,
    ) -> Result<(), NoMemory>
        ensures added { OnOk result (IsLinkAdded types.now self.new.all row.old row.new way.now) }
        ensures adds { OnOk result (Adds (Contains way.now) self.old.all self.new.all) }
    {
        if is_hopeless(types, way) {
            return Ok(());
        }
        let ks = self.number_way(alloc, way)?;
        row.push(ks)?;
        Ok(())
    }

    fn number_ways(
        &mut self,
        alloc: Global,
        types: &[FlowType],
        all: &[List<Link>],
    ) -> Result<List<List<usize>>, NoMemory>
        ensures numbers { IfOk result (λ row. IsLinkRow types.now self.new.all row all.now) }
        ensures adds { OnOk result (Adds (InWays all.now) self.old.all self.new.all) }
    {
        let mut row = List::new(alloc);
        for i in 0..all.len() {
            self.add_way(alloc, types, all[i].as_slice(), &mut row)?;
        }
        Ok(row)
    }
}

fn no_needs(alloc: Global) -> Result<List<List<Link>>, NoMemory>
    ensures { IfOk result (λ all. all ≡ [] ∷ []) }
{
    let mut all = List::new(alloc);
    all.push(List::new(alloc))?;
    Ok(all)
}

// The ways to justify the pair of a link.
fn ways(
    alloc: Global,
    table: &AliasTable,
    terms: &mut Terms,
    link: Link,
) -> Result<List<List<Link>>, NoMemory>
    requires left { link.0 < length terms.old.types }
    requires right { link.1 < length terms.old.types }
    requires nodes { AreNodes (unfolded table.now) terms.old.types terms.old.nodes }
    ensures ways { IfOk result (λ all. (p : Pair) → IsLink terms.old.types link p → AreLinkWays terms.new.types all (ways (unfolded table.now) p)) }
    ensures nodes { OnOk result (AreNodes (unfolded table.now) terms.new.types terms.new.nodes) }
    ensures grows { OnOk result (Extends terms.old.types terms.new.types) }
{
    let a = terms.type_at(link.0)?;
    let b = terms.type_at(link.1)?;
    if is_free(&a, &b) {
        let free = no_needs(alloc)?;
        return Ok(free);
    }
    let x = terms.open(alloc, table, link.0)?;
    let y = terms.open(alloc, table, link.1)?;
    let all = all_ways(alloc, link, &a, x.get(), &b, y.get())?;
    Ok(all)
}

#[derive(Drop)]
struct Known {
    terms: Terms,
    links: Links,
}

impl Known {
    fn start(
        alloc: Global,
        table: &AliasTable,
        a: &FlowType,
        b: &FlowType,
    ) -> Result<Known, NoMemory>
        ensures first { IfOk result (λ known. AreLinks known.terms.types known.links.all ((a.now, b.now) ∷ [])) }
        ensures nodes { IfOk result (λ known. AreNodes (unfolded table.now) known.terms.types known.terms.nodes) }
    {
        let mut terms = Terms::new(alloc);
        let i = terms.number(a)?;
        let j = terms.number(b)?;
        let links = Links::start(alloc, (i, j))?;
        Ok(Known { terms, links })
    }

    // The ways of the link of a number.
    fn row_of(
        &mut self,
        alloc: Global,
        table: &AliasTable,
        k: usize,
    ) -> Result<List<List<usize>>, NoMemory>
        requires within { k < length self.old.links.all }
        requires linked { (pairs : List Pair) × AreLinks self.old.terms.types self.old.links.all pairs }
        requires nodes { AreNodes (unfolded table.now) self.old.terms.types self.old.terms.nodes }
        ensures row { IfOk result (λ row. IsRowOf (unfolded table.now) self.old.terms.types self.old.links.all self.new.terms.types self.new.links.all k row) }
        ensures nodes { OnOk result (AreNodes (unfolded table.now) self.new.terms.types self.new.terms.nodes) }
    {
        let link = self.links.at(k);
        let all = ways(alloc, table, &mut self.terms, link)?;
        let row = self
            .links
            .number_ways(alloc, self.terms.types.as_slice(), all.as_slice())?;
        Ok(row)
    }
}

/// The rows of all pairs that a pair can need, and of that one first.
pub(crate) fn collect(
    alloc: Global,
    table: &AliasTable,
    a: &FlowType,
    b: &FlowType,
) -> Result<List<List<List<usize>>>, NoMemory>
    ensures { IfOk result (λ rows. IsNumbering (unfolded table.now) (a.now, b.now) rows) }
{
    let mut known = Known::start(alloc, table, a, b)?;
    let mut rows = List::new(alloc);
    while rows.len() < known.links.all.len() {
        let row = known.row_of(alloc, table, rows.len())?;
        rows.push(row)?;
    }
    Ok(rows)
}
