//! The types that occur, by their numbers, and the numbers of their parts.
ghost use Rattle.std.specs.Prelude.{◌≡◌, ◌∷◌, ◌<◌, [], map, true, length, slice_get, Some, IfSome, OnOk, IfOk, List};
ghost use Rattle.type_values.specs.declared.types.FlowType.{FlowType, out-FlowType};
ghost use Rattle.type_values.specs.declared.types.FlowType as made;
ghost use Rattle.type_terms.specs.Optional.{eff};
ghost use Rattle.alias_table.specs.Table.{unfolded};
ghost use Rattle.subtype_rules.specs.Terms.{Extends, AreNamed, IsOpened, IsNode, AreNodes, parts_of, effective_of};

use crate::rows::is_leaf;
use alias_table::AliasTable;
use flow_values::{List, NoMemory, Shared};
use std::alloc::Global;
use std::collections::BTreeMap;
use type_terms::eff;
use type_values::{FlowProp, FlowType, Param};

/// The numbers of the parts of a type, and of what its properties or parameters take.
#[derive(Drop)]
pub(crate) struct Node {
    pub number: usize,
    pub parts: List<usize>,
    pub effective: List<usize>,
    /// The number of `void`.
    pub blank: usize,
}

fn share_all(alloc: Global, all: &[FlowType]) -> Result<List<FlowType>, NoMemory>
    ensures { IfOk result (λ out. out ≡ all.now) }
{
    let mut out = List::new(alloc);
    for i in 0..all.len() {
        out.push(all[i].share()?)?;
    }
    Ok(out)
}

fn share_one(alloc: Global, t: &FlowType) -> Result<List<FlowType>, NoMemory>
    ensures { IfOk result (λ out. out ≡ t.now ∷ []) }
{
    let mut out = List::new(alloc);
    out.push(t.share()?)?;
    Ok(out)
}

fn prop_types(alloc: Global, props: &[FlowProp]) -> Result<List<FlowType>, NoMemory>
    ensures { IfOk result (λ out. out ≡ map (λ p. p.ty) props.now) }
{
    let mut out = List::new(alloc);
    for i in 0..props.len() {
        out.push(props[i].ty.share()?)?;
    }
    Ok(out)
}

fn effective_props(alloc: Global, props: &[FlowProp]) -> Result<List<FlowType>, NoMemory>
    ensures { IfOk result (λ out. out ≡ map (λ p. eff p.optional p.ty) props.now) }
{
    let mut out = List::new(alloc);
    for i in 0..props.len() {
        let p = &props[i];
        out.push(eff(alloc, p.optional, &p.ty)?)?;
    }
    Ok(out)
}

fn effective_params(alloc: Global, params: &[Param]) -> Result<List<FlowType>, NoMemory>
    ensures { IfOk result (λ out. out ≡ map (λ p. eff p.optional p.ty) params.now) }
{
    let mut out = List::new(alloc);
    for i in 0..params.len() {
        let p = &params[i];
        out.push(eff(alloc, p.optional, &p.ty)?)?;
    }
    Ok(out)
}

// What a type needs of its parts: a name what it unfolds to.
fn parts(alloc: Global, table: &AliasTable, t: &FlowType) -> Result<List<FlowType>, NoMemory>
    ensures { IfOk result (λ all. all ≡ parts_of (unfolded table.now) (out-FlowType t.now)) }
{
    match t {
        FlowType::Ref { module, name } => {
            share_one(alloc, table.unfolding(module, name.as_bytes()))
        }
        FlowType::Union(all) => share_all(alloc, all.as_slice()),
        FlowType::Object { exact: _, props } => prop_types(alloc, props.as_slice()),
        FlowType::Tuple(all) => share_all(alloc, all.as_slice()),
        FlowType::Array(x) => share_one(alloc, x.get()),
        FlowType::ReadArray(x) => share_one(alloc, x.get()),
        FlowType::Function { params: _, result } => share_one(alloc, result.get()),
        _ => Ok(List::new(alloc)),
    }
}

fn effective(alloc: Global, t: &FlowType) -> Result<List<FlowType>, NoMemory>
    ensures { IfOk result (λ all. all ≡ effective_of (out-FlowType t.now)) }
{
    match t {
        FlowType::Object { exact: _, props } => effective_props(alloc, props.as_slice()),
        FlowType::Function { params, result: _ } => effective_params(alloc, params.as_slice()),
        _ => Ok(List::new(alloc)),
    }
}

// Whether a type has no parts of its own, so that comparing it takes no walk.
fn is_flat(t: &FlowType) -> bool {
    match t {
        FlowType::Ref { module: _, name: _ } => true,
        _ => is_leaf(t),
    }
}

/// The types that occur, each with its number. Names and types without parts have one number each;
/// any other type has one for each place at which it stands. What `flat` and `places` give is tried
/// before it is believed.
#[derive(Drop)]
pub(crate) struct Terms {
    pub types: List<FlowType>,
    pub nodes: List<Shared<Node>>,
    flat: BTreeMap<FlowType, usize>,
    places: BTreeMap<usize, usize>,
}

impl Terms {
    pub(crate) fn new(alloc: Global) -> Terms
        ensures types { result.types ≡ [] }
        ensures nodes { result.nodes ≡ [] }
    {
        Terms {
            types: List::new(alloc),
            nodes: List::new(alloc),
            flat: BTreeMap::new(alloc),
            places: BTreeMap::new(alloc),
        }
    }

    fn has_at(&self, k: usize, t: &FlowType) -> bool
        ensures { result ≡ true → slice_get self.now.types k ≡ Some t.now }
    {
        match self.types.get(k) {
            Some(u) => u.equals(t),
            None => false,
        }
    }

    // The number of a type without parts that is known.
    fn find(&self, t: &FlowType) -> Option<usize>
        ensures { IfSome result (λ k. slice_get self.now.types k ≡ Some t.now) }
    {
        match self.flat.get(t) {
            Some(k) if self.has_at(*k, t) => Some(*k),
            _ => None,
        }
    }

    fn add(&mut self, t: &FlowType) -> Result<usize, NoMemory>
        ensures number { IfOk result (λ k. slice_get self.new.types k ≡ Some t.now) }
        ensures grows { OnOk result (Extends self.old.types self.new.types) }
        ensures nodes { OnOk result (self.new.nodes ≡ self.old.nodes) }
    {
        let k = self.types.len();
        self.types.push(t.share()?)?;
        Ok(k)
    }

    fn add_flat(&mut self, t: &FlowType) -> Result<usize, NoMemory>
        ensures number { IfOk result (λ k. slice_get self.new.types k ≡ Some t.now) }
        ensures grows { OnOk result (Extends self.old.types self.new.types) }
        ensures nodes { OnOk result (self.new.nodes ≡ self.old.nodes) }
    {
        self.flat.insert(t.share()?, self.types.len())?;
        self.add(t)
    }

    fn number_flat(&mut self, t: &FlowType) -> Result<usize, NoMemory>
        ensures number { IfOk result (λ k. slice_get self.new.types k ≡ Some t.now) }
        ensures grows { OnOk result (Extends self.old.types self.new.types) }
        ensures nodes { OnOk result (self.new.nodes ≡ self.old.nodes) }
    {
        match self.find(t) {
            Some(k) => Ok(k),
            None => self.add_flat(t),
        }
    }

    /// A number of a type. It walks no part.
    pub(crate) fn number(&mut self, t: &FlowType) -> Result<usize, NoMemory>
        ensures number { IfOk result (λ k. slice_get self.new.types k ≡ Some t.now) }
        ensures grows { OnOk result (Extends self.old.types self.new.types) }
        ensures nodes { OnOk result (self.new.nodes ≡ self.old.nodes) }
    {
        if is_flat(t) {
            return self.number_flat(t);
        }
        self.add(t)
    }

    fn number_all(&mut self, alloc: Global, all: &[FlowType]) -> Result<List<usize>, NoMemory>
        ensures numbers { IfOk result (λ ks. AreNamed self.new.types ks all.now) }
        ensures grows { OnOk result (Extends self.old.types self.new.types) }
        ensures nodes { OnOk result (self.new.nodes ≡ self.old.nodes) }
    {
        let mut ks = List::new(alloc);
        for i in 0..all.len() {
            let t = &all[i];
            let k = self.number(t)?;
            ks.push(k)?;
        }
        Ok(ks)
    }

    // The number of `void`.
    fn number_void(&mut self) -> Result<usize, NoMemory>
        ensures number { IfOk result (λ k. slice_get self.new.types k ≡ Some made.Void) }
        ensures grows { OnOk result (Extends self.old.types self.new.types) }
        ensures nodes { OnOk result (self.new.nodes ≡ self.old.nodes) }
    {
        self.number(&FlowType::Void)
    }

    fn make(
        &mut self,
        alloc: Global,
        table: &AliasTable,
        n: usize,
        t: &FlowType,
    ) -> Result<Node, NoMemory>
        ensures number { IfOk result (λ node. node.number ≡ n) }
        ensures opened { IfOk result (λ node. IsOpened (unfolded table.now) self.new.types t.now node) }
        ensures grows { OnOk result (Extends self.old.types self.new.types) }
        ensures nodes { OnOk result (self.new.nodes ≡ self.old.nodes) }
    {
        let some = parts(alloc, table, t)?;
        let parts = self.number_all(alloc, some.as_slice())?;
        let more = effective(alloc, t)?;
        let effective = self.number_all(alloc, more.as_slice())?;
        let blank = self.number_void()?;
        Ok(Node {
            number: n,
            parts,
            effective,
            blank,
        })
    }

    fn has_node(&self, m: usize, n: usize) -> bool
        ensures { result ≡ true → (node : Node) × (slice_get self.now.nodes m ≡ Some node) × (node.number ≡ n) }
    {
        match self.nodes.get(m) {
            Some(node) => node.get().number == n,
            None => false,
        }
    }

    // The place of the node of a number, where it was made.
    fn find_node(&self, n: usize) -> Option<usize>
        ensures { IfSome result (λ m. (node : Node) × (slice_get self.now.nodes m ≡ Some node) × (node.number ≡ n)) }
    {
        match self.places.get(&n) {
            Some(m) if self.has_node(*m, n) => Some(*m),
            _ => None,
        }
    }

    /// The type of a number.
    pub(crate) fn type_at(&self, n: usize) -> Result<FlowType, NoMemory>
        requires { n < length self.now.types }
        ensures { IfOk result (λ t. slice_get self.now.types n ≡ Some t) }
    {
        let t = self.types.as_slice()[n].share()?;
        Ok(t)
    }

    #[tactic(auto, using(crate::proofs::Grown::within))]
    fn share_node(&self, m: usize, n: usize) -> Result<Shared<Node>, NoMemory>
        requires { (node : Node) × (slice_get self.now.nodes m ≡ Some node) × (node.number ≡ n) }
        ensures { IfOk result (λ node. (slice_get self.now.nodes m ≡ Some node) × (node.number ≡ n)) }
    {
        let node = self.nodes.as_slice()[m].share()?;
        Ok(node)
    }

    fn add_node(
        &mut self,
        alloc: Global,
        table: &AliasTable,
        n: usize,
    ) -> Result<Shared<Node>, NoMemory>
        requires within { n < length self.old.types }
        requires nodes { AreNodes (unfolded table.now) self.old.types self.old.nodes }
        ensures node { IfOk result (λ node. IsNode (unfolded table.now) self.new.types n node) }
        ensures nodes { OnOk result (AreNodes (unfolded table.now) self.new.types self.new.nodes) }
        ensures grows { OnOk result (Extends self.old.types self.new.types) }
    {
        let t = self.type_at(n)?;
        let made = self.make(alloc, table, n, &t)?;
        let node = Shared::new(alloc, made)?;
        let more = node.share()?;
        let m = self.nodes.len();
        self.nodes.push(more)?;
        self.places.insert(n, m)?;
        Ok(node)
    }

    /// The node of a number. It is made once.
    pub(crate) fn open(
        &mut self,
        alloc: Global,
        table: &AliasTable,
        n: usize,
    ) -> Result<Shared<Node>, NoMemory>
        requires within { n < length self.old.types }
        requires nodes { AreNodes (unfolded table.now) self.old.types self.old.nodes }
        ensures node { IfOk result (λ node. IsNode (unfolded table.now) self.new.types n node) }
        ensures nodes { OnOk result (AreNodes (unfolded table.now) self.new.types self.new.nodes) }
        ensures grows { OnOk result (Extends self.old.types self.new.types) }
    {
        match self.find_node(n) {
            Some(m) => {
                let node = self.share_node(m, n)?;
                Ok(node)
            }
            None => self.add_node(alloc, table, n),
        }
    }
}
