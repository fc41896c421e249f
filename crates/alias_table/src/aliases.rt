//! Aliases by their rows, with marks on those that lie on an unguarded cycle.
ghost use Rattle.std.specs.Prelude.{◌≡◌, ◌++◌, IsTrue, false, map, slice_get, unwrap_or, OnOk, IfOk};
ghost use Rattle.std.specs.List.{flat_map};
ghost use Rattle.std.specs.Option.{option_copied};
ghost use Rattle.alias_table.specs.Aliases.{Key, names_of, row_type, alias_type, IsCyclic, AreMarked, StaysWithin};
ghost use Rattle.alias_table.specs.Indexing.{place_at, place_of, places_of, are_placed, mark_in};

use crate::index::{Modules, index, place};
use flow_values::{List, NoMemory, Path, Text};
use graph_search::mark_cycles;
use std::alloc::Global;
use type_values::FlowType;

/// An alias: its module, its name and its type.
pub type AliasRow = (Path, Text, FlowType);

// Appends the places of the names in a type that stand in no constructor but unions.
#[cycle(places)]
fn add_places(modules: &Modules, t: &FlowType, out: &mut List<usize>) -> Result<(), NoMemory>
    ensures { OnOk result (out.new ≡ out.old ++ places_of (place_at modules.now) (names_of t.now)) }
{
    match t {
        FlowType::Ref { module, name } => match place(modules, module, name.as_bytes()) {
            Some(at) => out.push(at),
            None => Ok(()),
        },
        FlowType::Union(all) => add_all_places(modules, all.as_slice(), out),
        _ => Ok(()),
    }
}

#[cycle(places)]
fn add_all_places(
    modules: &Modules,
    all: &[FlowType],
    out: &mut List<usize>,
) -> Result<(), NoMemory>
    ensures { OnOk result (out.new ≡ out.old ++ places_of (place_at modules.now) (flat_map names_of all.now)) }
{
    for i in 0..all.len() {
        add_places(modules, &all[i], out)?;
    }
    Ok(())
}

// For each row the places to which its type leads.
fn edges_of(
    alloc: Global,
    modules: &Modules,
    rows: &[AliasRow],
) -> Result<List<List<usize>>, NoMemory>
    ensures { IfOk result (λ edges. edges ≡ map (λ row. places_of (place_at modules.now) (names_of row.2)) rows.now) }
{
    let mut edges = List::new(alloc);
    for i in 0..rows.len() {
        let row = &rows[i];
        let mut ends = List::new(alloc);
        add_places(modules, &row.2, &mut ends)?;
        edges.push(ends)?;
    }
    Ok(edges)
}

// Whether each of the names in a type that stand in no constructor but unions has a place.
#[cycle(placed)]
fn is_placed(modules: &Modules, t: &FlowType) -> bool
    ensures { result ≡ are_placed (place_at modules.now) (names_of t.now) }
{
    match t {
        FlowType::Ref { module, name } => place(modules, module, name.as_bytes()).is_some(),
        FlowType::Union(all) => are_placed(modules, all.as_slice()),
        _ => true,
    }
}

#[cycle(placed)]
fn are_placed(modules: &Modules, all: &[FlowType]) -> bool
    ensures { result ≡ are_placed (place_at modules.now) (flat_map names_of all.now) }
{
    for i in 0..all.len() {
        if !is_placed(modules, &all[i]) {
            return false;
        }
    }
    true
}

// Whether each of the names to which the types of rows lead has a place.
fn stays_within(modules: &Modules, rows: &[AliasRow]) -> bool
    ensures { result ≡ are_placed (place_at modules.now) (flat_map (λ row. names_of row.2) rows.now) }
{
    for i in 0..rows.len() {
        let row = &rows[i];
        if !is_placed(modules, &row.2) {
            return false;
        }
    }
    true
}

/// The aliases of some modules, by module and name, and which of them lie on an unguarded cycle. Of rows of one module and name the
/// first counts.
#[derive(Drop)]
pub struct Aliases {
    modules: Modules,
    rows: List<AliasRow>,
    marks: Vec<bool>,
    within: bool,
    ghost placed: { (key : Key) → place_at modules key ≡ place_of rows key },
    ghost marked: { AreMarked (alias_type rows) (mark_in modules marks.items) },
    ghost right: { (key : Key) → IsTrue (mark_in modules marks.items key) → ∥ IsCyclic (alias_type rows) key ∥₁ },
    ghost stays: { IsTrue within → StaysWithin (alias_type rows) },
}

impl Aliases {
    ghost use Rattle.alias_table.specs.Marks.{marked_in};

    /// The aliases of these rows. An alias is marked exactly where following names and the members of unions from it, and nothing
    /// else, leads back to it.
    ///
    /// # Errors
    ///
    /// `NoMemory` where memory is refused.
    pub fn build(alloc: Global, rows: List<AliasRow>) -> Result<Aliases, NoMemory>
        ensures { IfOk result (λ aliases. aliases.rows ≡ rows) }
    {
        let all = rows.as_slice();
        let modules = index(alloc, all)?;
        let edges = edges_of(alloc, &modules, all)?;
        let marks = mark_cycles(alloc, edges.as_slice())?;
        let within = stays_within(&modules, all);
        Ok(Aliases {
            modules,
            rows,
            marks,
            within,
        })
    }

    /// All rows.
    pub fn rows(&self) -> &[AliasRow]
        ensures { result.now ≡ self.now.rows }
    {
        self.rows.as_slice()
    }

    /// Whether the aliases lead to no others: each name to which one of them leads by names and members of unions alone is one of them.
    pub(crate) fn stays_within(&self) -> bool
        ensures { IsTrue result → StaysWithin (alias_type self.now.rows) }
    {
        self.within
    }

    fn type_at(&self, at: usize) -> Option<&FlowType>
        ensures { option_copied result ≡ slice_get (map row_type self.now.rows) at }
    {
        match self.rows.get(at) {
            Some(row) => Some(&row.2),
            None => None,
        }
    }

    /// The type of an alias, if it is there. It takes no memory.
    pub fn ty(&self, module: &Path, name: &[u8]) -> Option<&FlowType>
        ensures { option_copied result ≡ alias_type self.now.rows («module».now, name.now) }
    {
        match place(&self.modules, module, name) {
            Some(at) => self.type_at(at),
            None => None,
        }
    }

    /// Whether an alias lies on an unguarded cycle. It takes no memory.
    pub fn is_cyclic(&self, module: &Path, name: &[u8]) -> bool
        ensures { result ≡ marked_in self.now («module».now, name.now) }
    {
        match place(&self.modules, module, name) {
            Some(at) => is_on(self.marks.as_slice(), at),
            None => false,
        }
    }
}

fn is_on(marks: &[bool], at: usize) -> bool
    ensures { result ≡ unwrap_or (slice_get marks.now at) false }
{
    if at < marks.len() { marks[at] } else { false }
}
