//! The signatures of modules by their paths, and the aliases of all of them.
ghost use Rattle.std.specs.Prelude.{◌≡◌, ◌++◌, map, length, IfOk, OnOk};
ghost use Rattle.std.specs.Option.{option_copied, option_map};
ghost use Rattle.check_values.specs.Rows.{row_at};
ghost use Rattle.std.specs.Ordering.{nat_cmp};
ghost use Rattle.std.specs.Cmp.Lexicographic.{slice_cmp};
ghost use Rattle.std.specs.BTreeMap.{get};
ghost use Rattle.signature_table.specs.Places.{ArePlaces, is_place};
ghost use Rattle.signature_table.specs.Telling.{rows_of, AreAliases, aliases_once};

use crate::exports::Exports;
use alias_table::{AliasRow, Aliases};
use check_values::Sig;
use flow_values::{List, NoMemory, Path, Shared, Text};
use std::alloc::Global;
use std::collections::BTreeMap;
use type_values::FlowType;

// The place of the first row of each path.
#[tactic(auto, using(crate::proofs::Placing::none_placed, crate::proofs::Placing::one_placed, crate::proofs::Placing::all_placed))]
fn places_of(alloc: Global, rows: &[(Path, Shared<Sig>)]) -> Result<BTreeMap<Path, usize>, NoMemory>
    ensures { IfOk result (ArePlaces rows.now) }
{
    let mut places = BTreeMap::new(alloc);
    for i in (0..rows.len()).rev() {
        let row = &rows[i];
        places.insert(row.0.share()?, i)?;
    }
    Ok(places)
}

// The exports of each signature.
fn exports_of(alloc: Global, rows: &[(Path, Shared<Sig>)]) -> Result<List<Exports>, NoMemory>
    ensures { IfOk result (λ all. map (λ exports. exports.sig) all ≡ map (λ row. row.1) rows.now) }
{
    let mut all = List::new(alloc);
    for i in 0..rows.len() {
        let row = &rows[i];
        all.push(Exports::of(alloc, &row.1)?)?;
    }
    Ok(all)
}

// Adds the aliases of a module.
fn add_rows(
    home: &Path,
    aliases: &[(Text, FlowType)],
    out: &mut List<AliasRow>,
) -> Result<(), NoMemory>
    ensures { OnOk result (out.new ≡ out.old ++ rows_of home.now aliases.now) }
{
    for i in 0..aliases.len() {
        let row = &aliases[i];
        out.push((home.share()?, row.0.share()?, row.1.share()?))?;
    }
    Ok(())
}

// Whether this is the place of a path.
fn is_place(places: &BTreeMap<Path, usize>, path: &Path, at: usize) -> bool
    ensures { result ≡ is_place (get (slice_cmp nat_cmp) places.now path.now) at }
{
    match places.get(path) {
        Some(place) => *place == at,
        None => false,
    }
}

// The aliases of all signatures, of which the first one of a path counts.
fn aliases_of(
    alloc: Global,
    places: &BTreeMap<Path, usize>,
    rows: &[(Path, Shared<Sig>)],
) -> Result<List<AliasRow>, NoMemory>
    requires { ArePlaces rows.now places.now }
    ensures { IfOk result (AreAliases rows.now) }
{
    let mut aliases = List::new(alloc);
    for i in 0..rows.len() {
        let row = &rows[i];
        if is_place(places, &row.0, i) {
            add_rows(&row.0, row.1.get().aliases.as_slice(), &mut aliases)?;
        }
    }
    Ok(aliases)
}

/// The merged signatures of modules, of which the first one of a path counts: their exports by name, and all their aliases, which
/// tables of aliases share.
#[derive(Drop)]
pub struct SignatureTable {
    rows: List<(Path, Shared<Sig>)>,
    places: BTreeMap<Path, usize>,
    exports: List<Exports>,
    aliases: Shared<Aliases>,
    ghost placed: { ArePlaces rows places },
    ghost exported: { map (λ own. own.sig) exports ≡ map (λ row. row.1) rows },
    ghost told: { AreAliases rows aliases.rows } by { aliases_once rows aliases.rows },
}

impl SignatureTable {
    /// The table of these signatures, by the paths of their modules. It takes time in proportion to their exports and the names in
    /// their aliases, times a logarithm.
    ///
    /// # Errors
    ///
    /// `NoMemory` where memory is refused.
    pub fn build(alloc: Global, rows: List<(Path, Shared<Sig>)>) -> Result<SignatureTable, NoMemory>
        ensures { IfOk result (λ table. table.rows ≡ rows) }
    {
        let all = rows.as_slice();
        let places = places_of(alloc, all)?;
        let exports = exports_of(alloc, all)?;
        let listed = aliases_of(alloc, &places, all)?;
        let aliases = Aliases::build(alloc, listed)?;
        let aliases = Shared::new(alloc, aliases)?;
        Ok(SignatureTable {
            rows,
            places,
            exports,
            aliases,
        })
    }

    /// How many signatures there are.
    pub fn len(&self) -> usize
        ensures { result ≡ length self.now.rows }
    {
        self.rows.len()
    }

    /// The exports of the module at a path, if there is one.
    pub fn exports(&self, path: &Path) -> Option<&Exports>
        ensures { option_map (λ own. own.sig) (option_copied result) ≡ row_at self.now.rows path.now }
    {
        match self.places.get(path) {
            Some(place) => self.exports.get(*place),
            None => None,
        }
    }

    /// The aliases of all signatures.
    pub fn aliases(&self) -> &Shared<Aliases>
        ensures { AreAliases self.now.rows result.now.rows }
    {
        &self.aliases
    }
}
