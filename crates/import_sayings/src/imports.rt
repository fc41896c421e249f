//! The modules that specifiers find, and what their merged signatures say.
ghost use Rattle.std.specs.Prelude.{◌≡◌, List, ℕ, Some, IfOk};
ghost use Rattle.std.specs.Option.{option_copied};
ghost use Rattle.check_values.specs.Rows.{row_at};
ghost use Rattle.merged_signatures.specs.Chains.{found};
ghost use Rattle.errors_by_reach.specs.module_errors.specs.Program.{said_by_sig};
ghost use Rattle.import_sayings.specs.View.{saying_view, found_by_row, found_of, said_of};

use crate::saying::Saying;
use check_values::Deps;
use flow_values::{NoMemory, Path, Text};
use named_rows::{by_name, found_rows};
use signature_table::{Exports, SignatureTable};
use std::alloc::Global;
use std::collections::BTreeMap;

/// The module that each specifier finds.
type Found<'j> = BTreeMap<Text, Option<&'j Path>>;

/// The modules that the specifiers of a module find, and what their merged signatures say.
#[derive(Drop)]
pub struct Imports<'j> {
    found: Found<'j>,
    table: &'j SignatureTable,
}

// The module that each specifier finds.
fn found_by<'j>(alloc: Global, deps: &'j Deps) -> Result<Found<'j>, NoMemory>
    ensures { IfOk result (λ names. (spec : List ℕ) → found_by_row names spec ≡ found deps.now spec) }
{
    let rows = found_rows(alloc, deps.rows.as_slice())?;
    let found = by_name(alloc, rows)?;
    Ok(found)
}

// The module that a specifier finds.
fn path_of<'j>(found: &Found<'j>, spec: &Text) -> Option<&'j Path>
    ensures { option_copied result ≡ found_by_row found.now spec.now }
{
    *found.get(spec)?
}

// What is said of a name by the exports of a module.
fn said_by<'j>(exports: &'j Exports, name: &Text) -> Saying<'j>
    ensures { saying_view result ≡ said_by_sig name.now (Some exports.now.sig) }
{
    if exports.is_broken() {
        return Saying::Nothing;
    }
    match exports.get(name) {
        None => Saying::Lacks,
        Some(export) => Saying::Says(export),
    }
}

// What is said of a name by the signature of the module at a path, if it has one.
fn said_at<'j>(table: &'j SignatureTable, path: &Path, name: &Text) -> Saying<'j>
    ensures { saying_view result ≡ said_by_sig name.now (row_at table.now.rows path.now) }
{
    match table.exports(path) {
        None => Saying::Nothing,
        Some(exports) => said_by(exports, name),
    }
}

impl<'j> Imports<'j> {
    /// What a module sees by its dependency list and the merged signatures of others.
    ///
    /// # Errors
    ///
    /// `NoMemory` where memory is refused.
    pub fn new(
        alloc: Global,
        deps: &'j Deps,
        table: &'j SignatureTable,
    ) -> Result<Imports<'j>, NoMemory>
        ensures found { IfOk result (λ imports. (spec : List ℕ) → found_of imports spec ≡ found deps.now spec) }
        ensures table { IfOk result (λ imports. imports.table.now ≡ table.now) }
    {
        let found = found_by(alloc, deps)?;
        Ok(Imports { found, table })
    }

    /// The module that a specifier finds.
    pub fn found(&self, spec: &Text) -> Option<&'j Path>
        ensures { option_copied result ≡ found_of self.now spec.now }
    {
        path_of(&self.found, spec)
    }

    /// What the module that a specifier finds says of a name.
    pub fn said(&self, spec: &Text, name: &Text) -> Saying<'j>
        ensures { saying_view result ≡ said_of self.now spec.now name.now }
    {
        let Some(path) = self.found(spec) else {
            return Saying::Nothing;
        };
        said_at(self.table, path, name)
    }
}
