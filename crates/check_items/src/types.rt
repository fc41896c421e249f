//! What the names of a module stand for as types.
ghost use Rattle.std.specs.Prelude.{◌≡◌, ◌++◌, Option, OnOk, IfOk};
ghost use Rattle.std.specs.List.{flat_map};
ghost use Rattle.std.specs.Option.{option_to_list};
ghost use Rattle.check_values.specs.Rows.{Bytes, row_at, first_of_each};
ghost use Rattle.check_values.specs.declared.signatures.Deps.{Deps};
ghost use Rattle.check_values.specs.declared.signatures.Sig.{Sig};
ghost use Rattle.check_world.specs.View.{meaning_view, meaning_in};
ghost use Rattle.js_tree.specs.View.{items_view};
ghost use Rattle.local_signatures.specs.Scope.{items_from, bound_by};
ghost use Rattle.module_errors.specs.Program.{type_bound};
ghost use Rattle.named_rows.specs.Seen.{seen};
ghost use Rattle.check_items.specs.View.{SaysOf};
ghost use Rattle.check_items.specs.Meant.{meant, meant_view, meaning_of, AreNamed, own_row, own_rows};
ghost use Rattle.check_items.specs.Aliases.{own_aliases};

use crate::naming::{Meant, Rows, all_names};
use alias_table::AliasRow;
use check_values::Code;
use check_world::{TypeMeaning, TypeScope};
use flow_values::{NoMemory, Path, Text};
use import_sayings::Imports;
use js_tree::Item;
use named_rows::first_of_each;
use std::alloc::Global;
use tree_typing::type_of_tree;
use type_values::FlowType;

/// What the names of a module stand for as types, and the first row of each name.
#[derive(Drop)]
pub struct Types<'m> {
    pub names: TypeScope,
    rows: Rows<'m>,
}

// What a name of the module at a path means as a type.
fn meaning_of(
    home: &Path,
    imports: &Imports<'_>,
    name: &Text,
    what: Meant<'_>,
) -> Result<TypeMeaning, NoMemory>
    ensures { IfOk result (λ meaning. meaning_view meaning ≡ meaning_of imports.now home.now name.now (meant_view what.entry)) }
{
    match what {
        Meant::Value => Ok(TypeMeaning::NoType(Code::ValueAsType)),
        Meant::Imported { specifier, outer } => {
            let ty = imports.said(specifier, outer).type_name()?;
            Ok(TypeMeaning::Type(ty))
        }
        Meant::Alias(_) => Ok(TypeMeaning::Type(FlowType::Ref {
            module: home.share()?,
            name: name.share()?,
        })),
    }
}

// What names of the module at a path mean as types; the first row of a name counts.
fn meanings(
    alloc: Global,
    home: &Path,
    imports: &Imports<'_>,
    rows: &[(Text, Meant<'_>)],
) -> Result<TypeScope, NoMemory>
    ensures { IfOk result (λ names. AreNamed imports.now home.now (seen meant_view rows.now) names) }
{
    let mut names = TypeScope::new(alloc);
    for i in 0..rows.len() {
        let row = &rows[i];
        let meaning = meaning_of(home, imports, &row.0, row.1)?;
        names.add(row.0.share()?, meaning)?;
    }
    Ok(names)
}

/// What the names of the items of the module at a path stand for as types; of two bindings of one name
/// the first counts.
///
/// # Errors
///
/// `NoMemory` where memory is refused.
pub fn types_of<'m>(
    alloc: Global,
    home: &Path,
    imports: &Imports<'_>,
    items: &'m [Item],
) -> Result<Types<'m>, NoMemory>
    ensures names { (deps : Deps) (sigs : Bytes → Option Sig) → SaysOf imports.now deps sigs → IfOk result (λ types. (name : Bytes) → meaning_in types.names name ≡ type_bound home.now deps sigs name (row_at (first_of_each (flat_map bound_by (items_from (items_view items.now)))) name)) }
    ensures aliases { (path : Bytes) → IfOk result (λ types. own_aliases path types ≡ own_rows path (meaning_in types.names) (seen meant (first_of_each (flat_map bound_by (items_from (items_view items.now)))))) }
{
    let all = all_names(alloc, items)?;
    let rows = first_of_each(alloc, all.as_slice())?;
    let names = meanings(alloc, home, imports, rows.as_slice())?;
    Ok(Types { names, rows })
}

// Adds the alias that a name of the module at a path is, if it is one.
fn add_alias(
    alloc: Global,
    home: &Path,
    names: &TypeScope,
    row: &(Text, Meant<'_>),
    out: &mut Vec<AliasRow>,
) -> Result<(), NoMemory>
    ensures { OnOk result (out.new.items ≡ out.old.items ++ option_to_list (own_row home.now (meaning_in names.now) (row.now.0, meant_view row.now.1))) }
{
    match row.1 {
        Meant::Alias(tree) => {
            let ty = type_of_tree(alloc, names, tree)?;
            out.push((home.share()?, row.0.share()?, ty))?;
            Ok(())
        }
        Meant::Value
        | Meant::Imported {
            specifier: _,
            outer: _,
        } => Ok(()),
    }
}

impl Types<'_> {
    /// Adds the aliases of the module itself, which is at a path.
    ///
    /// # Errors
    ///
    /// `NoMemory` where memory is refused. Some of the aliases may be there then.
    pub fn add_aliases(
        &self,
        alloc: Global,
        home: &Path,
        out: &mut Vec<AliasRow>,
    ) -> Result<(), NoMemory>
        ensures { OnOk result (out.new.items ≡ out.old.items ++ own_aliases home.now self.now) }
    {
        let rows = self.rows.as_slice();
        for i in 0..rows.len() {
            add_alias(alloc, home, &self.names, &rows[i], out)?;
        }
        Ok(())
    }

    /// What the names stand for, alone.
    pub fn into_names(self) -> TypeScope
        ensures { result ≡ self.entry.names }
    {
        let Types { names, rows: _ } = self;
        names
    }
}
