//! What the names of a module's top level are, as types.
#![tactic(auto, using(named_rows::proofs::Lists::seen_more), unfolding(code_tree::specs::View::declaration_view, code_tree::specs::View::function_view))]

ghost use Rattle.std.specs.Prelude.{◌≡◌, ◌++◌, OnOk, IfOk, unwrap_or};
ghost use Rattle.std.specs.List.{flat_map};
ghost use Rattle.code_tree.specs.View.{declaration_view, function_view};
ghost use Rattle.js_grammar.specs.Items.{import_default};
ghost use Rattle.js_tree.specs.View.{imported_view, import_list_view, import_form_view, alias_view, export_form_view, item_view, items_view};
ghost use Rattle.local_signatures.specs.Scope.{bound_import, bound_imported, bound_list, bound_by_import, bound_by_declaration, bound_by_function, bound_by_alias, bound_by_export, bound_by, items_from};
ghost use Rattle.named_rows.specs.Seen.{seen};
ghost use Rattle.check_items.specs.Meant.{meant, meant_view};

use code_tree::{Declaration, Function};
use flow_values::{NoMemory, Text};
use js_tree::{Alias, ExportForm, ImportForm, ImportList, Imported, Item, ItemForm};
use std::alloc::Global;
use type_tree::TypeTree;

/// What a name of the top level is, as a type.
#[derive(Clone, Copy)]
pub(crate) enum Meant<'m> {
    /// The name of a value.
    Value,
    /// A type of the module that a specifier finds.
    Imported {
        specifier: &'m Text,
        outer: &'m Text,
    },
    /// The name of this type.
    Alias(&'m TypeTree),
}

/// Names, and what each of them is.
pub(crate) type Rows<'m> = Vec<(Text, Meant<'m>)>;

/// The name of an imported name in the module that it comes from.
pub(crate) fn outer_name(imported: &Imported) -> &Text
    ensures { result.now ≡ unwrap_or imported.now.renamed imported.now.name }
{
    match &imported.renamed {
        Some(outer) => outer,
        None => &imported.name,
    }
}

// An imported name, as a type (true) or as a value.
fn imported_as<'m>(is_type: bool, specifier: &'m Text, imported: &'m Imported) -> Meant<'m>
    ensures { meant_view result ≡ meant (bound_import specifier.now (unwrap_or imported.now.renamed imported.now.name) is_type) }
{
    if is_type {
        let outer = outer_name(imported);
        Meant::Imported { specifier, outer }
    } else {
        Meant::Value
    }
}

fn add_imported<'m>(
    is_type: bool,
    specifier: &'m Text,
    imported: &'m Imported,
    rows: &mut Rows<'m>,
) -> Result<(), NoMemory>
    ensures { OnOk result (seen meant_view rows.new.items ≡ seen meant_view rows.old.items ++ seen meant (bound_imported is_type specifier.now (imported_view imported.now))) }
{
    let what = imported_as(is_type, specifier, imported);
    rows.push((imported.name.share()?, what))?;
    Ok(())
}

fn add_list<'m>(
    is_type: bool,
    specifier: &'m Text,
    list: &'m ImportList,
    rows: &mut Rows<'m>,
) -> Result<(), NoMemory>
    ensures { OnOk result (seen meant_view rows.new.items ≡ seen meant_view rows.old.items ++ seen meant (bound_list is_type specifier.now (import_list_view list.now))) }
{
    let names = list.names.as_slice();
    for i in 0..names.len() {
        add_imported(is_type, specifier, &names[i], rows)?;
    }
    Ok(())
}

// The name of a default export, which is one of a value.
fn add_default(specifier: &Text, local: &Text, rows: &mut Rows<'_>) -> Result<(), NoMemory>
    ensures { OnOk result (seen meant_view rows.new.items ≡ seen meant_view rows.old.items ++ seen meant (bound_by_import specifier.now (import_default local.now))) }
{
    rows.push((local.share()?, Meant::Value))?;
    Ok(())
}

fn add_import<'m>(
    specifier: &'m Text,
    form: &'m ImportForm,
    rows: &mut Rows<'m>,
) -> Result<(), NoMemory>
    ensures { OnOk result (seen meant_view rows.new.items ≡ seen meant_view rows.old.items ++ seen meant (bound_by_import specifier.now (import_form_view form.now))) }
{
    match form {
        ImportForm::Default(local) => add_default(specifier, local, rows),
        ImportForm::Both { default, names } => {
            add_default(specifier, default, rows)?;
            add_list(false, specifier, names, rows)
        }
        ImportForm::Names(names) => add_list(false, specifier, names, rows),
        ImportForm::Types(names) => add_list(true, specifier, names, rows),
        ImportForm::Only => Ok(()),
    }
}

fn add_declaration(declaration: &Declaration, rows: &mut Rows<'_>) -> Result<(), NoMemory>
    ensures { OnOk result (seen meant_view rows.new.items ≡ seen meant_view rows.old.items ++ seen meant (bound_by_declaration (declaration_view declaration.now))) }
{
    rows.push((declaration.name.share()?, Meant::Value))?;
    Ok(())
}

// A function's name, if it has one.
fn add_function(function: &Function, rows: &mut Rows<'_>) -> Result<(), NoMemory>
    ensures { OnOk result (seen meant_view rows.new.items ≡ seen meant_view rows.old.items ++ seen meant (bound_by_function (function_view function.now))) }
{
    let Some(name) = &function.name else {
        return Ok(());
    };
    rows.push((name.share()?, Meant::Value))?;
    Ok(())
}

fn add_alias<'m>(alias: &'m Alias, rows: &mut Rows<'m>) -> Result<(), NoMemory>
    ensures { OnOk result (seen meant_view rows.new.items ≡ seen meant_view rows.old.items ++ seen meant (bound_by_alias (alias_view alias.now))) }
{
    rows.push((alias.name.share()?, Meant::Alias(&alias.ty)))?;
    Ok(())
}

fn add_export<'m>(form: &'m ExportForm, rows: &mut Rows<'m>) -> Result<(), NoMemory>
    ensures { OnOk result (seen meant_view rows.new.items ≡ seen meant_view rows.old.items ++ seen meant (bound_by_export (export_form_view form.now))) }
{
    match form {
        ExportForm::Declaration(declaration) => add_declaration(declaration, rows),
        ExportForm::Function(function) | ExportForm::DefaultFunction(function) => {
            add_function(function, rows)
        }
        ExportForm::Alias(alias) => add_alias(alias, rows),
        ExportForm::Names { .. } | ExportForm::From { .. } | ExportForm::Default(_) => Ok(()),
    }
}

fn add_item<'m>(item: &'m Item, rows: &mut Rows<'m>) -> Result<(), NoMemory>
    ensures { OnOk result (seen meant_view rows.new.items ≡ seen meant_view rows.old.items ++ seen meant (bound_by (item_view item.now))) }
{
    match &item.form {
        ItemForm::Import { form, specifier } => add_import(specifier, form, rows),
        ItemForm::Export(form) => add_export(form, rows),
        ItemForm::Declaration(declaration) => add_declaration(declaration, rows),
        ItemForm::Function(function) => add_function(function, rows),
        ItemForm::Alias(alias) => add_alias(alias, rows),
        ItemForm::Simple(_) => Ok(()),
    }
}

/// Every name of the top level in order, also those that are there before.
///
/// # Errors
///
/// `NoMemory` where memory is refused.
pub(crate) fn all_names<'m>(alloc: Global, items: &'m [Item]) -> Result<Rows<'m>, NoMemory>
    ensures { IfOk result (λ rows. seen meant_view rows.items ≡ seen meant (flat_map bound_by (items_from (items_view items.now)))) }
{
    let mut rows = Vec::new(alloc);
    for i in 0..items.len() {
        add_item(&items[i], &mut rows)?;
    }
    Ok(rows)
}
