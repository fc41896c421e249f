// The bindings of a module's top level, in order.
#![tactic(auto, using(named_rows::proofs::Lists::seen_more), unfolding(code_tree::specs::View::declaration_view, code_tree::specs::View::function_view))]

ghost use Rattle.std.specs.Prelude.{◌≡◌, ◌++◌, OnOk, IfOk};
ghost use Rattle.std.specs.List.{flat_map};
ghost use Rattle.code_tree.specs.View.{declaration_view, function_view};
ghost use Rattle.js_tree.specs.View.{imported_view, import_list_view, import_form_view, alias_view, export_form_view, item_view};
ghost use Rattle.js_grammar.specs.Items.{import_default};
ghost use Rattle.local_signatures.specs.Scope.{bound_imported, bound_list, bound_by_import, bound_by_declaration, bound_by_function, bound_by_alias, bound_by_export, bound_by};
ghost use Rattle.named_rows.specs.Seen.{seen};
ghost use Rattle.sig_extract.specs.Seen.{binding_view};

use code_tree::{Declaration, Function};
use flow_values::{NoMemory, Text};
use js_tree::{Alias, ExportForm, ImportForm, ImportList, Imported, Item, ItemForm};
use std::alloc::Global;
use type_tree::TypeTree;

/// What a name of the top level is bound to.
#[derive(Clone, Copy)]
pub enum Binding<'a> {
    /// A name of another module; `None` is the default export.
    Import {
        specifier: &'a Text,
        name: Option<&'a Text>,
        is_type: bool,
    },
    Variable(&'a Declaration),
    Function(&'a Function),
    Alias(&'a TypeTree),
}

/// Names and what they are bound to.
pub type Rows<'a> = Vec<(Text, Binding<'a>)>;

fn bind_imported<'a>(
    is_type: bool,
    specifier: &'a Text,
    imported: &'a Imported,
    rows: &mut Rows<'a>,
) -> Result<(), NoMemory>
    ensures { OnOk result (seen binding_view rows.new.items ≡ seen binding_view rows.old.items ++ bound_imported is_type specifier.now (imported_view imported.now)) }
{
    let outer = match &imported.renamed {
        Some(outer) => outer,
        None => &imported.name,
    };
    let name = Some(outer);
    rows.push((
        imported.name.share()?,
        Binding::Import {
            specifier,
            name,
            is_type,
        },
    ))?;
    Ok(())
}

#[tactic(auto, using(named_rows::proofs::Lists::flat_more))]
fn bind_list<'a>(
    is_type: bool,
    specifier: &'a Text,
    list: &'a ImportList,
    rows: &mut Rows<'a>,
) -> Result<(), NoMemory>
    ensures { OnOk result (seen binding_view rows.new.items ≡ seen binding_view rows.old.items ++ bound_list is_type specifier.now (import_list_view list.now)) }
{
    let names = list.names.as_slice();
    for i in 0..names.len() {
        bind_imported(is_type, specifier, &names[i], rows)?;
    }
    Ok(())
}

fn bind_default<'a>(
    specifier: &'a Text,
    local: &'a Text,
    rows: &mut Rows<'a>,
) -> Result<(), NoMemory>
    ensures { OnOk result (seen binding_view rows.new.items ≡ seen binding_view rows.old.items ++ bound_by_import specifier.now (import_default local.now)) }
{
    rows.push((
        local.share()?,
        Binding::Import {
            specifier,
            name: None,
            is_type: false,
        },
    ))?;
    Ok(())
}

fn bind_import<'a>(
    specifier: &'a Text,
    form: &'a ImportForm,
    rows: &mut Rows<'a>,
) -> Result<(), NoMemory>
    ensures { OnOk result (seen binding_view rows.new.items ≡ seen binding_view rows.old.items ++ bound_by_import specifier.now (import_form_view form.now)) }
{
    match form {
        ImportForm::Default(local) => bind_default(specifier, local, rows),
        ImportForm::Both { default, names } => {
            bind_default(specifier, default, rows)?;
            bind_list(false, specifier, names, rows)
        }
        ImportForm::Names(names) => bind_list(false, specifier, names, rows),
        ImportForm::Types(names) => bind_list(true, specifier, names, rows),
        ImportForm::Only => Ok(()),
    }
}

fn bind_declaration<'a>(d: &'a Declaration, rows: &mut Rows<'a>) -> Result<(), NoMemory>
    ensures { OnOk result (seen binding_view rows.new.items ≡ seen binding_view rows.old.items ++ bound_by_declaration (declaration_view d.now)) }
{
    rows.push((d.name.share()?, Binding::Variable(d)))?;
    Ok(())
}

fn bind_function<'a>(f: &'a Function, rows: &mut Rows<'a>) -> Result<(), NoMemory>
    ensures { OnOk result (seen binding_view rows.new.items ≡ seen binding_view rows.old.items ++ bound_by_function (function_view f.now)) }
{
    if let Some(name) = &f.name {
        rows.push((name.share()?, Binding::Function(f)))?;
    }
    Ok(())
}

fn bind_alias<'a>(alias: &'a Alias, rows: &mut Rows<'a>) -> Result<(), NoMemory>
    ensures { OnOk result (seen binding_view rows.new.items ≡ seen binding_view rows.old.items ++ bound_by_alias (alias_view alias.now)) }
{
    rows.push((alias.name.share()?, Binding::Alias(&alias.ty)))?;
    Ok(())
}

fn bind_export<'a>(form: &'a ExportForm, rows: &mut Rows<'a>) -> Result<(), NoMemory>
    ensures { OnOk result (seen binding_view rows.new.items ≡ seen binding_view rows.old.items ++ bound_by_export (export_form_view form.now)) }
{
    match form {
        ExportForm::Declaration(d) => bind_declaration(d, rows),
        ExportForm::Function(f) | ExportForm::DefaultFunction(f) => bind_function(f, rows),
        ExportForm::Alias(alias) => bind_alias(alias, rows),
        ExportForm::Names { .. } | ExportForm::From { .. } | ExportForm::Default(_) => Ok(()),
    }
}

fn bind_item<'a>(item: &'a Item, rows: &mut Rows<'a>) -> Result<(), NoMemory>
    ensures { OnOk result (seen binding_view rows.new.items ≡ seen binding_view rows.old.items ++ bound_by (item_view item.now)) }
{
    match &item.form {
        ItemForm::Import { form, specifier } => bind_import(specifier, form, rows),
        ItemForm::Export(form) => bind_export(form, rows),
        ItemForm::Declaration(d) => bind_declaration(d, rows),
        ItemForm::Function(f) => bind_function(f, rows),
        ItemForm::Alias(alias) => bind_alias(alias, rows),
        ItemForm::Simple(_) => Ok(()),
    }
}

// Every binding of the top level, in order.
#[tactic(auto, using(named_rows::proofs::Lists::flat_more))]
pub fn bindings<'a>(alloc: Global, items: &'a [Item]) -> Result<Rows<'a>, NoMemory>
    ensures { IfOk result (λ rows. seen binding_view rows.items ≡ flat_map (λ item. bound_by (item_view item)) items.now) }
{
    let mut rows = Vec::new(alloc);
    for i in 0..items.len() {
        bind_item(&items[i], &mut rows)?;
    }
    Ok(rows)
}
