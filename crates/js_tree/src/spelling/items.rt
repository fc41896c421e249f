// The tokens of items and modules, and after them those that `tail` had.
#![tactic(auto, using(crate::proofs::ItemLists::item_lists))]

ghost use Rattle.std.specs.Prelude.{◌≡◌, IfOk, OnOk};
ghost use Rattle.js_grammar.specs.Items.{spell_imported, spell_importeds, spell_import_list, spell_exported, spell_exporteds, spell_export_list, spell_import, spell_alias, spell_export, spell_item, spell_items, spell_module};
ghost use Rattle.js_tree.specs.View.{imported_view, importeds_view, import_list_view, exported_view, exporteds_view, export_list_view, import_form_view, alias_view, export_form_view, item_view, items_view, module_view};

use crate::spelling::code::{spell_declaration, spell_expr, spell_function, spell_simple};
use crate::spelling::tail::Tail;
use crate::spelling::types::spell_type;
use crate::{
    Alias, ExportForm, ExportList, Exported, ImportForm, ImportList, Imported, Item, ItemForm,
    Module,
};
use flow_values::{List, NoMemory};
use js_token::{Punct, TokenKind};
use std::alloc::Global;

/// The tokens that a module is spelled with. No bytes of a name, a number or a string are copied.
///
/// # Errors
///
/// `NoMemory` where memory is refused.
pub fn spell(alloc: Global, tree: &Module) -> Result<List<TokenKind>, NoMemory>
    ensures { IfOk result (λ kinds. kinds ≡ spell_module (module_view tree.now)) }
{
    let mut tail = Tail::new(alloc);
    spell_items(tree.items.as_slice(), &mut tail)?;
    Ok(tail.into_list())
}

fn spell_items(items: &[Item], tail: &mut Tail) -> Result<(), NoMemory>
    ensures { OnOk result (tail.new ≡ spell_items (items_view items.now) tail.old) }
{
    for i in (0..items.len()).rev() {
        spell_item(&items[i], tail)?;
    }
    Ok(())
}

fn spell_item(item: &Item, tail: &mut Tail) -> Result<(), NoMemory>
    ensures { OnOk result (tail.new ≡ spell_item (item_view item.now) tail.old) }
{
    match &item.form {
        ItemForm::Import { form, specifier } => {
            tail.mark(Punct::Semicolon)?;
            tail.string(specifier)?;
            spell_import(form, tail)?;
            tail.word(b"import")
        }
        ItemForm::Export(form) => {
            spell_export(form, tail)?;
            tail.word(b"export")
        }
        ItemForm::Declaration(declaration) => {
            tail.mark(Punct::Semicolon)?;
            spell_declaration(declaration, tail)
        }
        ItemForm::Function(function) => spell_function(function, tail),
        ItemForm::Alias(alias) => {
            tail.mark(Punct::Semicolon)?;
            spell_alias(alias, tail)
        }
        ItemForm::Simple(simple) => {
            tail.mark(Punct::Semicolon)?;
            spell_simple(simple, tail)
        }
    }
}

fn spell_import(form: &ImportForm, tail: &mut Tail) -> Result<(), NoMemory>
    ensures { OnOk result (tail.new ≡ spell_import (import_form_view form.now) tail.old) }
{
    match form {
        ImportForm::Default(name) => {
            tail.word(b"from")?;
            tail.name(name)
        }
        ImportForm::Both { default, names } => {
            tail.word(b"from")?;
            spell_import_list(names, tail)?;
            tail.mark(Punct::Comma)?;
            tail.name(default)
        }
        ImportForm::Names(names) => {
            tail.word(b"from")?;
            spell_import_list(names, tail)
        }
        ImportForm::Types(names) => {
            tail.word(b"from")?;
            spell_import_list(names, tail)?;
            tail.word(b"type")
        }
        ImportForm::Only => Ok(()),
    }
}

fn spell_import_list(list: &ImportList, tail: &mut Tail) -> Result<(), NoMemory>
    ensures { OnOk result (tail.new ≡ spell_import_list (import_list_view list.now) tail.old) }
{
    tail.mark(Punct::CloseBrace)?;
    tail.mark_if(list.comma, Punct::Comma)?;
    spell_all_imported(list.names.as_slice(), tail)?;
    tail.mark(Punct::OpenBrace)
}

fn spell_all_imported(names: &[Imported], tail: &mut Tail) -> Result<(), NoMemory>
    ensures { OnOk result (tail.new ≡ spell_importeds (importeds_view names.now) tail.old) }
{
    for i in (0..names.len()).rev() {
        tail.mark_if(i + 1 < names.len(), Punct::Comma)?;
        spell_imported(&names[i], tail)?;
    }
    Ok(())
}

fn spell_imported(imported: &Imported, tail: &mut Tail) -> Result<(), NoMemory>
    ensures { OnOk result (tail.new ≡ spell_imported (imported_view imported.now) tail.old) }
{
    tail.name(&imported.name)?;
    match &imported.renamed {
        None => Ok(()),
        Some(renamed) => {
            tail.word(b"as")?;
            tail.name(renamed)
        }
    }
}

fn spell_export(form: &ExportForm, tail: &mut Tail) -> Result<(), NoMemory>
    ensures { OnOk result (tail.new ≡ spell_export (export_form_view form.now) tail.old) }
{
    match form {
        ExportForm::Declaration(declaration) => {
            tail.mark(Punct::Semicolon)?;
            spell_declaration(declaration, tail)
        }
        ExportForm::Function(function) => spell_function(function, tail),
        ExportForm::Alias(alias) => {
            tail.mark(Punct::Semicolon)?;
            spell_alias(alias, tail)
        }
        ExportForm::Names { types, list } => {
            tail.mark(Punct::Semicolon)?;
            spell_export_list(list, tail)?;
            tail.word_if(*types, b"type")
        }
        ExportForm::From {
            types,
            list,
            specifier,
        } => {
            tail.mark(Punct::Semicolon)?;
            tail.string(specifier)?;
            tail.word(b"from")?;
            spell_export_list(list, tail)?;
            tail.word_if(*types, b"type")
        }
        ExportForm::DefaultFunction(function) => {
            spell_function(function, tail)?;
            tail.word(b"default")
        }
        ExportForm::Default(value) => {
            tail.mark(Punct::Semicolon)?;
            spell_expr(value, tail)?;
            tail.word(b"default")
        }
    }
}

fn spell_export_list(list: &ExportList, tail: &mut Tail) -> Result<(), NoMemory>
    ensures { OnOk result (tail.new ≡ spell_export_list (export_list_view list.now) tail.old) }
{
    tail.mark(Punct::CloseBrace)?;
    tail.mark_if(list.comma, Punct::Comma)?;
    spell_all_exported(list.names.as_slice(), tail)?;
    tail.mark(Punct::OpenBrace)
}

fn spell_all_exported(names: &[Exported], tail: &mut Tail) -> Result<(), NoMemory>
    ensures { OnOk result (tail.new ≡ spell_exporteds (exporteds_view names.now) tail.old) }
{
    for i in (0..names.len()).rev() {
        tail.mark_if(i + 1 < names.len(), Punct::Comma)?;
        spell_exported(&names[i], tail)?;
    }
    Ok(())
}

fn spell_exported(exported: &Exported, tail: &mut Tail) -> Result<(), NoMemory>
    ensures { OnOk result (tail.new ≡ spell_exported (exported_view exported.now) tail.old) }
{
    if let Some(renamed) = &exported.renamed {
        tail.name(renamed)?;
        tail.word(b"as")?;
    }
    tail.name(&exported.name)
}

fn spell_alias(alias: &Alias, tail: &mut Tail) -> Result<(), NoMemory>
    ensures { OnOk result (tail.new ≡ spell_alias (alias_view alias.now) tail.old) }
{
    spell_type(&alias.ty, tail)?;
    tail.mark(Punct::Assign)?;
    tail.name(&alias.name)?;
    tail.word(b"type")
}
