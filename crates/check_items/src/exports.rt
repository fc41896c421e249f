//! What a module exports a second time.
#![tactic(auto, unfolding(code_tree::specs::View::declaration_view, code_tree::specs::View::function_view))]

ghost use Rattle.std.specs.Prelude.{◌≡◌, ◌++◌, ◌∷◌, [], List, OnOk, IfOk};
ghost use Rattle.check_values.specs.Rows.{Bytes};
ghost use Rattle.check_world.specs.View.{world_view, notes_view};
ghost use Rattle.js_grammar.specs.Items.{no_exported, more_exported};
ghost use Rattle.code_tree.specs.View.{function_view};
ghost use Rattle.js_tree.specs.View.{exported_view, export_list_view, export_form_view, item_form_view, items_view};
ghost use Rattle.local_signatures.specs.Scope.{default_name};
ghost use Rattle.module_errors.specs.TopNames.{exportings_in, exportings_of_list, exporting_of_function, exportings, exportings_of_item, exportings_of, exported_twice};
ghost use Rattle.check_items.specs.Exported.{IsBefore};

use check_values::Code;
use check_world::{Notes, World};
use code_tree::Function;
use flow_values::{NoMemory, Text};
use js_tree::{ExportForm, ExportList, Exported, Item, ItemForm};
use part_steps::next;
use std::alloc::Global;
use std::collections::BTreeSet;

// Exported names, each at its token.
type Exportings = Vec<(usize, Text)>;

// The default export, at a token.
fn add_default(alloc: Global, token: usize, out: &mut Exportings) -> Result<(), NoMemory>
    ensures { OnOk result (out.new.items ≡ out.old.items ++ (token, default_name) ∷ []) }
{
    out.push((token, Text::from_bytes(alloc, b"default")?))?;
    Ok(())
}

// A name of a list, at its last word.
fn add_listed(exported: &Exported, out: &mut Exportings) -> Result<(), NoMemory>
    ensures { OnOk result (out.new.items ≡ out.old.items ++ exportings_in (more_exported no_exported (exported_view exported.now))) }
{
    let name = match &exported.renamed {
        Some(name) => name,
        None => &exported.name,
    };
    out.push((exported.end.saturating_sub(1), name.share()?))?;
    Ok(())
}

fn add_list(list: &ExportList, out: &mut Exportings) -> Result<(), NoMemory>
    ensures { OnOk result (out.new.items ≡ out.old.items ++ exportings_of_list (export_list_view list.now)) }
{
    let names = list.names.as_slice();
    for i in 0..names.len() {
        add_listed(&names[i], out)?;
    }
    Ok(())
}

// A function's name; one without stands as the default export.
fn add_function(alloc: Global, function: &Function, out: &mut Exportings) -> Result<(), NoMemory>
    ensures { OnOk result (out.new.items ≡ out.old.items ++ exporting_of_function (function_view function.now) ∷ []) }
{
    let token = next(function.first)?;
    match &function.name {
        Some(name) => {
            out.push((token, name.share()?))?;
            Ok(())
        }
        None => add_default(alloc, token, out),
    }
}

// The names of an export that begins at a token.
fn add_export(
    alloc: Global,
    first: usize,
    form: &ExportForm,
    out: &mut Exportings,
) -> Result<(), NoMemory>
    ensures { OnOk result (out.new.items ≡ out.old.items ++ exportings first (export_form_view form.now)) }
{
    match form {
        ExportForm::Declaration(declaration) => {
            out.push((next(declaration.first)?, declaration.name.share()?))?;
            Ok(())
        }
        ExportForm::Function(function) => add_function(alloc, function, out),
        ExportForm::Alias(alias) => {
            out.push((next(alias.first)?, alias.name.share()?))?;
            Ok(())
        }
        ExportForm::Names { types: _, list }
        | ExportForm::From {
            types: _,
            list,
            specifier: _,
        } => add_list(list, out),
        ExportForm::DefaultFunction(_) | ExportForm::Default(_) => {
            add_default(alloc, next(first)?, out)
        }
    }
}

// The names that an item exports.
fn add_item(alloc: Global, item: &Item, out: &mut Exportings) -> Result<(), NoMemory>
    ensures { OnOk result (out.new.items ≡ out.old.items ++ exportings_of_item item.now.first (item_form_view item.now.form)) }
{
    match &item.form {
        ItemForm::Export(form) => add_export(alloc, item.first, form, out),
        ItemForm::Import {
            form: _,
            specifier: _,
        }
        | ItemForm::Declaration(_)
        | ItemForm::Function(_)
        | ItemForm::Alias(_)
        | ItemForm::Simple(_) => Ok(()),
    }
}

// The exported names of items, in order.
fn all_exportings(alloc: Global, items: &[Item]) -> Result<Exportings, NoMemory>
    ensures { IfOk result (λ all. all.items ≡ exportings_of (items_view items.now)) }
{
    let mut all = Vec::new(alloc);
    for i in 0..items.len() {
        add_item(alloc, &items[i], &mut all)?;
    }
    Ok(all)
}

// One more exported name; a second one is a fault.
#[tactic(auto, using(crate::proofs::SecondExports::first_export, crate::proofs::SecondExports::second_export))]
fn note_export(
    world: &World<'_>,
    before: &mut BTreeSet<Text>,
    exporting: &(usize, Text),
    notes: &mut Notes,
) -> Result<(), NoMemory>
    ensures before { (names : List Bytes) → IsBefore names before.old → OnOk result (IsBefore (exporting.now.1 ∷ names) before.new) }
    ensures notes { (names : List Bytes) → IsBefore names before.old → OnOk result (notes_view notes.new ≡ exported_twice (world_view world.now) names (exporting.now ∷ []) (notes_view notes.old)) }
{
    if before.insert(exporting.1.share()?)? {
        return Ok(());
    }
    notes.name_at(world, exporting.0, Code::NameAlreadyBound, &exporting.1)?;
    Ok(())
}

/// Notes each second export of a name.
///
/// # Errors
///
/// `NoMemory` where memory is refused.
#[tactic(auto, using(crate::proofs::SecondExports::before_none))]
pub fn note_second_exports(
    world: &World<'_>,
    items: &[Item],
    notes: &mut Notes,
) -> Result<(), NoMemory>
    ensures { OnOk result (notes_view notes.new ≡ exported_twice (world_view world.now) [] (exportings_of (items_view items.now)) (notes_view notes.old)) }
{
    let all = all_exportings(world.alloc, items)?;
    let all = all.as_slice();
    let mut before = BTreeSet::new(world.alloc);
    for i in 0..all.len() {
        note_export(world, &mut before, &all[i], notes)?;
    }
    Ok(())
}
