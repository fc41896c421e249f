//! Names of other modules, and names that are handed on.
#![tactic(auto, using(crate::proofs::Sayings::specifier_there, crate::proofs::Sayings::specifier_missing, crate::proofs::Sayings::named_read, crate::proofs::Sayings::default_read))]

ghost use Rattle.std.specs.Prelude.{◌≡◌, ◌-◌, false, OnOk};
ghost use Rattle.check_values.specs.Rows.{row_at};
ghost use Rattle.check_world.specs.View.{world_view, notes_view};
ghost use Rattle.js_tree.specs.View.{import_list_view, import_form_view, export_list_view};
ghost use Rattle.local_signatures.specs.Scope as home;
ghost use Rattle.local_signatures.specs.Scope.{default_name};
ghost use Rattle.module_errors.specs.Program.{Program};
ghost use Rattle.module_errors.specs.Items.{specifier_read, wrong_at, imported_read, list_read, import_read, list_handed_on, wrong_export, exports_read};
ghost use Rattle.check_items.specs.View.{Says, NamesTypes, wrong_by};

use crate::naming::outer_name;
use check_values::Code;
use check_world::{Notes, World};
use flow_values::{NoMemory, Text};
use import_sayings::Imports;
use js_tree::{ExportList, Exported, ImportForm, ImportList};
use part_steps::next;
use type_terms::show_string;

// Notes a specifier at a token that finds no module.
fn read_specifier(
    world: &World<'_>,
    imports: &Imports<'_>,
    token: usize,
    spec: &Text,
    notes: &mut Notes,
) -> Result<(), NoMemory>
    ensures { (p : Program) → Says imports.now p → OnOk result (notes_view notes.new ≡ specifier_read (world_view world.now) p token spec.now (notes_view notes.old)) }
{
    match imports.found(spec) {
        Some(_) => Ok(()),
        None => {
            let details = show_string(world.alloc, spec.as_bytes())?;
            let code = Code::CannotResolveModule;
            notes.name_fault(world.token_fault(token, code, details))?;
            Ok(())
        }
    }
}

// Notes a name at a token, if anything is wrong with it.
fn note_wrong(
    world: &World<'_>,
    token: usize,
    name: &Text,
    wrong: Option<Code>,
    notes: &mut Notes,
) -> Result<(), NoMemory>
    ensures { OnOk result (notes_view notes.new ≡ wrong_at (world_view world.now) token name.now wrong (notes_view notes.old)) }
{
    match wrong {
        None => Ok(()),
        Some(code) => notes.name_at(world, token, code, name),
    }
}

// A name of another module, at a token, asked for as a type (true) or as a value.
fn read_name(
    world: &World<'_>,
    imports: &Imports<'_>,
    from: (bool, &Text),
    token: usize,
    name: &Text,
    notes: &mut Notes,
) -> Result<(), NoMemory>
    ensures { (p : Program) → Says imports.now p → OnOk result (notes_view notes.new ≡ imported_read (world_view world.now) p from.entry.0 from.entry.1.now token name.now (notes_view notes.old)) }
{
    let (is_type, spec) = from;
    let wrong = imports.said(spec, name).wrong(is_type);
    note_wrong(world, token, name, wrong, notes)?;
    Ok(())
}

// The imported names of a list, each at its first word.
fn read_list(
    world: &World<'_>,
    imports: &Imports<'_>,
    from: (bool, &Text),
    list: &ImportList,
    notes: &mut Notes,
) -> Result<(), NoMemory>
    ensures { (p : Program) → Says imports.now p → OnOk result (notes_view notes.new ≡ list_read (world_view world.now) p from.entry.0 from.entry.1.now (import_list_view list.now) (notes_view notes.old)) }
{
    let names = list.names.as_slice();
    for i in 0..names.len() {
        let imported = &names[i];
        read_name(
            world,
            imports,
            from,
            imported.first,
            outer_name(imported),
            notes,
        )?;
    }
    Ok(())
}

// The default export of another module, at a token.
fn read_default(
    world: &World<'_>,
    imports: &Imports<'_>,
    spec: &Text,
    token: usize,
    notes: &mut Notes,
) -> Result<(), NoMemory>
    ensures { (p : Program) → Says imports.now p → OnOk result (notes_view notes.new ≡ imported_read (world_view world.now) p false spec.now token default_name (notes_view notes.old)) }
{
    let default = Text::from_bytes(world.alloc, b"default")?;
    read_name(world, imports, (false, spec), token, &default, notes)?;
    Ok(())
}

// The names of an import that begins at a token.
fn read_import(
    world: &World<'_>,
    imports: &Imports<'_>,
    first: usize,
    form: &ImportForm,
    spec: &Text,
    notes: &mut Notes,
) -> Result<(), NoMemory>
    ensures { (p : Program) → Says imports.now p → OnOk result (notes_view notes.new ≡ import_read (world_view world.now) p first spec.now (import_form_view form.now) (notes_view notes.old)) }
{
    match form {
        ImportForm::Default(_) => read_default(world, imports, spec, next(first)?, notes),
        ImportForm::Both { default: _, names } => {
            read_default(world, imports, spec, next(first)?, notes)?;
            read_list(world, imports, (false, spec), names, notes)?;
            Ok(())
        }
        ImportForm::Names(names) => read_list(world, imports, (false, spec), names, notes),
        ImportForm::Types(names) => read_list(world, imports, (true, spec), names, notes),
        ImportForm::Only => Ok(()),
    }
}

// The names of a list that the module exports of another one, each at its first word.
fn read_handed_on(
    world: &World<'_>,
    imports: &Imports<'_>,
    from: (bool, &Text),
    list: &ExportList,
    notes: &mut Notes,
) -> Result<(), NoMemory>
    ensures { (p : Program) → Says imports.now p → OnOk result (notes_view notes.new ≡ list_handed_on (world_view world.now) p from.entry.0 from.entry.1.now (export_list_view list.now) (notes_view notes.old)) }
{
    let names = list.names.as_slice();
    for i in 0..names.len() {
        let exported = &names[i];
        read_name(world, imports, from, exported.first, &exported.name, notes)?;
    }
    Ok(())
}

/// The specifier and the names of an import that stands at tokens from one to another; the specifier stands
/// before its semicolon.
///
/// # Errors
///
/// `NoMemory` where memory is refused.
pub(crate) fn read_import_item(
    world: &World<'_>,
    imports: &Imports<'_>,
    tokens: (usize, usize),
    form: &ImportForm,
    spec: &Text,
    notes: &mut Notes,
) -> Result<(), NoMemory>
    ensures { (p : Program) → Says imports.now p → OnOk result (notes_view notes.new ≡ import_read (world_view world.now) p tokens.0 spec.now (import_form_view form.now) (specifier_read (world_view world.now) p (tokens.1 - 2) spec.now (notes_view notes.old))) }
{
    let (first, end) = tokens;
    read_specifier(world, imports, end.saturating_sub(2), spec, notes)?;
    read_import(world, imports, first, form, spec, notes)?;
    Ok(())
}

/// The specifier of an export that ends behind a token, and the names that it hands on.
///
/// # Errors
///
/// `NoMemory` where memory is refused.
pub(crate) fn read_export_from(
    world: &World<'_>,
    imports: &Imports<'_>,
    end: usize,
    from: (bool, &Text),
    list: &ExportList,
    notes: &mut Notes,
) -> Result<(), NoMemory>
    ensures { (p : Program) → Says imports.now p → OnOk result (notes_view notes.new ≡ list_handed_on (world_view world.now) p from.entry.0 from.entry.1.now (export_list_view list.now) (specifier_read (world_view world.now) p (end - 2) from.entry.1.now (notes_view notes.old))) }
{
    let spec = from.1;
    read_specifier(world, imports, end.saturating_sub(2), spec, notes)?;
    read_handed_on(world, imports, from, list, notes)?;
    Ok(())
}

// What is wrong with exporting a name as a type (true) or as a value, by its fault as a type.
fn wrong_by(is_type: bool, fault: Option<Code>) -> Option<Code>
    ensures { result ≡ wrong_by is_type fault }
{
    if is_type {
        return fault;
    }
    match fault {
        None => Some(Code::TypeAsValue),
        Some(Code::ValueAsType) => None,
        Some(code) => Some(code),
    }
}

// What is wrong with exporting a name of the module as a type (true) or as a value.
fn wrong_export(world: &World<'_>, is_type: bool, name: &Text) -> Option<Code>
    ensures { (top : home.Scope) → NamesTypes (world_view world.now) top → result ≡ wrong_export is_type (row_at top name.now) }
{
    let fault = world.name_fault(name);
    wrong_by(is_type, fault)
}

// A name that the module exports of its own, at its first word.
#[tactic(auto, using(crate::proofs::NotesInOrder::exported_told))]
fn read_own_export(
    world: &World<'_>,
    is_type: bool,
    exported: &Exported,
    notes: &mut Notes,
) -> Result<(), NoMemory>
    ensures { (top : home.Scope) → NamesTypes (world_view world.now) top → OnOk result (notes_view notes.new ≡ wrong_at (world_view world.now) exported.now.first exported.now.name (wrong_export is_type (row_at top exported.now.name)) (notes_view notes.old)) }
{
    let wrong = wrong_export(world, is_type, &exported.name);
    note_wrong(world, exported.first, &exported.name, wrong, notes)?;
    Ok(())
}

/// The names of a list that the module exports of its own, each at its first word.
///
/// # Errors
///
/// `NoMemory` where memory is refused.
pub(crate) fn read_own_exports(
    world: &World<'_>,
    is_type: bool,
    list: &ExportList,
    notes: &mut Notes,
) -> Result<(), NoMemory>
    ensures { (top : home.Scope) → NamesTypes (world_view world.now) top → OnOk result (notes_view notes.new ≡ exports_read (world_view world.now) top is_type (export_list_view list.now) (notes_view notes.old)) }
{
    let names = list.names.as_slice();
    for i in 0..names.len() {
        read_own_export(world, is_type, &names[i], notes)?;
    }
    Ok(())
}
