//! What the items of a module bind.
#![tactic(auto, using(crate::proofs::BoundInOrder::listed_bound_none, binders::proofs::Bindings::binds_nothing, binders::proofs::Bindings::binds_twice, binders::proofs::Bindings::still_height))]

ghost use Rattle.std.specs.Prelude.{◌≡◌, ◌++◌, ◌∷◌, List, OnOk, IfOk};
ghost use Rattle.js_grammar.specs.Items.{no_imported, more_imported};
ghost use Rattle.check_world.specs.View.{world_view, notes_view};
ghost use Rattle.code_tree.specs.View.{declaration_view, function_view};
ghost use Rattle.js_tree.specs.View.{imported_view, import_list_view, import_form_view, export_form_view, alias_view, item_form_view, items_view};
ghost use Rattle.scopes.specs.Rows.{kind_view, binding_view};
ghost use Rattle.scopes.specs.View.{scope_view, IsHeight, KeepsHeights};
ghost use Rattle.code_changes.specs.View.{changes_view};
ghost use Rattle.typing.specs.Changes as changes;
ghost use Rattle.typing.specs.Changes.{changes_of_declaration};
ghost use Rattle.typing.specs.Names.{prelude_name, prelude};
ghost use Rattle.typing.specs.Functions.{bind, bind_declaration, bind_function, none_bound};
ghost use Rattle.module_errors.specs.Program.{Program};
ghost use Rattle.module_errors.specs.TopNames.{top_binding, import_binding, bind_importeds, bind_list, bind_default, bind_import, bind_alias, bind_export, bind_item, bind_items, changes_of_export, changes_of_item, changes_of_items};
ghost use Rattle.binders.specs.View.{bound_since, Binds, TellsInner};
ghost use Rattle.check_items.specs.View.{Says, bound_over};

use crate::naming::outer_name;
use binders::{bind, bind_declaration, bind_function};
use check_world::{Notes, World};
use code_changes::{Change, changes_of_expr, changes_of_function, changes_of_simple, inner_names};
use code_tree::{Declaration, Function};
use flow_values::{List, NoMemory, Text};
use import_sayings::Imports;
use js_tree::{Alias, ExportForm, ImportForm, ImportList, Imported, Item, ItemForm};
use part_steps::next;
use scopes::{Binding, Height, Kind, Scope};
use std::alloc::Global;
use std::collections::BTreeSet;
use type_values::FlowType;

// Binds a name that every module knows, the n-th one.
fn bind_known(
    alloc: Global,
    scope: &mut Scope,
    name: &[u8],
    n: usize,
    ty: FlowType,
) -> Result<(), NoMemory>
    ensures { OnOk result (scope_view scope.new ≡ record (scope_view scope.old) { names = prelude_name name.now n ty ∷ (scope_view scope.old).names }) }
{
    scope.bind(Binding {
        name: Text::from_bytes(alloc, name)?,
        number: Binding::numbered(true, n)?,
        kind: Kind::Constant,
        depth: 0,
        is_read: true,
        declared: Some(ty),
    })
}

/// Binds the names that every module knows.
///
/// # Errors
///
/// `NoMemory` where memory is refused.
pub fn bind_prelude(alloc: Global, scope: &mut Scope) -> Result<(), NoMemory>
    ensures { OnOk result (scope_view scope.new ≡ record (scope_view scope.old) { names = prelude ++ (scope_view scope.old).names }) }
{
    bind_known(alloc, scope, b"Object", 4, FlowType::Any)?;
    bind_known(alloc, scope, b"Math", 3, FlowType::Any)?;
    bind_known(alloc, scope, b"JSON", 2, FlowType::Any)?;
    bind_known(alloc, scope, b"console", 1, FlowType::Any)?;
    bind_known(alloc, scope, b"undefined", 0, FlowType::Void)
}

// What a declaration may change.
#[tactic(auto, unfolding(code_tree::specs::View::declaration_view, code_tree::specs::View::expr_view))]
fn changes_of_declaration(
    alloc: Global,
    declaration: &Declaration,
    out: &mut List<Change>,
) -> Result<(), NoMemory>
    ensures { OnOk result (changes_view out.new ≡ changes_view out.old ++ changes_of_declaration (declaration_view declaration.now)) }
{
    changes_of_expr(alloc, &declaration.value, out)
}

// What an export may change.
fn changes_of_export(
    alloc: Global,
    form: &ExportForm,
    out: &mut List<Change>,
) -> Result<(), NoMemory>
    ensures { OnOk result (changes_view out.new ≡ changes_view out.old ++ changes_of_export (export_form_view form.now)) }
{
    match form {
        ExportForm::Declaration(declaration) => changes_of_declaration(alloc, declaration, out),
        ExportForm::Function(function) | ExportForm::DefaultFunction(function) => {
            changes_of_function(alloc, function, out)
        }
        ExportForm::Default(e) => changes_of_expr(alloc, e, out),
        ExportForm::Alias(_)
        | ExportForm::Names { types: _, list: _ }
        | ExportForm::From {
            types: _,
            list: _,
            specifier: _,
        } => Ok(()),
    }
}

// What an item may change.
fn changes_of_item(alloc: Global, item: &Item, out: &mut List<Change>) -> Result<(), NoMemory>
    ensures { OnOk result (changes_view out.new ≡ changes_view out.old ++ changes_of_item (item_form_view item.now.form)) }
{
    match &item.form {
        ItemForm::Export(form) => changes_of_export(alloc, form, out),
        ItemForm::Declaration(declaration) => changes_of_declaration(alloc, declaration, out),
        ItemForm::Function(function) => changes_of_function(alloc, function, out),
        ItemForm::Simple(simple) => changes_of_simple(alloc, simple, out),
        ItemForm::Import {
            form: _,
            specifier: _,
        }
        | ItemForm::Alias(_) => Ok(()),
    }
}

// The names that are assigned in a function inside, by all items.
fn set_inside(alloc: Global, items: &[Item]) -> Result<BTreeSet<Text>, NoMemory>
    ensures { IfOk result (λ inside. TellsInner inside (changes_of_items (items_view items.now))) }
{
    let mut changes = List::new(alloc);
    for i in 0..items.len() {
        changes_of_item(alloc, &items[i], &mut changes)?;
    }
    inner_names(alloc, changes.as_slice())
}

// What the names of a module's items are bound in, and what stands around.
#[derive(Clone, Copy)]
struct Around<'a, 'j> {
    world: &'a World<'a>,
    imports: &'a Imports<'j>,
    since: Height,
}

// A name of the top level whose type is known from the start.
fn top_binding(token: usize, name: &Text, kind: Kind, ty: FlowType) -> Result<Binding, NoMemory>
    ensures { IfOk result (λ b. binding_view b ≡ top_binding name.now token (kind_view kind) ty) }
{
    Ok(Binding {
        name: name.share()?,
        number: Binding::number_at(kind.is_constant(), token)?,
        kind,
        depth: 0,
        is_read: true,
        declared: Some(ty),
    })
}

// The name under which a name of another module is imported as a type (true) or as a value, at a token.
#[tactic(auto, using(crate::proofs::Sayings::imported_type, crate::proofs::Sayings::imported_value))]
fn import_binding(
    imports: &Imports<'_>,
    is_type: bool,
    spec: &Text,
    outer: &Text,
    place: (usize, &Text),
) -> Result<Binding, NoMemory>
    ensures { (p : Program) → Says imports.now p → IfOk result (λ b. binding_view b ≡ import_binding p is_type spec.now outer.now place.entry.1.now place.entry.0) }
{
    let (token, name) = place;
    if is_type {
        let binding = top_binding(token, name, Kind::TypeName, FlowType::Any)?;
        return Ok(binding);
    }
    let saying = imports.said(spec, outer);
    let ty = saying.value()?;
    let binding = top_binding(token, name, Kind::Constant, ty)?;
    Ok(binding)
}

// Binds an imported name of a list, at its last word.
fn bind_listed(
    around: &Around<'_, '_>,
    scope: &mut Scope,
    notes: &mut Notes,
    from: (bool, &Text),
    imported: &Imported,
) -> Result<(), NoMemory>
    requires { IsHeight around.now.since scope.old }
    ensures bound { (p : Program) → Says around.now.imports.now p → OnOk result (bound_since around.now.since scope.new notes.new ≡ bind_importeds (world_view around.now.world.now) p from.entry.0 from.entry.1.now (more_imported no_imported (imported_view imported.now)) (bound_since around.now.since scope.old notes.old)) }
    ensures binds { OnOk result (Binds around.now.since scope.old scope.new) }
{
    let (is_type, spec) = from;
    let token = imported.end.saturating_sub(1);
    let (outer, place) = (outer_name(imported), (token, &imported.name));
    let binding = import_binding(around.imports, is_type, spec, outer, place)?;
    bind(around.world, scope, notes, around.since, token, binding)?;
    Ok(())
}

fn bind_list(
    around: &Around<'_, '_>,
    scope: &mut Scope,
    notes: &mut Notes,
    from: (bool, &Text),
    list: &ImportList,
) -> Result<(), NoMemory>
    requires { IsHeight around.now.since scope.old }
    ensures bound { (p : Program) → Says around.now.imports.now p → OnOk result (bound_since around.now.since scope.new notes.new ≡ bind_list (world_view around.now.world.now) p from.entry.0 from.entry.1.now (import_list_view list.now) (bound_since around.now.since scope.old notes.old)) }
    ensures binds { OnOk result (Binds around.now.since scope.old scope.new) }
{
    let names = list.names.as_slice();
    for i in 0..names.len() {
        bind_listed(around, scope, notes, from, &names[i])?;
    }
    Ok(())
}

// Binds the name under which a default export is imported, at its token.
fn bind_default(
    around: &Around<'_, '_>,
    scope: &mut Scope,
    notes: &mut Notes,
    spec: &Text,
    place: (usize, &Text),
) -> Result<(), NoMemory>
    requires { IsHeight around.now.since scope.old }
    ensures bound { (p : Program) → Says around.now.imports.now p → OnOk result (bound_since around.now.since scope.new notes.new ≡ bind_default (world_view around.now.world.now) p spec.now place.entry.0 place.entry.1.now (bound_since around.now.since scope.old notes.old)) }
    ensures binds { OnOk result (Binds around.now.since scope.old scope.new) }
{
    let default = Text::from_bytes(around.world.alloc, b"default")?;
    let binding = import_binding(around.imports, false, spec, &default, place)?;
    bind(around.world, scope, notes, around.since, place.0, binding)?;
    Ok(())
}

// Binds the names of an import that begins at a token.
fn bind_import(
    around: &Around<'_, '_>,
    scope: &mut Scope,
    notes: &mut Notes,
    place: (usize, &Text),
    form: &ImportForm,
) -> Result<(), NoMemory>
    requires { IsHeight around.now.since scope.old }
    ensures bound { (p : Program) → Says around.now.imports.now p → OnOk result (bound_since around.now.since scope.new notes.new ≡ bind_import (world_view around.now.world.now) p place.entry.0 place.entry.1.now (import_form_view form.now) (bound_since around.now.since scope.old notes.old)) }
    ensures binds { OnOk result (Binds around.now.since scope.old scope.new) }
{
    let (first, spec) = place;
    match form {
        ImportForm::Default(name) => {
            bind_default(around, scope, notes, spec, (next(first)?, name))
        }
        ImportForm::Both { default, names } => {
            bind_default(around, scope, notes, spec, (next(first)?, default))?;
            bind_list(around, scope, notes, (false, spec), names)?;
            Ok(())
        }
        ImportForm::Names(names) => bind_list(around, scope, notes, (false, spec), names),
        ImportForm::Types(names) => bind_list(around, scope, notes, (true, spec), names),
        ImportForm::Only => Ok(()),
    }
}

// Binds an alias, which is a type.
fn bind_alias(
    around: &Around<'_, '_>,
    scope: &mut Scope,
    notes: &mut Notes,
    alias: &Alias,
) -> Result<(), NoMemory>
    requires { IsHeight around.now.since scope.old }
    ensures bound { OnOk result (bound_since around.now.since scope.new notes.new ≡ bind_alias (world_view around.now.world.now) (alias_view alias.now) (bound_since around.now.since scope.old notes.old)) }
    ensures binds { OnOk result (Binds around.now.since scope.old scope.new) }
{
    let token = next(alias.first)?;
    let binding = top_binding(token, &alias.name, Kind::TypeName, FlowType::Any)?;
    bind(around.world, scope, notes, around.since, token, binding)?;
    Ok(())
}

// Binds what a declaration of the top level binds.
fn bind_top_declaration(
    around: &Around<'_, '_>,
    scope: &mut Scope,
    notes: &mut Notes,
    set_inside: &BTreeSet<Text>,
    declaration: &Declaration,
) -> Result<(), NoMemory>
    requires height { IsHeight around.now.since scope.old }
    requires depth { scope.old.depth ≡ 0 }
    ensures bound { (changes : List changes.Change) → TellsInner set_inside.now changes → OnOk result (bound_since around.now.since scope.new notes.new ≡ bind_declaration (world_view around.now.world.now) 0 changes (declaration_view declaration.now) (bound_since around.now.since scope.old notes.old)) }
    ensures binds { OnOk result (Binds around.now.since scope.old scope.new) }
{
    let (world, since) = (around.world, around.since);
    bind_declaration(world, scope, notes, since, declaration, set_inside)?;
    Ok(())
}

// Binds what a function's declaration at the top level binds.
fn bind_top_function(
    around: &Around<'_, '_>,
    scope: &mut Scope,
    notes: &mut Notes,
    function: &Function,
) -> Result<(), NoMemory>
    requires height { IsHeight around.now.since scope.old }
    requires depth { scope.old.depth ≡ 0 }
    ensures bound { OnOk result (bound_since around.now.since scope.new notes.new ≡ bind_function (world_view around.now.world.now) 0 (function_view function.now) (bound_since around.now.since scope.old notes.old)) }
    ensures binds { OnOk result (Binds around.now.since scope.old scope.new) }
{
    bind_function(around.world, scope, notes, around.since, function)?;
    Ok(())
}

// Binds what is declared behind `export`.
fn bind_export(
    around: &Around<'_, '_>,
    scope: &mut Scope,
    notes: &mut Notes,
    set_inside: &BTreeSet<Text>,
    form: &ExportForm,
) -> Result<(), NoMemory>
    requires height { IsHeight around.now.since scope.old }
    requires depth { scope.old.depth ≡ 0 }
    ensures bound { (changes : List changes.Change) → TellsInner set_inside.now changes → OnOk result (bound_since around.now.since scope.new notes.new ≡ bind_export (world_view around.now.world.now) changes (export_form_view form.now) (bound_since around.now.since scope.old notes.old)) }
    ensures binds { OnOk result (Binds around.now.since scope.old scope.new) }
{
    match form {
        ExportForm::Declaration(declaration) => {
            bind_top_declaration(around, scope, notes, set_inside, declaration)
        }
        ExportForm::Function(function) | ExportForm::DefaultFunction(function) => {
            bind_top_function(around, scope, notes, function)
        }
        ExportForm::Alias(alias) => bind_alias(around, scope, notes, alias),
        ExportForm::Names { types: _, list: _ }
        | ExportForm::From {
            types: _,
            list: _,
            specifier: _,
        }
        | ExportForm::Default(_) => Ok(()),
    }
}

// Binds what an item binds.
fn bind_item(
    around: &Around<'_, '_>,
    scope: &mut Scope,
    notes: &mut Notes,
    set_inside: &BTreeSet<Text>,
    item: &Item,
) -> Result<(), NoMemory>
    requires height { IsHeight around.now.since scope.old }
    requires depth { scope.old.depth ≡ 0 }
    ensures bound { (p : Program) → Says around.now.imports.now p → (changes : List changes.Change) → TellsInner set_inside.now changes → OnOk result (bound_since around.now.since scope.new notes.new ≡ bind_item (world_view around.now.world.now) p changes item.now.first (item_form_view item.now.form) (bound_since around.now.since scope.old notes.old)) }
    ensures binds { OnOk result (Binds around.now.since scope.old scope.new) }
{
    match &item.form {
        ItemForm::Import { form, specifier } => {
            bind_import(around, scope, notes, (item.first, specifier), form)
        }
        ItemForm::Export(form) => bind_export(around, scope, notes, set_inside, form),
        ItemForm::Declaration(declaration) => {
            bind_top_declaration(around, scope, notes, set_inside, declaration)
        }
        ItemForm::Function(function) => bind_top_function(around, scope, notes, function),
        ItemForm::Alias(alias) => bind_alias(around, scope, notes, alias),
        ItemForm::Simple(_) => Ok(()),
    }
}

/// Binds the names of a module's items, in order.
///
/// # Errors
///
/// `NoMemory` where memory is refused.
pub fn bind_items(
    world: &World<'_>,
    imports: &Imports<'_>,
    scope: &mut Scope,
    notes: &mut Notes,
    items: &[Item],
) -> Result<(), NoMemory>
    requires { scope.old.depth ≡ 0 }
    ensures bound { (p : Program) → Says imports.now p → OnOk result (bound_over (scope_view scope.old) (scope_view scope.new) notes.new (bind_items (world_view world.now) p (changes_of_items (items_view items.now)) (items_view items.now) (none_bound (notes_view notes.old)))) }
    ensures heights { OnOk result (KeepsHeights scope.old scope.new) }
{
    let set_inside = set_inside(world.alloc, items)?;
    let since = scope.height();
    let around = Around {
        world,
        imports,
        since,
    };
    for i in 0..items.len() {
        bind_item(&around, scope, notes, &set_inside, &items[i])?;
    }
    Ok(())
}
