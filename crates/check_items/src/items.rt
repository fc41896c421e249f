//! How the items of a module are read.
#![tactic(auto, using(crate::proofs::NotesInOrder::sees_types, crate::proofs::Envs::env_made, crate::proofs::Envs::env_read, crate::proofs::Envs::env_noted, check_moves::proofs::Following::follows_nothing, check_moves::proofs::Following::follows_through), unfolding(check_moves::specs::View::around, check_moves::specs::View::now, check_moves::specs::View::told))]

ghost use Rattle.std.specs.Prelude.{◌≡◌, ◌&&◌, ℕ, None, OnOk, IfOk};
ghost use Rattle.js_grammar.specs.Items as g;
ghost use Rattle.alias_table.specs.Table.{is_marked};
ghost use Rattle.check_world.specs.View.{world_view, notes_view};
ghost use Rattle.code_tree.specs.View.{expr_view, function_view, simple_view};
ghost use Rattle.js_tree.specs.View.{alias_view, export_form_view, export_list_view, import_form_view, item_view};
ghost use Rattle.local_signatures.specs.Scope.{scope_of};
ghost use Rattle.scopes.specs.View.{scope_view};
ghost use Rattle.typing.specs.Names.{binding_of};
ghost use Rattle.typing.specs.States.{after, with_now};
ghost use Rattle.typing.specs.Typing.{read};
ghost use Rattle.module_errors.specs.Program.{Program};
ghost use Rattle.module_errors.specs.Items.{is_bound_at as is_numbered, is_on_cycle, alias_read, exports_read, noted_env, read_top_function, read_export, read_item_form, read_item};
ghost use Rattle.check_moves.specs.View.{env, now, scope};
ghost use Rattle.check_moves.specs.Follows.{Follows};
ghost use Rattle.check_items.specs.View.{Sees, is_recursive, recursive_noted};

use crate::imports::{read_export_from, read_import_item, read_own_exports};
use alias_table::AliasTable;
use check_expr::{read, read_declaration, read_function, read_simple};
use check_moves::State;
use check_values::Code;
use check_world::{Notes, World};
use code_tree::{Expr, Function, Simple};
use flow_values::{NoMemory, Text};
use import_sayings::Imports;
use js_tree::{Alias, ExportForm, ExportList, ImportForm, Item, ItemForm};
use part_steps::next;
use scopes::{Binding, Scope};
use tree_typing::Names;
use type_reads::read_type;
use type_values::FlowType;

/// What a module's items are read by: what stands around its code, and what other modules say.
#[derive(Clone, Copy)]
pub struct Module<'a, 'j> {
    pub world: &'a World<'a>,
    pub imports: &'a Imports<'j>,
}

// A function of the top level.
fn read_top_function(
    around: &Module<'_, '_>,
    state: &mut State,
    function: &Function,
) -> Result<(), NoMemory>
    ensures env { OnOk result (env state.new ≡ read_top_function (world_view around.now.world.now) (function_view function.now) (env state.old)) }
    ensures follows { OnOk result (Follows None state.old None state.new) }
{
    read_function(around.world, state, function, false)?;
    Ok(())
}

// Whether the binding of an alias's name is the alias, which stands at a token and is no constant.
fn is_bound_at(scope: &Scope, name: &Text, token: usize) -> Result<bool, NoMemory>
    ensures { IfOk result (λ yes. yes ≡ is_numbered token (binding_of (scope_view scope.now).names name.now)) }
{
    let number = Binding::number_at(false, token)?;
    match scope.find(name) {
        Some(binding) => Ok(binding.number == number),
        None => Ok(false),
    }
}

// Whether a type is a name that lies on a cycle.
fn is_on_cycle(table: &AliasTable, t: &FlowType) -> bool
    ensures { result ≡ is_on_cycle (is_marked table.now) t.now }
{
    match t {
        FlowType::Ref { module, name } => table.is_cyclic(module, name.as_bytes()),
        _ => false,
    }
}

// Whether both hold.
fn both(a: bool, b: bool) -> bool
    ensures { result ≡ (a && b) }
{
    a && b
}

// Whether an alias counts, which stands at a token, and its name lies on a cycle.
fn is_recursive(
    around: &Module<'_, '_>,
    scope: &Scope,
    name: &Text,
    token: usize,
) -> Result<bool, NoMemory>
    ensures { (p : Program) (m : g.Module) → Sees around.now p m → IfOk result (λ yes. yes ≡ is_recursive (world_view around.now.world.now) p (scope_view scope.now) token name.now) }
{
    let world = around.world;
    let counts = is_bound_at(scope, name, token)?;
    let t = world.names.type_of_name(world.alloc, name)?;
    let on_cycle = is_on_cycle(world.table, &t);
    Ok(both(counts, on_cycle))
}

// An alias that counts and whose name lies on a cycle is a fault.
fn note_recursive(
    around: &Module<'_, '_>,
    scope: &Scope,
    alias: &Alias,
    notes: &mut Notes,
) -> Result<(), NoMemory>
    ensures { (p : Program) (m : g.Module) → Sees around.now p m → OnOk result (notes_view notes.new ≡ recursive_noted (world_view around.now.world.now) p (scope_view scope.now) (alias_view alias.now) (notes_view notes.old)) }
{
    let token = next(alias.first)?;
    let recursive = is_recursive(around, scope, &alias.name, token)?;
    if !recursive {
        return Ok(());
    }
    notes.name_at(around.world, token, Code::RecursiveAlias, &alias.name)?;
    Ok(())
}

// An alias that counts and whose name lies on a cycle is a fault; the names in every alias's type are read.
fn read_alias(around: &Module<'_, '_>, state: &mut State, alias: &Alias) -> Result<(), NoMemory>
    ensures env { (p : Program) (m : g.Module) → Sees around.now p m → OnOk result (env state.new ≡ noted_env (alias_read (world_view around.now.world.now) p (scope state.old) (alias_view alias.now)) (env state.old)) }
    ensures follows { OnOk result (Follows None state.old None state.new) }
{
    note_recursive(around, &state.scope, alias, &mut state.notes)?;
    read_type(around.world, &alias.ty, &mut state.notes)?;
    Ok(())
}

// The names of a list that the module exports of its own.
fn read_own(
    around: &Module<'_, '_>,
    state: &mut State,
    is_type: bool,
    list: &ExportList,
) -> Result<(), NoMemory>
    ensures env { (p : Program) (m : g.Module) → Sees around.now p m → OnOk result (env state.new ≡ noted_env (exports_read (world_view around.now.world.now) (scope_of m) is_type (export_list_view list.now)) (env state.old)) }
    ensures follows { OnOk result (Follows None state.old None state.new) }
{
    read_own_exports(around.world, is_type, list, &mut state.notes)?;
    Ok(())
}

// The names of a list that the module exports of another one, in an export that ends behind a token.
fn read_from(
    around: &Module<'_, '_>,
    state: &mut State,
    from: (bool, &Text),
    list: &ExportList,
    end: usize,
) -> Result<(), NoMemory>
    ensures env { (p : Program) (m : g.Module) → Sees around.now p m → OnOk result (env state.new ≡ read_export (world_view around.now.world.now) p m end (g.export_from from.entry.0 (export_list_view list.now) from.entry.1.now) (env state.old)) }
    ensures follows { OnOk result (Follows None state.old None state.new) }
{
    let (world, imports) = (around.world, around.imports);
    read_export_from(world, imports, end, from, list, &mut state.notes)?;
    Ok(())
}

// An expression that is the default export.
fn read_default(world: &World<'_>, state: &mut State, e: &Expr) -> Result<(), NoMemory>
    ensures env { OnOk result (env state.new ≡ with_now (after (read (world_view world.now) (expr_view e.now) (scope state.old) None (now state.old))) (env state.old)) }
    ensures follows { OnOk result (Follows None state.old None state.new) }
{
    let value = read(world, state, e, None)?;
    state.after(value)?;
    Ok(())
}

// An export that ends behind a token; a specifier stands before its semicolon.
fn read_export(
    around: &Module<'_, '_>,
    state: &mut State,
    form: &ExportForm,
    end: usize,
) -> Result<(), NoMemory>
    ensures env { (p : Program) (m : g.Module) → Sees around.now p m → OnOk result (env state.new ≡ read_export (world_view around.now.world.now) p m end (export_form_view form.now) (env state.old)) }
    ensures follows { OnOk result (Follows None state.old None state.new) }
{
    match form {
        ExportForm::Declaration(declaration) => read_declaration(around.world, state, declaration),
        ExportForm::Function(function) | ExportForm::DefaultFunction(function) => {
            read_top_function(around, state, function)
        }
        ExportForm::Alias(alias) => read_alias(around, state, alias),
        ExportForm::Names { types, list } => read_own(around, state, *types, list),
        ExportForm::From {
            types,
            list,
            specifier,
        } => read_from(around, state, (*types, specifier), list, end),
        ExportForm::Default(e) => read_default(around.world, state, e),
    }
}

// An import that stands at tokens from one to another.
fn read_import(
    around: &Module<'_, '_>,
    state: &mut State,
    tokens: (usize, usize),
    form: &ImportForm,
    spec: &Text,
) -> Result<(), NoMemory>
    ensures env { (p : Program) (m : g.Module) → Sees around.now p m → OnOk result (env state.new ≡ read_item_form (world_view around.now.world.now) p m tokens.0 tokens.1 (g.imports (import_form_view form.now) spec.now) (env state.old)) }
    ensures follows { OnOk result (Follows None state.old None state.new) }
{
    let (world, imports) = (around.world, around.imports);
    read_import_item(world, imports, tokens, form, spec, &mut state.notes)?;
    Ok(())
}

// A simple statement.
fn read_top_simple(
    around: &Module<'_, '_>,
    state: &mut State,
    simple: &Simple,
) -> Result<(), NoMemory>
    ensures env { (p : Program) (m : g.Module) (first end : ℕ) → OnOk result (env state.new ≡ read_item_form (world_view around.now.world.now) p m first end (g.does_item (simple_view simple.now)) (env state.old)) }
    ensures follows { OnOk result (Follows None state.old None state.new) }
{
    read_simple(around.world, state, simple)?;
    Ok(())
}

/// Reads an item.
///
/// # Errors
///
/// `NoMemory` where memory is refused. The state may only be dropped then.
pub fn read_item(around: &Module<'_, '_>, state: &mut State, item: &Item) -> Result<(), NoMemory>
    ensures env { (p : Program) (m : g.Module) → Sees around.now p m → OnOk result (env state.new ≡ read_item (world_view around.now.world.now) p m (item_view item.now) (env state.old)) }
    ensures follows { OnOk result (Follows None state.old None state.new) }
{
    let (first, end) = (item.first, item.end);
    match &item.form {
        ItemForm::Import { form, specifier } => {
            read_import(around, state, (first, end), form, specifier)
        }
        ItemForm::Export(form) => read_export(around, state, form, end),
        ItemForm::Declaration(declaration) => read_declaration(around.world, state, declaration),
        ItemForm::Function(function) => read_top_function(around, state, function),
        ItemForm::Alias(alias) => read_alias(around, state, alias),
        ItemForm::Simple(simple) => read_top_simple(around, state, simple),
    }
}
