// The exports of a module, in the order of the source.
#![tactic(auto, using(named_rows::proofs::Lists::seen_more), unfolding(code_tree::specs::View::declaration_view, code_tree::specs::View::function_view))]

ghost use Rattle.std.specs.Prelude.{◌≡◌, ◌++◌, false, OnOk, IfOk, unwrap_or};
ghost use Rattle.std.specs.List.{flat_map};
ghost use Rattle.js_grammar.specs.Items.{export_declaration, export_function, export_alias, export_default_function, export_default};
ghost use Rattle.code_tree.specs.View.{expr_view, declaration_view, function_view};
ghost use Rattle.js_tree.specs.View.{export_list_view, alias_view, export_form_view, item_view};
ghost use Rattle.local_signatures.specs.Scope.{default_name};
ghost use Rattle.local_signatures.specs.Exports.{told_name, told_list, told_by_export, told_by};
ghost use Rattle.named_rows.specs.Seen.{seen};
ghost use Rattle.told_signature.specs.Seen.{said_view};
ghost use Rattle.sig_extract.specs.Seen.{binding_view, listed, rows_told, told_there};

use crate::scope::Scope;
use crate::telling::{function, name, variable};
use boundary_typing::value_type;
use code_tree::{Declaration, Expr, Function};
use flow_values::{NoMemory, Text};
use js_tree::{Alias, ExportForm, ExportList, Exported, Item, ItemForm};
use std::alloc::Global;
use told_signature::{Place, Said, Told};

/// Names and what their exports say.
pub type Exports<'a> = Vec<(Text, Said<'a>)>;

// The name of the default export.
fn default_name(alloc: Global) -> Result<Text, NoMemory>
    ensures { IfOk result (λ name. name ≡ default_name) }
{
    Text::from_bytes(alloc, b"default")
}

// The name under which a name in braces is exported.
fn exported_name(exported: &Exported) -> Result<Text, NoMemory>
    ensures { IfOk result (λ name. name ≡ unwrap_or exported.now.renamed exported.now.name) }
{
    match &exported.renamed {
        Some(renamed) => renamed.share(),
        None => exported.name.share(),
    }
}

// What names in braces say, of this module or of another one.
#[tactic(auto, using(named_rows::proofs::Lists::flat_more))]
fn tell_names<'a>(
    scope: &Scope<'a>,
    is_type: bool,
    specifier: Option<&'a Text>,
    list: &'a ExportList,
    exports: &mut Exports<'a>,
) -> Result<(), NoMemory>
    ensures { OnOk result (rows_told (seen binding_view scope.now.rows.items) exports.new.items ≡ rows_told (seen binding_view scope.now.rows.items) exports.old.items ++ told_list (told_there (seen binding_view scope.now.rows.items) is_type specifier.entry) (export_list_view list.now)) }
{
    let names = list.names.as_slice();
    for i in 0..names.len() {
        tell_name(scope, is_type, specifier, &names[i], exports)?;
    }
    Ok(())
}

fn tell_name<'a>(
    scope: &Scope<'a>,
    is_type: bool,
    specifier: Option<&'a Text>,
    exported: &'a Exported,
    exports: &mut Exports<'a>,
) -> Result<(), NoMemory>
    ensures { OnOk result (rows_told (seen binding_view scope.now.rows.items) exports.new.items ≡ rows_told (seen binding_view scope.now.rows.items) exports.old.items ++ listed (told_there (seen binding_view scope.now.rows.items) is_type specifier.entry) exported.now) }
{
    let said = said_there(scope, is_type, specifier, &exported.name);
    exports.push((exported_name(exported)?, said))?;
    Ok(())
}

// What a name in braces says.
fn said_there<'a>(
    scope: &Scope<'a>,
    is_type: bool,
    specifier: Option<&'a Text>,
    word: &'a Text,
) -> Said<'a>
    ensures { said_view (told_name (seen binding_view scope.now.rows.items) false) result ≡ told_there (seen binding_view scope.now.rows.items) is_type specifier.entry word.now }
{
    match specifier {
        Some(specifier) => Said::Own(Told::Elsewhere {
            specifier,
            name: word,
            is_type,
        }),
        None => name(scope, is_type, word),
    }
}

fn tell_function<'a>(
    alloc: Global,
    scope: &Scope<'a>,
    from: usize,
    to: usize,
    f: &'a Function,
    exports: &mut Exports<'a>,
) -> Result<(), NoMemory>
    ensures { OnOk result (rows_told (seen binding_view scope.now.rows.items) exports.new.items ≡ rows_told (seen binding_view scope.now.rows.items) exports.old.items ++ told_by_export (seen binding_view scope.now.rows.items) from to (export_function (function_view f.now))) }
{
    let told = function(alloc, scope, from, to, f)?;
    let name = match &f.name {
        Some(name) => name.share()?,
        None => default_name(alloc)?,
    };
    exports.push((name, Said::Own(told)))?;
    Ok(())
}

fn tell_alias<'a>(
    scope: &Scope<'a>,
    alias: &'a Alias,
    exports: &mut Exports<'a>,
) -> Result<(), NoMemory>
    ensures { OnOk result (rows_told (seen binding_view scope.now.rows.items) exports.new.items ≡ rows_told (seen binding_view scope.now.rows.items) exports.old.items ++ told_by_export (seen binding_view scope.now.rows.items) 0 0 (export_alias (alias_view alias.now))) }
{
    let said = name(scope, true, &alias.name);
    exports.push((alias.name.share()?, said))?;
    Ok(())
}

fn tell_declaration<'a>(
    alloc: Global,
    scope: &Scope<'a>,
    d: &'a Declaration,
    exports: &mut Exports<'a>,
) -> Result<(), NoMemory>
    ensures { OnOk result (rows_told (seen binding_view scope.now.rows.items) exports.new.items ≡ rows_told (seen binding_view scope.now.rows.items) exports.old.items ++ told_by_export (seen binding_view scope.now.rows.items) 0 0 (export_declaration (declaration_view d.now))) }
{
    let told = variable(alloc, scope, d)?;
    exports.push((d.name.share()?, Said::Own(told)))?;
    Ok(())
}

fn tell_default_function<'a>(
    alloc: Global,
    scope: &Scope<'a>,
    from: usize,
    to: usize,
    f: &'a Function,
    exports: &mut Exports<'a>,
) -> Result<(), NoMemory>
    ensures { OnOk result (rows_told (seen binding_view scope.now.rows.items) exports.new.items ≡ rows_told (seen binding_view scope.now.rows.items) exports.old.items ++ told_by_export (seen binding_view scope.now.rows.items) from to (export_default_function (function_view f.now))) }
{
    let told = function(alloc, scope, from, to, f)?;
    exports.push((default_name(alloc)?, Said::Own(told)))?;
    Ok(())
}

fn tell_default_value<'a>(
    alloc: Global,
    scope: &Scope<'a>,
    from: usize,
    to: usize,
    value: &Expr,
    exports: &mut Exports<'a>,
) -> Result<(), NoMemory>
    ensures { OnOk result (rows_told (seen binding_view scope.now.rows.items) exports.new.items ≡ rows_told (seen binding_view scope.now.rows.items) exports.old.items ++ told_by_export (seen binding_view scope.now.rows.items) from to (export_default (expr_view value.now))) }
{
    let ty = value_type(alloc, scope, value)?;
    let told = Told::Value(ty, Place::Whole(from, to));
    exports.push((default_name(alloc)?, Said::Own(told)))?;
    Ok(())
}

// What an export from one place to another tells.
fn tell_export<'a>(
    alloc: Global,
    scope: &Scope<'a>,
    from: usize,
    to: usize,
    form: &'a ExportForm,
    exports: &mut Exports<'a>,
) -> Result<(), NoMemory>
    ensures { OnOk result (rows_told (seen binding_view scope.now.rows.items) exports.new.items ≡ rows_told (seen binding_view scope.now.rows.items) exports.old.items ++ told_by_export (seen binding_view scope.now.rows.items) from to (export_form_view form.now)) }
{
    match form {
        ExportForm::Declaration(d) => tell_declaration(alloc, scope, d, exports),
        ExportForm::Function(f) => tell_function(alloc, scope, from, to, f, exports),
        ExportForm::Alias(alias) => tell_alias(scope, alias, exports),
        ExportForm::Names { types, list } => tell_names(scope, *types, None, list, exports),
        ExportForm::From {
            types,
            list,
            specifier,
        } => tell_names(scope, *types, Some(specifier), list, exports),
        ExportForm::DefaultFunction(f) => {
            tell_default_function(alloc, scope, from, to, f, exports)
        }
        ExportForm::Default(value) => tell_default_value(alloc, scope, from, to, value, exports),
    }
}

fn tell_item<'a>(
    alloc: Global,
    scope: &Scope<'a>,
    item: &'a Item,
    exports: &mut Exports<'a>,
) -> Result<(), NoMemory>
    ensures { OnOk result (rows_told (seen binding_view scope.now.rows.items) exports.new.items ≡ rows_told (seen binding_view scope.now.rows.items) exports.old.items ++ told_by (seen binding_view scope.now.rows.items) (item_view item.now)) }
{
    match &item.form {
        ItemForm::Export(form) => tell_export(alloc, scope, item.first, item.end, form, exports),
        ItemForm::Import { .. }
        | ItemForm::Declaration(_)
        | ItemForm::Function(_)
        | ItemForm::Alias(_)
        | ItemForm::Simple(_) => Ok(()),
    }
}

/// What the exports of a module tell, in the order of the source.
#[tactic(auto, using(named_rows::proofs::Lists::flat_more))]
pub fn exports<'a>(
    alloc: Global,
    scope: &Scope<'a>,
    items: &'a [Item],
) -> Result<Exports<'a>, NoMemory>
    ensures { IfOk result (λ told. rows_told (seen binding_view scope.now.rows.items) told.items ≡ flat_map (λ item. told_by (seen binding_view scope.now.rows.items) (item_view item)) items.now) }
{
    let mut told = Vec::new(alloc);
    for i in 0..items.len() {
        tell_item(alloc, scope, &items[i], &mut told)?;
    }
    Ok(told)
}
