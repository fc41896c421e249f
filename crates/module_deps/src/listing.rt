ghost use Rattle.std.specs.Prelude.{◌≡◌, IfOk, map, option_to_list};
ghost use Rattle.std.specs.Option.{option_map};
ghost use Rattle.flow_values.specs.Path.{IsRising};
ghost use Rattle.check_values.specs.Rows.{distinct};
ghost use Rattle.check_values.specs.Roots.{paths_of};
ghost use Rattle.js_grammar.specs.Items.{exports};
ghost use Rattle.js_tree.specs.View.{item_view, items_view, export_form_view, module_view};
ghost use Rattle.module_resolution.specs.Resolution.{resolved};
ghost use Rattle.module_resolution.specs.Dependencies.{specifiers_of, specifiers_of_form, specifiers_in, dependencies};
ghost use Rattle.module_deps.specs.Listing.{rows_for};

use check_values::{DepRow, Deps, Root};
use dep_lists::resolve;
use flow_values::{List, NoMemory, Path, Text};
use js_tree::{ExportForm, Item, ItemForm, Module};
use std::alloc::Global;
use std::collections::BTreeSet;

// The specifier of an item that has one.
fn specifier_of(item: &Item) -> Option<&Text>
    ensures { option_to_list (option_map (λ text. text.now) result) ≡ specifiers_of (item_view item.now) }
{
    match &item.form {
        ItemForm::Import { specifier, .. } => Some(specifier),
        ItemForm::Export(form) => specifier_of_export(form),
        _ => None,
    }
}

fn specifier_of_export(form: &ExportForm) -> Option<&Text>
    ensures { option_to_list (option_map (λ text. text.now) result) ≡ specifiers_of_form (exports (export_form_view form.now)) }
{
    match form {
        ExportForm::From { specifier, .. } => Some(specifier),
        _ => None,
    }
}

// The specifiers of items, in order.
#[tactic(auto, using(named_rows::proofs::Lists::flat_more))]
fn specifiers_in<'a>(alloc: Global, items: &'a [Item]) -> Result<Vec<&'a Text>, NoMemory>
    ensures { IfOk result (λ found. map (λ text. text.now) found.items ≡ specifiers_in (items_view items.now)) }
{
    let mut found = Vec::new(alloc);
    for i in 0..items.len() {
        if let Some(specifier) = specifier_of(&items[i]) {
            found.push(specifier)?;
        }
    }
    Ok(found)
}

// A specifier with the module that it finds.
fn row_for(alloc: Global, root: &Root, from: &Path, spec: &Text) -> Result<DepRow, NoMemory>
    requires { IsRising (paths_of root.now) }
    ensures { IfOk result (λ row. row ≡ record { spec = spec.now; found = resolved (paths_of root.now) from.now spec.now }) }
{
    Ok(DepRow {
        spec: spec.share()?,
        found: resolve(alloc, root, from, spec.as_bytes())?,
    })
}

// The rows of specifiers, each at its first place. Those so far are kept in order, so that none is compared with all of them.
fn rows_for(
    alloc: Global,
    root: &Root,
    from: &Path,
    specs: &[&Text],
) -> Result<List<DepRow>, NoMemory>
    requires { IsRising (paths_of root.now) }
    ensures { IfOk result (λ rows. rows ≡ rows_for (paths_of root.now) from.now (distinct (map (λ text. text.now) specs.now))) }
{
    let mut seen = BTreeSet::new(alloc);
    let mut rows = List::new(alloc);
    for i in 0..specs.len() {
        let spec = specs[i];
        if !seen.insert(spec.as_bytes())? {
            continue;
        }
        rows.push(row_for(alloc, root, from, spec)?)?;
    }
    Ok(rows)
}

/// The dependency list of the module at `from`: each of its specifiers once, in order of their first
/// places, with the module of a version that it finds.
///
/// # Errors
///
/// `NoMemory` where memory is refused.
pub fn deps_of(alloc: Global, root: &Root, from: &Path, module: &Module) -> Result<Deps, NoMemory>
    requires rising { IsRising (paths_of root.now) }
    ensures rows { IfOk result (λ deps. deps ≡ dependencies (paths_of root.now) from.now (module_view «module».now)) }
{
    let specs = specifiers_in(alloc, module.items.as_slice())?;
    let rows = rows_for(alloc, root, from, specs.as_slice())?;
    Ok(Deps { rows })
}
