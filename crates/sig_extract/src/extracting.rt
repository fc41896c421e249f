ghost use Rattle.std.specs.Prelude.{◌≡◌, ◌++◌, IfOk, OnOk};
ghost use Rattle.std.specs.List.{flat_map, filter_map};
ghost use Rattle.std.specs.Option.{option_to_list};
ghost use Rattle.check_values.specs.Rows.{by_name};
ghost use Rattle.js_tree.specs.View.{item_view, module_view};
ghost use Rattle.local_signatures.specs.Scope.{scope_of};
ghost use Rattle.local_signatures.specs.Exports.{told_by};
ghost use Rattle.local_signatures.specs.LocalSignature.{alias_row, import_row, broken_signature, local_signature};
ghost use Rattle.local_signatures.specs.Faults.{signature_faults};
ghost use Rattle.named_rows.specs.Seen.{seen};
ghost use Rattle.sig_extract.specs.Seen.{binding_view, rows_told};

use crate::binding::{Binding, bindings};
use crate::exporting::exports;
use crate::scope::Scope;
use crate::telling::told_by_names;
use check_values::{Fault, ImportRow, LocalSig};
use flow_values::{List, NoMemory, Span, Text};
use js_tree::{Item, Module};
use named_rows::{by_name, sorted_by_name};
use std::alloc::Global;
use told_signature::{Said, faults, name_there, signature};
use tree_typing::type_of_tree;
use type_values::FlowType;

// Puts the alias that a row of a scope is behind others.
fn add_alias(
    alloc: Global,
    scope: &Scope,
    name: &Text,
    binding: Binding,
    aliases: &mut Vec<(Text, FlowType)>,
) -> Result<(), NoMemory>
    ensures { OnOk result (aliases.new.items ≡ aliases.old.items ++ option_to_list (alias_row (seen binding_view scope.now.rows.items) (name.now, binding_view binding.entry))) }
{
    match binding {
        Binding::Alias(tree) => {
            let ty = type_of_tree(alloc, scope, tree)?;
            aliases.push((name.share()?, ty))?;
            Ok(())
        }
        Binding::Import { .. } | Binding::Variable(_) | Binding::Function(_) => Ok(()),
    }
}

// The aliases of a scope, with their types.
fn aliases(alloc: Global, scope: &Scope) -> Result<Vec<(Text, FlowType)>, NoMemory>
    ensures { IfOk result (λ aliases. aliases.items ≡ filter_map (alias_row (seen binding_view scope.now.rows.items)) (seen binding_view scope.now.rows.items)) }
{
    let rows = scope.rows.as_slice();
    let mut aliases = Vec::new(alloc);
    for i in 0..rows.len() {
        let row = &rows[i];
        add_alias(alloc, scope, &row.0, row.1, &mut aliases)?;
    }
    Ok(aliases)
}

// Puts the import that a row of a scope is behind others.
fn add_import(
    alloc: Global,
    local: &Text,
    binding: Binding,
    imports: &mut Vec<ImportRow>,
) -> Result<(), NoMemory>
    ensures { OnOk result (imports.new.items ≡ imports.old.items ++ option_to_list (import_row (local.now, binding_view binding.entry))) }
{
    match binding {
        Binding::Import {
            specifier,
            name,
            is_type,
        } => {
            imports.push(ImportRow {
                local: local.share()?,
                spec: specifier.share()?,
                name: name_there(alloc, name)?,
                is_type,
            })?;
            Ok(())
        }
        Binding::Variable(_) | Binding::Function(_) | Binding::Alias(_) => Ok(()),
    }
}

// The imports of a scope, in the order of the source.
fn imports(alloc: Global, scope: &Scope) -> Result<Vec<ImportRow>, NoMemory>
    ensures { IfOk result (λ imports. imports.items ≡ filter_map import_row (seen binding_view scope.now.rows.items)) }
{
    let rows = scope.rows.as_slice();
    let mut imports = Vec::new(alloc);
    for i in 0..rows.len() {
        let row = &rows[i];
        add_import(alloc, &row.0, row.1, &mut imports)?;
    }
    Ok(imports)
}

// What the exports say, in order of their names.
#[tactic(auto, using(named_rows::proofs::ByName::seen_by_name))]
fn sorted_exports<'a>(
    alloc: Global,
    scope: &Scope<'a>,
    items: &'a [Item],
) -> Result<Vec<(Text, Said<'a>)>, NoMemory>
    ensures { IfOk result (λ exports. rows_told (seen binding_view scope.now.rows.items) exports.items ≡ by_name (flat_map (λ item. told_by (seen binding_view scope.now.rows.items) (item_view item)) items.now)) }
{
    let rows = exports(alloc, scope, items)?;
    let sorted = sorted_by_name(alloc, rows)?;
    Ok(sorted)
}

// The local signature of a module of this scope, and its faults in order.
fn extracted<'a>(
    alloc: Global,
    module: &'a Module,
    scope: &Scope<'a>,
    spans: &[Span],
) -> Result<(LocalSig, List<Fault>), NoMemory>
    requires { seen binding_view scope.now.rows.items ≡ scope_of (module_view «module».now) }
    ensures signature { IfOk result (λ found. found.0 ≡ local_signature (module_view «module».now)) }
    ensures faults { IfOk result (λ found. found.1 ≡ signature_faults (module_view «module».now) spans.now) }
{
    let exports = sorted_exports(alloc, scope, module.items.as_slice())?;
    let named = by_name(alloc, told_by_names(alloc, scope)?)?;
    let imports = imports(alloc, scope)?;
    let aliases = aliases(alloc, scope)?;
    let said = exports.as_slice();
    let found = signature(alloc, &named, said, aliases, imports.as_slice())?;
    let faults = faults(alloc, spans, &named, said)?;
    Ok((found, faults))
}

/// The local signature of a module, and its faults in order. The tokens of the module have their
/// spans in `spans`, in order; a fault stands at the bytes of its tokens.
///
/// # Errors
///
/// `NoMemory` where memory is refused.
pub fn extract(
    alloc: Global,
    module: &Module,
    spans: &[Span],
) -> Result<(LocalSig, List<Fault>), NoMemory>
    ensures signature { IfOk result (λ found. found.0 ≡ local_signature (module_view «module».now)) }
    ensures faults { IfOk result (λ found. found.1 ≡ signature_faults (module_view «module».now) spans.now) }
{
    let bindings = bindings(alloc, module.items.as_slice())?;
    let scope = Scope::new(alloc, bindings)?;
    extracted(alloc, module, &scope, spans)
}

/// The signature of a source that has no tree: it is broken, and tells nothing else. It takes no
/// memory.
pub fn broken_signature(alloc: Global) -> LocalSig
    ensures { result ≡ broken_signature }
{
    LocalSig {
        broken: true,
        exports: List::new(alloc),
        aliases: List::new(alloc),
        imports: List::new(alloc),
    }
}
