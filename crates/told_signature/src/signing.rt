ghost use Rattle.std.specs.Prelude.{◌≡◌, IfOk, map, filter};
ghost use Rattle.std.specs.Ordering.{nat_cmp};
ghost use Rattle.std.specs.Cmp.Lexicographic.{slice_cmp};
ghost use Rattle.std.specs.BTreeSet.{contains};
ghost use Rattle.local_signatures.specs.Exports.{origin_of};
ghost use Rattle.named_rows.specs.Seen.{seen};
ghost use Rattle.told_signature.specs.Seen.{told_view, name_there, named_in, said_view};
ghost use Rattle.told_signature.specs.Signing.{IsSignatureOf};

use crate::leading::led_to;
use crate::reaching::reached;
use crate::telling::{Said, Told};
use check_values::{ImportRow, LocalSig, Origin};
use flow_values::{List, NoMemory, Text};
use named_rows::by_name;
use std::alloc::Global;
use std::collections::{BTreeMap, BTreeSet};
use type_values::FlowType;

/// The name that an import has in its module: `default` where it has none of its own.
///
/// # Errors
///
/// `NoMemory` where memory is refused.
pub fn name_there(alloc: Global, name: Option<&Text>) -> Result<Text, NoMemory>
    ensures { IfOk result (λ text. text ≡ name_there name.entry) }
{
    match name {
        Some(name) => name.share(),
        None => Text::from_bytes(alloc, b"default"),
    }
}

// What is said of an export that tells this.
fn origin_of(alloc: Global, told: &Told) -> Result<Origin, NoMemory>
    ensures { IfOk result (λ origin. origin ≡ origin_of (told_view told.now)) }
{
    match told {
        Told::Value(Some(ty), _) => Ok(Origin::Value(ty.share()?)),
        Told::Value(None, _) => Ok(Origin::Value(FlowType::Any)),
        Told::Alias(word) => Ok(Origin::Alias(word.share()?)),
        Told::Import {
            specifier,
            name,
            is_type,
            ..
        } => Ok(Origin::Import {
            spec: specifier.share()?,
            name: name_there(alloc, *name)?,
            is_type: *is_type,
        }),
        Told::Elsewhere {
            specifier,
            name,
            is_type,
        } => Ok(Origin::Import {
            spec: specifier.share()?,
            name: name.share()?,
            is_type: *is_type,
        }),
        Told::Nothing => Ok(Origin::Unknown),
    }
}

// What is said of an export by what its name or it itself tells.
#[tactic(auto, using(named_rows::proofs::FirstRows::lookup_is_row))]
fn origin_said(alloc: Global, named: &BTreeMap<Text, Told>, said: &Said) -> Result<Origin, NoMemory>
    ensures { IfOk result (λ origin. origin ≡ origin_of (said_view (named_in named.now.entries) said.now)) }
{
    match said {
        Said::Own(told) => origin_of(alloc, told),
        Said::Name(word) => match named.get(*word) {
            Some(told) => origin_of(alloc, told),
            None => Ok(Origin::Unknown),
        },
    }
}

#[tactic(auto, using(crate::proofs::Listed::mapped_next))]
fn origins(
    alloc: Global,
    named: &BTreeMap<Text, Told>,
    exports: &[(Text, Said)],
) -> Result<List<(Text, Origin)>, NoMemory>
    ensures { IfOk result (λ origins. origins ≡ map (λ row. (row.0, origin_of row.1)) (seen (said_view (named_in named.now.entries)) exports.now)) }
{
    let mut origins = List::new(alloc);
    for i in 0..exports.len() {
        let row = &exports[i];
        let origin = origin_said(alloc, named, &row.1)?;
        origins.push((row.0.share()?, origin))?;
    }
    Ok(origins)
}

// The aliases that are reached, in order of their names.
fn reached_aliases(
    alloc: Global,
    aliases: BTreeMap<Text, FlowType>,
    names: &BTreeSet<Text>,
) -> Result<List<(Text, FlowType)>, NoMemory>
    ensures { IfOk result (λ kept. kept ≡ filter (λ row. contains (slice_cmp nat_cmp) names.now row.0) aliases.entries) }
{
    let mut aliases = aliases;
    let mut kept = List::new(alloc);
    while let Some((name, ty)) = aliases.pop_first() {
        if names.contains(&name) {
            kept.push((name, ty))?;
        }
    }
    Ok(kept)
}

// Another handle of an import's row.
fn share_import(row: &ImportRow) -> Result<ImportRow, NoMemory>
    ensures { IfOk result (λ shared. shared ≡ row.now) }
{
    Ok(ImportRow {
        local: row.local.share()?,
        spec: row.spec.share()?,
        name: row.name.share()?,
        is_type: row.is_type,
    })
}

// The imports that are reached, in their order.
#[tactic(auto, using(crate::proofs::Listed::filter_more))]
fn reached_imports(
    alloc: Global,
    imports: &[ImportRow],
    names: &BTreeSet<Text>,
) -> Result<List<ImportRow>, NoMemory>
    ensures { IfOk result (λ kept. kept ≡ filter (λ row. contains (slice_cmp nat_cmp) names.now row.local) imports.now) }
{
    let mut kept = List::new(alloc);
    for i in 0..imports.len() {
        let row = &imports[i];
        if !names.contains(&row.local) {
            continue;
        }
        kept.push(share_import(row)?)?;
    }
    Ok(kept)
}

/// The local signature of a module by its `exports`, in order of their names. `named` has what each
/// name of the module tells as a value, `aliases` has the aliases, each name once, and `imports` the
/// imports, in order. It has all exports, and the aliases and imports that they reach.
///
/// # Errors
///
/// `NoMemory` where memory is refused.
pub fn signature(
    alloc: Global,
    named: &BTreeMap<Text, Told>,
    exports: &[(Text, Said)],
    aliases: Vec<(Text, FlowType)>,
    imports: &[ImportRow],
) -> Result<LocalSig, NoMemory>
    ensures { IfOk result (λ sig. IsSignatureOf (seen (said_view (named_in named.now.entries)) exports.now) aliases.items imports.now sig) }
{
    let aliases = by_name(alloc, aliases)?;
    let names = reached(alloc, &aliases, led_to(alloc, named, exports)?)?;
    Ok(LocalSig {
        broken: false,
        exports: origins(alloc, named, exports)?,
        aliases: reached_aliases(alloc, aliases, &names)?,
        imports: reached_imports(alloc, imports, &names)?,
    })
}
