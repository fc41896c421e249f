//! Signatures with the rows that are asked for.
ghost use Rattle.std.specs.Prelude.{◌≡◌, ◌<◌, ◌++◌, ◌∷◌, [], List, ℕ, IfOk, IfSome, OnOk, All, map, length, nat_le};
ghost use Rattle.std.specs.List.{filter_map};
ghost use Rattle.std.specs.Option.{option_copied};
ghost use Rattle.flow_values.specs.Path.{IsRising};
ghost use Rattle.check_values.specs.Rows.{row_at};
ghost use Rattle.asked_exports.specs.Asked.{names_rise, rows_of, row_of, is_small, cut, cut_all};
ghost use Rattle.asked_exports.specs.Gathering.{names_at, IsRowOf};

use crate::asking::{Asked, take_names};
use check_values::{Export, Sig};
use flow_values::{List, NoMemory, Path, Shared, Text};
use std::alloc::Global;

// A signature with at most so many exports is handed on whole, which takes no time: an ordinary module has no more, and numbering so few
// costs a job less than asking for its own names. So only a job beside a larger module asks.
const FEW: usize = 32;

/// Whether a signature is handed on whole.
pub(crate) fn is_small(sig: &Sig) -> bool
    ensures { result ≡ is_small sig.now }
{
    sig.exports.len() <= FEW
}

fn share(export: &Export) -> Result<Export, NoMemory>
    ensures { IfOk result (λ copy. copy ≡ export.now) }
{
    match export {
        Export::Value(t) => Ok(Export::Value(t.share()?)),
        Export::Alias { module, name } => Ok(Export::Alias {
            module: module.share()?,
            name: name.share()?,
        }),
        Export::Unknown => Ok(Export::Unknown),
        Export::Cyclic => Ok(Export::Cyclic),
    }
}

// The place of a name among exports.
fn place_of(exports: &[(Text, Export)], name: &Text) -> Option<usize>
    requires { names_rise exports.now }
    ensures { IsRowOf exports.now name.now result }
{
    exports
        .binary_search_by(|row| row.0.as_bytes().cmp(name.as_bytes()))
        .ok()
}

// Puts the row of a name behind others, if there is one.
fn add_row(
    exports: &[(Text, Export)],
    name: &Text,
    rows: &mut List<(Text, Export)>,
) -> Result<(), NoMemory>
    requires { names_rise exports.now }
    ensures { OnOk result (rows.new ≡ rows.old ++ row_of exports.now name.now) }
{
    match place_of(exports, name) {
        Some(at) => rows.push((name.share()?, share(&exports[at].1)?)),
        None => Ok(()),
    }
}

// The rows of some names, each found by halving.
fn rows_of(
    alloc: Global,
    exports: &[(Text, Export)],
    names: &[Text],
) -> Result<List<(Text, Export)>, NoMemory>
    requires { names_rise exports.now }
    ensures { IfOk result (λ rows. rows ≡ rows_of exports.now names.now) }
{
    let mut rows = List::new(alloc);
    for i in 0..names.len() {
        add_row(exports, &names[i], &mut rows)?;
    }
    Ok(rows)
}

// A signature with the rows that are asked for; one with few exports is whole.
fn cut(alloc: Global, sig: &Shared<Sig>, names: &[Text]) -> Result<Shared<Sig>, NoMemory>
    requires { names_rise sig.now.exports }
    ensures { IfOk result (λ own. own ≡ cut names.now sig.now) }
{
    let whole = sig.get();
    if is_small(whole) {
        return sig.share();
    }
    let rows = rows_of(alloc, whole.exports.as_slice(), names)?;
    Shared::new(
        alloc,
        Sig {
            broken: whole.broken,
            exports: rows,
            aliases: List::new(alloc),
        },
    )
}

/// Signatures with the rows that are asked for: of signatures under one path the first is asked.
///
/// # Errors
///
/// `NoMemory` where memory is refused.
#[tactic(auto, using(crate::proofs::Outside::cut_next, crate::proofs::Outside::cut_end))]
pub(crate) fn cut_all(
    alloc: Global,
    asked: Asked,
    rows: &[(Path, Shared<Sig>)],
) -> Result<List<(Path, Shared<Sig>)>, NoMemory>
    requires { All (λ row. names_rise row.1.exports) rows.now }
    ensures { IfOk result (λ own. own ≡ cut_all (names_at asked) rows.now) }
{
    let mut asked = asked;
    let mut own = List::new(alloc);
    for i in 0..rows.len() {
        let row = &rows[i];
        let names = take_names(alloc, &mut asked, &row.0);
        let sig = cut(alloc, &row.1, names.as_slice())?;
        own.push((row.0.share()?, sig))?;
    }
    Ok(own)
}
