//! Where a search begins, and how it goes on.
ghost use Rattle.std.specs.Prelude.{◌≡◌, ◌<◌, ◌++◌, IfOk, OnOk, length, option_to_list};
ghost use Rattle.std.specs.List.{flat_map};
ghost use Rattle.signature_reach.specs.Along.{AreNamedAt};

use check_values::{DepRow, Sig};
use flow_values::{List, NoMemory, Path, Shared};
use named_modules::add_named;
use std::alloc::Global;

// Adds the module that a specifier finds, if it finds one.
fn add_found(row: &DepRow, out: &mut List<Path>) -> Result<(), NoMemory>
    ensures { OnOk result (out.new ≡ out.old ++ option_to_list row.now.found) }
{
    match &row.found {
        Some(found) => out.push(found.share()?),
        None => Ok(()),
    }
}

/// The modules that specifiers find.
///
/// # Errors
///
/// `NoMemory` where memory is refused.
#[tactic(auto, using(named_rows::proofs::Lists::flat_more))]
pub fn found_paths(alloc: Global, rows: &[DepRow]) -> Result<List<Path>, NoMemory>
    ensures { IfOk result (λ paths. paths ≡ flat_map (λ row. option_to_list row.found) rows.now) }
{
    let mut paths = List::new(alloc);
    for i in 0..rows.len() {
        add_found(&rows[i], &mut paths)?;
    }
    Ok(paths)
}

/// The modules that the signature at a place of rows names.
///
/// # Errors
///
/// `NoMemory` where memory is refused.
pub fn named_at(
    alloc: Global,
    rows: &[(Path, Shared<Sig>)],
    at: usize,
) -> Result<List<Path>, NoMemory>
    requires { at < length rows.now }
    ensures { IfOk result (AreNamedAt rows.now at) }
{
    let row = &rows[at];
    let mut named = List::new(alloc);
    add_named(row.1.get(), &mut named)?;
    Ok(named)
}
