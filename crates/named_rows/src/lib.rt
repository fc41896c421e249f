//! Rows of a name and what stands beside it: in order of the names, and the first row of each name.
#![tactic(auto)]

ghost use Rattle.std.specs.Prelude.{◌≡◌, IfOk};
ghost use Rattle.std.specs.Option.{option_copied};
ghost use Rattle.check_values.specs.Rows.{by_name, first_of_each};
ghost use Rattle.named_rows.specs.Seen.{seen, found_by_spec};

use check_values::DepRow;
use flow_values::{NoMemory, Path, Text};
use std::alloc::Global;
use std::collections::{BTreeMap, BTreeSet};

/// `rows` in order of the bytes of their names, of those of one name the first one. It takes
/// `n log n` comparisons of names for `n` rows.
///
/// # Errors
///
/// `NoMemory` where memory is refused.
#[tactic(auto, using(crate::proofs::ByName::put_all_none, crate::proofs::ByName::turned))]
pub fn by_name<T: Drop>(alloc: Global, rows: Vec<(Text, T)>) -> Result<BTreeMap<Text, T>, NoMemory>
    ensures { IfOk result (λ map. map.entries ≡ by_name rows.items) }
{
    let mut rows = rows;
    let mut map = BTreeMap::new(alloc);
    while let Some((name, value)) = rows.pop() {
        map.insert(name, value)?;
    }
    Ok(map)
}

/// The rows of `by_name` as a list.
///
/// # Errors
///
/// `NoMemory` where memory is refused.
pub fn sorted_by_name<T: Drop>(
    alloc: Global,
    rows: Vec<(Text, T)>,
) -> Result<Vec<(Text, T)>, NoMemory>
    ensures { IfOk result (λ sorted. sorted.items ≡ by_name rows.items) }
{
    let mut map = by_name(alloc, rows)?;
    let mut sorted = Vec::new(alloc);
    while let Some((name, value)) = map.pop_first() {
        sorted.push((name, value))?;
    }
    Ok(sorted)
}

/// Of `rows` the first one of each name, in the order in which they stand. It takes `n log n`
/// comparisons of names for `n` rows.
///
/// # Errors
///
/// `NoMemory` where memory is refused.
pub fn first_of_each<T: Copy>(alloc: Global, rows: &[(Text, T)]) -> Result<Vec<(Text, T)>, NoMemory>
    ensures { IfOk result (λ firsts. firsts.items ≡ first_of_each rows.now) }
{
    let mut seen = BTreeSet::new(alloc);
    let mut firsts = Vec::new(alloc);
    for i in 0..rows.len() {
        let row = &rows[i];
        if !seen.insert(row.0.share()?)? {
            continue;
        }
        firsts.push((row.0.share()?, row.1))?;
    }
    Ok(firsts)
}

/// The specifiers of a module's dependencies, each with the path that it finds.
///
/// # Errors
///
/// `NoMemory` where memory is refused.
#[tactic(auto, using(crate::proofs::Lists::seen_more))]
pub fn found_rows<'a>(
    alloc: Global,
    rows: &'a [DepRow],
) -> Result<Vec<(Text, Option<&'a Path>)>, NoMemory>
    ensures { IfOk result (λ named. seen option_copied named.items ≡ found_by_spec rows.now) }
{
    let mut named = Vec::new(alloc);
    for i in 0..rows.len() {
        let row = &rows[i];
        named.push((row.spec.share()?, row.found.as_ref()))?;
    }
    Ok(named)
}
