//! The search among all modules.
ghost use Rattle.std.specs.Prelude.{◌≡◌, ◌<◌, All, IfOk, OnOk, length};
ghost use Rattle.flow_values.specs.Path.{IsRising};
ghost use Rattle.check_values.specs.Roots.{paths_of_rows};
ghost use Rattle.check_values.specs.Rows.{row_at};
ghost use Rattle.signature_reach.specs.Along.{signed, Knows, Grows, IsClosed, AgreeForAll};

use crate::looking::{look_at_all, look_at_starts};
use crate::starts::named_at;
use check_values::{Deps, RootRow, Sig};
use flow_values::{List, NoMemory, Path, Shared};
use std::alloc::Global;
use std::collections::BTreeSet;

// Looks at the modules that signatures name, and at those that theirs do.
fn follow(
    alloc: Global,
    modules: &[RootRow],
    signatures: &[Shared<Sig>],
    seen: &mut BTreeSet<Path>,
    found: &mut List<(Path, Shared<Sig>)>,
) -> Result<(), NoMemory>
    requires rising { IsRising (paths_of_rows modules.now) }
    requires many { length signatures.now ≡ length modules.now }
    requires known { Knows (row_at (signed modules.now signatures.now)) seen.old found.old }
    ensures grows { OnOk result (Grows (row_at (signed modules.now signatures.now)) (paths_of_rows modules.now) seen.old found.old seen.new found.new) }
    ensures closed { OnOk result (IsClosed (row_at (signed modules.now signatures.now)) found.new) }
{
    let mut at = 0;
    while at < found.len() {
        let named = named_at(alloc, found.as_slice(), at)?;
        look_at_all(modules, signatures, named.as_slice(), seen, found)?;
        at += 1;
    }
    Ok(())
}

/// The merged signatures of the modules that the modules of some numbers reach: those that their specifiers find, and with each of them
/// those that its signature names. `signatures` has one for each of all modules, whose paths rise, and `lists` the dependency list of each
/// number. It looks at no other signature than those, at each of them once, and finds it by halving.
///
/// # Errors
///
/// `NoMemory` where memory is refused.
pub fn reached_signatures(
    alloc: Global,
    modules: &[RootRow],
    signatures: &[Shared<Sig>],
    lists: &[Shared<Deps>],
    numbers: &[u32],
) -> Result<List<(Path, Shared<Sig>)>, NoMemory>
    requires rising { IsRising (paths_of_rows modules.now) }
    requires many { length signatures.now ≡ length modules.now }
    requires within { All (λ x. x < length lists.now) numbers.now }
    ensures { IfOk result (λ some. AgreeForAll (row_at (signed modules.now signatures.now)) lists.now numbers.now (row_at some)) }
{
    let mut seen = BTreeSet::new(alloc);
    let mut found = List::new(alloc);
    look_at_starts(
        alloc, modules, signatures, lists, numbers, &mut seen, &mut found,
    )?;
    follow(alloc, modules, signatures, &mut seen, &mut found)?;
    Ok(found)
}
