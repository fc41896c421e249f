//! The paths that came and went.
ghost use Rattle.std.specs.Prelude.{◌≡◌, ◌++◌, ◌∷◌, [], IfOk, OnOk, length};
ghost use Rattle.flow_values.specs.Path.{IsRising};
ghost use Rattle.check_values.specs.Roots.{paths_of};
ghost use Rattle.edited_root.specs.From.{numbers_from};
ghost use Rattle.moved_paths.specs.Flags.{where_off};
ghost use Rattle.moved_paths.specs.Moved.{AreMoved};

use crate::flags::{are_met, are_numbered};
use check_values::{Root, RootRow};
use flow_values::{List, NoMemory};
use std::alloc::Global;

/// The modules of an edited program that the old one does not have, and those of the old one that it has no more.
#[derive(Drop)]
pub struct Moved {
    /// The modules that came, by rising paths.
    pub came: Root,
    /// The modules that went, by rising paths.
    pub went: Root,
}

// Adds a module, where its flag is off.
fn add_off(row: &RootRow, flag: bool, modules: &mut List<RootRow>) -> Result<(), NoMemory>
    ensures { OnOk result (modules.new ≡ modules.old ++ where_off (flag ∷ []) (row.now ∷ [])) }
{
    if flag {
        return Ok(());
    }
    modules.push(RootRow {
        path: row.path.share()?,
        row: row.row,
        text: row.text.share()?,
    })
}

// The modules whose flags are off.
#[tactic(auto, using(crate::proofs::Turned::off_all))]
fn rows_off(alloc: Global, rows: &[RootRow], flags: &[bool]) -> Result<Root, NoMemory>
    requires { length flags.now ≡ length rows.now }
    ensures { IfOk result (λ root. root.modules ≡ where_off flags.now rows.now) }
{
    let mut modules = List::new(alloc);
    for i in 0..rows.len() {
        add_off(&rows[i], flags[i], &mut modules)?;
    }
    Ok(Root { modules })
}

/// The paths that came and went: `from` has for each module of the new root the number that it had in the old one, if it had one. It
/// takes time in proportion to the modules.
///
/// # Errors
///
/// `NoMemory` where memory is refused.
pub fn moved_paths(
    alloc: Global,
    old: &Root,
    new: &Root,
    from: &[Option<u32>],
) -> Result<Moved, NoMemory>
    requires old { IsRising (paths_of old.now) }
    requires new { IsRising (paths_of new.now) }
    requires from { from.now ≡ numbers_from old.now new.now }
    ensures { IfOk result (AreMoved (paths_of old.now) (paths_of new.now)) }
{
    let there = are_numbered(alloc, from)?;
    let came = rows_off(alloc, new.modules.as_slice(), there.as_slice())?;
    let met = are_met(alloc, from, old.modules.len())?;
    let went = rows_off(alloc, old.modules.as_slice(), met.as_slice())?;
    Ok(Moved { came, went })
}

/// What came and went where the paths are the same.
#[tactic(auto, using(crate::proofs::Beyond::none_moved))]
pub fn nothing_moved(alloc: Global, old: &Root, new: &Root) -> Moved
    requires { paths_of new.now ≡ paths_of old.now }
    ensures { AreMoved (paths_of old.now) (paths_of new.now) result }
{
    Moved {
        came: Root {
            modules: List::new(alloc),
        },
        went: Root {
            modules: List::new(alloc),
        },
    }
}
