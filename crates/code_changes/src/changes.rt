//! What code may change, in order.
#![tactic(auto, using(crate::proofs::Telling::told_behind))]

ghost use Rattle.std.specs.Prelude.{◌≡◌, ◌++◌, OnOk};
ghost use Rattle.typing.specs.Changes.{changes_of_ex, changes_of_function, changes_of_simple};
ghost use Rattle.code_tree.specs.View.{expr_view, function_view, simple_view};
ghost use Rattle.code_changes.specs.View.{changes_view};

use crate::change::Change;
use crate::expressions::{walk_expr, walk_function};
use crate::statements::walk_simple;
use crate::walk::Walk;
use code_tree::{Expr, Function, Simple};
use flow_values::{List, NoMemory};
use std::alloc::Global;
use std::mem;

/// Puts what an expression may change behind other changes.
///
/// # Errors
///
/// `NoMemory` where memory is refused. Some of the changes may be there then.
pub fn changes_of_expr(alloc: Global, e: &Expr, out: &mut List<Change>) -> Result<(), NoMemory>
    ensures { OnOk result (changes_view out.new ≡ changes_view out.old ++ changes_of_ex (expr_view e.now)) }
{
    let mut walk = Walk::behind(alloc, mem::replace(out, List::new(alloc)));
    let walked = walk_expr(e, &mut walk);
    *out = walk.into_changes();
    walked
}

/// Puts what a function may change behind other changes.
///
/// # Errors
///
/// `NoMemory` where memory is refused. Some of the changes may be there then.
pub fn changes_of_function(
    alloc: Global,
    function: &Function,
    out: &mut List<Change>,
) -> Result<(), NoMemory>
    ensures { OnOk result (changes_view out.new ≡ changes_view out.old ++ changes_of_function (function_view function.now)) }
{
    let mut walk = Walk::behind(alloc, mem::replace(out, List::new(alloc)));
    let walked = walk_function(function, &mut walk);
    *out = walk.into_changes();
    walked
}

/// Puts what a simple statement may change behind other changes.
///
/// # Errors
///
/// `NoMemory` where memory is refused. Some of the changes may be there then.
pub fn changes_of_simple(
    alloc: Global,
    simple: &Simple,
    out: &mut List<Change>,
) -> Result<(), NoMemory>
    ensures { OnOk result (changes_view out.new ≡ changes_view out.old ++ changes_of_simple (simple_view simple.now)) }
{
    let mut walk = Walk::behind(alloc, mem::replace(out, List::new(alloc)));
    let walked = walk_simple(simple, &mut walk);
    *out = walk.into_changes();
    walked
}
