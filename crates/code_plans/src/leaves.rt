//! Code that is no loop, no block and no list of such.
#![tactic(auto, using(crate::proofs::Adding::adds_all))]

ghost use Rattle.std.specs.Prelude.{◌≡◌, [], IfOk, OnOk};
ghost use Rattle.typing.specs.Changes.{changes_of_ex, changes_of_function, changes_of_simple};
ghost use Rattle.code_tree.specs.View.{expr_view, function_view, simple_view};
ghost use Rattle.code_plans.specs.Plans.{no_plan};
ghost use Rattle.code_plans.specs.View.{plan_view, Adds};

use crate::plan::Plan;
use code_changes::{Change, changes_of_expr, changes_of_function, changes_of_simple};
use code_tree::{Expr, Function, Simple};
use flow_values::{List, NoMemory};
use std::alloc::Global;

/// Puts what an expression may change behind other changes.
///
/// # Errors
///
/// `NoMemory` where memory is refused. Some of the changes may be there then.
pub(crate) fn plan_of_expr(
    alloc: Global,
    e: &Expr,
    out: &mut List<Change>,
) -> Result<Plan, NoMemory>
    ensures made { IfOk result (λ made. plan_view made ≡ no_plan) }
    ensures told { OnOk result (Adds out.old out.new (changes_of_ex (expr_view e.now))) }
{
    changes_of_expr(alloc, e, out)?;
    Ok(Plan::nothing(alloc))
}

/// Puts what a function may change behind other changes.
///
/// # Errors
///
/// `NoMemory` where memory is refused. Some of the changes may be there then.
pub(crate) fn plan_of_function(
    alloc: Global,
    function: &Function,
    out: &mut List<Change>,
) -> Result<Plan, NoMemory>
    ensures made { IfOk result (λ made. plan_view made ≡ no_plan) }
    ensures told { OnOk result (Adds out.old out.new (changes_of_function (function_view function.now))) }
{
    changes_of_function(alloc, function, out)?;
    Ok(Plan::nothing(alloc))
}

/// Puts what a simple statement may change behind other changes.
///
/// # Errors
///
/// `NoMemory` where memory is refused. Some of the changes may be there then.
pub(crate) fn plan_of_simple(
    alloc: Global,
    simple: &Simple,
    out: &mut List<Change>,
) -> Result<Plan, NoMemory>
    ensures made { IfOk result (λ made. plan_view made ≡ no_plan) }
    ensures told { OnOk result (Adds out.old out.new (changes_of_simple (simple_view simple.now))) }
{
    changes_of_simple(alloc, simple, out)?;
    Ok(Plan::nothing(alloc))
}

/// Nothing stands there, and nothing is changed.
///
/// # Errors
///
/// It never fails, as the other ways may.
#[tactic(auto, using(crate::proofs::Adding::adds_none))]
pub(crate) fn nothing(alloc: Global, out: &mut List<Change>) -> Result<Plan, NoMemory>
    ensures made { IfOk result (λ made. plan_view made ≡ no_plan) }
    ensures told { OnOk result (Adds out.old out.new []) }
{
    Ok(Plan::nothing(alloc))
}
