//! What code may change, as it has to be known before the code is read.
#![tactic(auto)]

ghost use Rattle.std.specs.Prelude.{◌≡◌, List, IfOk};
ghost use Rattle.code_tree.specs.View.{expr_view};
ghost use Rattle.typing.specs.Changes.{Change, changes_of_ex};
ghost use Rattle.code_plans.specs.Plans.{includes, planned};
ghost use Rattle.code_plans.specs.View.{plan_view};
ghost use Rattle.binders.specs.View.{TellsInner};

use code_changes::{changes_of_expr, inner_names};
use code_plans::Plan;
use code_tree::Expr;
use flow_values::{List, NoMemory, Text};
use std::alloc::Global;
use std::collections::BTreeSet;

/// The names that functions inside code with a plan assign.
///
/// # Errors
///
/// `NoMemory` where memory is refused.
pub(crate) fn set_by_plan(alloc: Global, plan: &Plan) -> Result<BTreeSet<Text>, NoMemory>
    ensures { (changes : List Change) → planned (plan_view plan.now) ≡ includes changes → IfOk result (λ names. TellsInner names changes) }
{
    let names = inner_names(alloc, plan.changes.as_slice())?;
    Ok(names)
}

/// The names that functions inside an expression assign.
///
/// # Errors
///
/// `NoMemory` where memory is refused.
#[tactic(auto, using(crate::proofs::Leaving::inner_told, crate::proofs::Leaving::alone_told))]
pub(crate) fn set_in_expr(alloc: Global, e: &Expr) -> Result<BTreeSet<Text>, NoMemory>
    ensures { IfOk result (λ names. TellsInner names (changes_of_ex (expr_view e.now))) }
{
    let mut changes = List::new(alloc);
    changes_of_expr(alloc, e, &mut changes)?;
    let names = inner_names(alloc, changes.as_slice())?;
    Ok(names)
}
