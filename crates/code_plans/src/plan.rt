//! Plans of code.
#![tactic(auto)]

ghost use Rattle.std.specs.Prelude.{◌≡◌, slice_get, IfOk};
ghost use Rattle.std.specs.Option.{option_and_then, option_copied};
ghost use Rattle.code_changes.specs.View.{changes_view};
ghost use Rattle.code_plans.specs.Plans as p;
ghost use Rattle.code_plans.specs.Plans.{includes, no_change, no_plan, plan, part_of};
ghost use Rattle.code_plans.specs.View.{plan_view, plans_view, IsPlan};
ghost use Rattle.code_plans.specs.declared.plan.Plan.{out-Plan};

use crate::distinct::distinct;
use code_changes::Change;
use flow_values::{List, NoMemory};
use std::alloc::Global;

/// What code may change, and the plans of its parts.
#[cycle(plans)]
#[derive(Debug, Drop)]
pub struct Plan {
    /// The changes. Which they are tells all: no order, and not how often each stands there.
    pub changes: List<Change>,
    /// The plans of the parts, in order.
    pub parts: List<Plan>,
}

impl Plan {
    /// Of what is no loop, no block and no list of such.
    #[tactic(auto, using(crate::proofs::Views::nothing_made))]
    pub(crate) fn nothing(alloc: Global) -> Plan
        ensures { plan_view result ≡ no_plan }
    {
        Plan {
            changes: List::new(alloc),
            parts: List::new(alloc),
        }
    }

    /// Of what is no loop and no block, but has parts.
    #[tactic(auto, using(crate::proofs::Views::group_made))]
    pub(crate) fn of_parts(alloc: Global, parts: List<Plan>) -> Plan
        ensures { plan_view result ≡ plan no_change (plans_view parts) }
    {
        Plan {
            changes: List::new(alloc),
            parts,
        }
    }

    /// Of code with these changes and parts.
    ///
    /// # Errors
    ///
    /// `NoMemory` where memory is refused.
    #[tactic(auto, using(crate::proofs::Views::plan_made))]
    pub(crate) fn with_changes(
        alloc: Global,
        changes: &[Change],
        parts: List<Plan>,
    ) -> Result<Plan, NoMemory>
        ensures { IfOk result (λ made. plan_view made ≡ plan (includes (changes_view changes.now)) (plans_view parts)) }
    {
        let changes = distinct(alloc, changes)?;
        Ok(Plan { changes, parts })
    }
}

/// The plan of a part, where there is a plan that has it, and else none.
#[tactic(auto, using(crate::proofs::Views::part_found, crate::proofs::Views::no_part))]
pub fn part(plan: Option<&Plan>, at: usize) -> Option<&Plan>
    ensures found { option_copied result ≡ option_and_then (λ given. slice_get (out-Plan given).parts at) (option_copied plan.entry) }
    ensures tells { (whole : p.Plan) → IsPlan (option_copied plan.entry) whole → IsPlan (option_copied result) (part_of whole at) }
{
    match plan {
        Some(plan) => plan.parts.get(at),
        None => None,
    }
}
