//! What members give, and their faults.
ghost use Rattle.std.specs.Prelude.{◌≡◌, ◌++◌, ◌∷◌, [], List, OnOk, IfOk};
ghost use Rattle.type_terms.specs.Join.{join_of};
ghost use Rattle.typing.specs.Members.{gives, fails};
ghost use Rattle.member_steps.specs.View.{step_view};

use check_values::Fault;
use flow_values::{List, NoMemory};
use std::alloc::Global;
use type_terms::join;
use type_values::FlowType;

/// What a member gives, and its faults.
#[derive(Debug, Drop)]
pub struct Step {
    pub ty: FlowType,
    pub faults: List<Fault>,
}

impl Step {
    /// A member without a fault.
    pub fn gives(alloc: Global, ty: FlowType) -> Step
        ensures { step_view result ≡ gives ty }
    {
        Step {
            ty,
            faults: List::new(alloc),
        }
    }

    /// A member with a fault gives `any`.
    ///
    /// # Errors
    ///
    /// `NoMemory` where memory is refused.
    pub fn fails(alloc: Global, fault: Fault) -> Result<Step, NoMemory>
        ensures { IfOk result (λ step. step_view step ≡ fails fault) }
    {
        let mut faults = List::new(alloc);
        faults.push(fault)?;
        Ok(Step {
            ty: FlowType::Any,
            faults,
        })
    }
}

/// What the members so far give.
#[derive(Debug, Drop)]
pub struct Steps {
    types: List<FlowType>,
    pub faults: List<Fault>,
}

impl Steps {
    ghost use Rattle.typing.specs.Members as typing;
    ghost use Rattle.member_steps.specs.View.{steps_view, summed};

    /// No members.
    pub fn new(alloc: Global) -> Steps
        ensures { steps_view result ≡ summed [] }
    {
        Steps {
            types: List::new(alloc),
            faults: List::new(alloc),
        }
    }

    /// One more member.
    ///
    /// # Errors
    ///
    /// `NoMemory` where memory is refused.
    #[tactic(auto, using(crate::proofs::Summing::summed_more))]
    pub fn add(&mut self, step: Step) -> Result<(), NoMemory>
        ensures { OnOk result ((steps : List typing.Step) → steps_view self.old ≡ summed steps → steps_view self.new ≡ summed (steps ++ step_view step ∷ [])) }
    {
        self.types.push(step.ty)?;
        self.faults.append(step.faults)
    }

    /// The join of what the members give.
    ///
    /// # Errors
    ///
    /// `NoMemory` where memory is refused.
    pub fn ty(&self, alloc: Global) -> Result<FlowType, NoMemory>
        ensures { IfOk result (λ t. t ≡ join_of (steps_view self.now).0) }
    {
        join(alloc, self.types.as_slice())
    }
}
