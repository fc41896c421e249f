//! Joins of types, of which some are joined first.
#![tactic(auto)]

ghost use Rattle.std.specs.Prelude.{◌≡◌, ◌∷◌, []};
ghost use Rattle.type_values.specs.declared.types.FlowType.{FlowType};
ghost use Rattle.type_terms.specs.Join.{join_of};

mod joining;

pub use joining::join_settled;

/// Of three types it is the same which two are joined first.
#[tactic(auto, using(crate::proofs::Joins::join_twice))]
pub fn join_twice()
    ensures { (a b c : FlowType) → join_of (join_of (a ∷ b ∷ []) ∷ c ∷ []) ≡ join_of (a ∷ join_of (b ∷ c ∷ []) ∷ []) }
{}
