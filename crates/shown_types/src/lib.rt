//! The type that is shown at a line and a column of a source, and the law that there is one answer and one only. The definitions
//! stand in `specs/`; the code here is the law, as the contracts of calls that do nothing.
#![tactic(auto)]

ghost use Rattle.shown_types.specs.Law.{OneType, EachHasType};

/// There is one type at most at a line and a column, or none.
#[tactic(auto, using(crate::proofs::Types::one_type))]
pub fn one_type()
    ensures { OneType }
{}

/// There is one, or none, whatever the merged signatures of a program are.
#[tactic(auto, using(crate::proofs::Types::each_type))]
pub fn each_has_type()
    ensures { EachHasType }
{
    errors_law::each_sees();
}
