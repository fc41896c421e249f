//! The law that each module has errors, one list of them or an empty one, whatever the merged signatures of a program are: what a check
//! answers is defined for all of them. The definitions stand in `errors_by_reach`; the code here is the law, as the contract of a call
//! that does nothing.
#![tactic(auto)]

ghost use Rattle.errors_law.specs.Law.{EachHasErrors, EachSees, EachSeesReached};

pub use errors_by_reach;

/// Each module has errors.
pub fn each_has_errors()
    ensures { EachHasErrors }
{}

/// Each module sees something by all signatures of a program, and by those that it reaches.
pub fn each_sees()
    ensures all { EachSees }
    ensures reached { EachSeesReached }
{}
