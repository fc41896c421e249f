//! The errors of a module in a program: those by all merged signatures, and those by the signatures alone that it reaches, which is
//! what a job is to find. That they are the same is the law of `reach_law`. The definitions stand in `specs/`; the code here is what
//! holds of them at once, as the contract of a function that does nothing.
#![tactic(auto)]

ghost use Rattle.errors_by_reach.specs.Law.{CutAgrees, OneAnswer, OneByReach};

/// A module has one list of errors by all signatures and one by those that it reaches; by these it has the same with all signatures
/// that agree there.
pub fn errors_by_reach()
    ensures one { OneAnswer }
    ensures one_by_reach { OneByReach }
    ensures cut { CutAgrees }
{}
