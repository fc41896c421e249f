//! The law that a module's errors depend on the merged signatures of other modules where it reaches alone. It is one of errors by all
//! signatures that there are, which are cut nowhere; so what a job finds by the signatures that its module reaches are the errors of a
//! full check. The definitions stand in `errors_by_reach`; the code here is the law, as the contracts of calls that do nothing.
#![tactic(auto)]

ghost use Rattle.reach_law.specs.Law.{CutIsRight, ErrorsByReach, JobsAreRight, KeyLaw, TypeCutIsRight, TypeKeyLaw, TypesByReach};

/// What a module sees by signatures and by others that say the same where it reaches gives the same errors, and the same types at its
/// places.
pub fn errors_by_reach()
    ensures errors { ErrorsByReach }
    ensures types { TypesByReach }
{}

/// A module's errors, and the types at its places, are the same in all programs whose merged signatures agree where it reaches.
pub fn key_law()
    ensures errors { KeyLaw }
    ensures types { TypeKeyLaw }
{}

/// A module's errors by the signatures that it reaches are those by all, as are the types at its places; and a job finds them that is
/// told no more than these.
pub fn cut_is_right()
    ensures errors { CutIsRight }
    ensures types { TypeCutIsRight }
    ensures jobs { JobsAreRight }
{}
