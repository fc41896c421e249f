//! The law of the type at a place of a module. The definitions, which keep the innermost expression so far while the module is read,
//! stand in `typing` and `module_errors`; the code here is the law that says what is kept in the end, as the contract of a call that
//! does nothing.
#![tactic(auto)]

ghost use Rattle.seen_law.specs.Innermost.{TellsInnermost};

/// The type at a place is that of an expression that is read and covers it, with the least span; of equal spans it is the inner one,
/// which is read first. There is none only where no expression that is read covers the place.
pub fn innermost()
    ensures { TellsInnermost }
{}
