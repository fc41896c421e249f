//! Laws of how names, statements and expressions are read. The definitions stand in `typing` and `module_errors`; the code here is the
//! laws, as the contracts of calls that do nothing.
#![tactic(auto)]

ghost use Rattle.typing_laws.specs.Numbers.{EachNumberTells, KeepsConstants};
ghost use Rattle.typing_laws.specs.Breaks.{BreaksOnlyJoin};

/// The number of a name tells whether it is constant: that of each name of a module's scope, and of each scope that is entered from
/// one whose names tell so. Of the variable of such a name an arrow or a function expression begins with the fact where it is constant,
/// and with none where it is not.
pub fn each_number_tells()
    ensures tells { EachNumberTells }
    ensures keeps { KeepsConstants }
{}

/// The facts at a `break` are joined behind those at the ones before it in its loop, and nothing that is read depends on those.
pub fn breaks_only_join()
    ensures { BreaksOnlyJoin }
{}
