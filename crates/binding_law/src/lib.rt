//! Laws of what code changes, and of the variables that its names mean. The definitions, which go by names, stand in `typing` and
//! `module_errors`; the code here is the laws that say what stands in the code where they tell of a change, as the contracts of calls
//! that do nothing.
#![tactic(auto)]

ghost use Rattle.binding_law.specs.Ways.{ChangesAreAssignments};
ghost use Rattle.binding_law.specs.Scopes.{PartsAreRead, FindsSameUnlessBound, MeansSameUnlessBound, SharedIsAssignedInside, NumbersAreAssigned};
ghost use Rattle.binding_law.specs.Placed.{NumbersTellVariables, SharedNumbersAreAssigned};

/// What a piece of code may change: a variable where an assignment to its name stands in the code, and on the way to it no function,
/// block or function expression binds the name (told to be in an inner function exactly where the way leads into one); the properties of
/// a name where one is assigned anywhere in it; and all properties where outside of inner functions an element is assigned or something
/// is called.
pub fn changes_are_assignments()
    ensures { ChangesAreAssignments }
{}

/// The bodies of functions and arrows, blocks, statements and items are read in the scopes of which the other laws speak.
pub fn parts_are_read()
    ensures { PartsAreRead }
{}

/// From the scope in which a piece of code is read to that in which something inside is read, a name goes on to mean the same variable,
/// with the same number, exactly where no function, block or function expression in between binds the name.
pub fn names_find_variables()
    ensures same { FindsSameUnlessBound }
    ensures means { MeansSameUnlessBound }
{}

/// In code of the grammar the number tells the variable: a name that is bound in a function, an arrow, a block or a module has the same
/// number wherever it means the same variable inside, and another one, or none, wherever it does not.
pub fn numbers_tell_variables()
    ensures { NumbersTellVariables }
{}

/// A parameter or `let` is told to be assigned in a function inside its scope's function exactly where an assignment stands in one that
/// finds it: for the scopes of blocks, functions and arrows, and for that of a module. In code of the grammar that is an assignment that
/// finds its number.
pub fn shared_is_assigned_inside()
    ensures found { SharedIsAssignedInside }
    ensures numbered { SharedNumbersAreAssigned }
{}

/// The numbers of the variables that a loop or another piece of code may change are those that some assignment in it finds.
pub fn numbers_are_assigned()
    ensures { NumbersAreAssigned }
{}
