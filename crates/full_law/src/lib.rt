//! The law that each program has a full check: so what the program prints over a folder, and at each line of a script, is defined
//! whatever their content is. With it stand two laws that it needs: each source has its tokens, or one fault; and each tree of the
//! grammar is the tree of some value of the code, so no module is left out by how the code keeps trees. The definitions stand in
//! `js_lexer`, `js_grammar`, `js_tree` and `program_check`; the code here is the laws, as contracts of calls that do nothing.
#![tactic(auto)]

ghost use Rattle.full_law.specs.Law.{EachFull};
ghost use Rattle.full_law.specs.Lexing.{EachHasAnswer};
ghost use Rattle.full_law.specs.Trees.{EachModuleHasATree};

pub use program_check;
pub use program_check::source_front;

/// Each source has tokens, or a fault that is not want of memory.
pub fn each_has_answer()
    ensures { EachHasAnswer }
{}

/// Each module of the grammar is what some tree of the code stands for.
pub fn each_module_has_a_tree()
    ensures { EachModuleHasATree }
{}

/// Each program has a full check.
pub fn each_full()
    ensures { EachFull }
{
    each_has_answer();
    module_law::has_answer();
    each_module_has_a_tree();
    errors_law::each_has_errors();
}
