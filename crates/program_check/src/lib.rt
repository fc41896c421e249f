//! The full check of a program, module by module, and what is printed of it. The definitions stand in `specs/`; the code here is
//! what holds of them, as the contract of a call that does nothing.
#![tactic(auto)]

ghost use Rattle.program_check.specs.Law.{OneFull};

pub use check_job::{errors_by_reach, source_front};

/// A program has one full check: whatever else is one says the same of each module.
pub fn one_full()
    ensures { OneFull }
{
    check_job::source_front::one_parse();
    check_job::errors_by_reach::errors_by_reach();
}
