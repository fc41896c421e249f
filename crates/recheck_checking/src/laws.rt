//! The laws of error slots, as the contracts of calls that do nothing.
ghost use Rattle.recheck_checking.specs.Checking.{AllAreChecked};
ghost use Rattle.recheck_checking.specs.Full.{MadeIsFull, ChecksSeeSources};
ghost use Rattle.recheck_checking.specs.Right.{KeptErrorsAreRight};

/// All results of a program are its full check.
pub fn made_is_full()
    ensures { MadeIsFull }
{}

/// Each full check of a program sees the modules as their sources do, and has their merged signatures.
pub fn checks_see_sources()
    ensures { ChecksSeeSources }
{
    recheck_merging::source_front::one_parse();
}

/// Old errors that are kept are right, where all modules are checked that the edit affects: nothing is checked yet.
pub fn kept_errors_are_right()
    ensures { KeptErrorsAreRight }
{
    recheck_merging::source_front::one_parse();
    edited_root::affected_law::what_stays();
}

/// Behind the last batch the errors of all modules are known, and are those of the program.
pub fn all_are_checked()
    ensures { AllAreChecked }
{}
