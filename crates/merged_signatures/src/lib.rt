//! What the names of a program denote, and the merged signatures of its modules. All of it stands in `specs/`; the code here is
//! what holds of it, as the contracts of calls that do nothing.
#![tactic(auto)]

ghost use Rattle.merged_signatures.specs.Repeats.{IsToldByOneStep, IsCyclicWhereItRepeats};
ghost use Rattle.merged_signatures.specs.Programs.{IsSmallWithFewExports};
ghost use Rattle.merged_signatures.specs.Imports.{IsLocal};
ghost use Rattle.merged_signatures.specs.Settled.{AJobTellsTheProgram};

/// What a name denotes is told by one step along its chain and by what the next name denotes, and it is
/// cyclic exactly where the chain comes back to a name.
pub fn what_names_denote()
    ensures steps { IsToldByOneStep }
    ensures cyclic { IsCyclicWhereItRepeats }
{}

/// Chains go on at exports alone, so what holds of small programs holds of each with fewer exports than
/// the bound.
pub fn few_exports()
    ensures { IsSmallWithFewExports }
{}

/// Merging some modules of a program over the merged signatures of others gives what merging the whole
/// program gives them, where the job knows of each module that a member's specifiers find.
pub fn a_job_tells_the_program()
    ensures { AJobTellsTheProgram }
{}

/// A merged signature depends on what is known of the modules to which its module leads by its imports,
/// and on nothing else.
pub fn merging_is_local()
    ensures { IsLocal }
{}
