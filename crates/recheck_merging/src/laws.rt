//! The laws of plans and slots, as the contracts of calls that do nothing.
ghost use Rattle.recheck_merging.specs.Affected.{PlansAreOfMerged};
ghost use Rattle.recheck_merging.specs.Plans.{MembersAddUp};
ghost use Rattle.recheck_merging.specs.Merging.{WavesMakeAll};
ghost use Rattle.recheck_merging.specs.Keeping.{KeptAreRight};
ghost use Rattle.recheck_merging.specs.Still.{KeptAreLeftAlone};

/// The waves of a plan have as many members as the plan has modules.
pub fn members_add_up()
    ensures { MembersAddUp }
{}

/// Old signatures that are kept outside of a plan are right, where the plan has all that leads to what is touched.
pub fn kept_are_right()
    ensures { KeptAreRight }
{
    merged_signatures::merging_is_local();
}

/// Behind the last wave all signatures are made, and are those of the program.
pub fn waves_make_all()
    ensures { WavesMakeAll }
{}

/// The plan of the modules of which what merging sees differs is that of the paths whose signatures an edit may change.
pub fn plans_are_of_merged()
    ensures { PlansAreOfMerged }
{}

/// A component of a wave has its old signatures, and is not merged, exactly where none of its members is touched and each module that they
/// import has the signature that it had.
pub fn kept_are_left_alone()
    ensures { KeptAreLeftAlone }
{
    merged_signatures::a_job_tells_the_program();
}
