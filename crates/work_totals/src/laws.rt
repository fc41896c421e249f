ghost use Rattle.work_totals.specs.Totals.{TotalLaw};

/// What the analysts did together rises as the work of one of them would: by exactly the work where all of it was done, and by no more
/// otherwise. They stay as many. It does nothing.
pub fn totals_rise()
    ensures { TotalLaw }
{}
