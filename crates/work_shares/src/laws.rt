ghost use Rattle.work_shares.specs.Shares.{SumLaw};

/// What the analysts did adds up to the work: the sum of each of their counts rises by exactly the
/// work where all of it was done and no count stands at its greatest value, and by no more
/// otherwise. It does nothing.
pub fn work_adds_up()
    ensures { SumLaw }
{}
