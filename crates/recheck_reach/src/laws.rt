//! The laws of what is kept and what is checked, as the contracts of calls that do nothing.
ghost use Rattle.recheck_reach.specs.Law.{RestIsSame, NamedIsImported, CheckedAreOfChecked, UnmovedAreChanged, ParsedAreFresh, DiffersAreTouched, SeenAsChecked, SignedAsChecked};

/// Outside of the plan of what is touched, the merged signatures are the old ones.
pub fn rest_is_same()
    ensures { RestIsSame }
{
    recheck_merging::kept_are_right();
}

/// A merged signature names only modules to which the imports of its module lead.
pub fn names_are_imported()
    ensures { NamedIsImported }
{}

/// The modules that are to be checked, by what changed and what moved, are the paths that an edit may give other errors.
pub fn checked_are_of_checked()
    ensures { CheckedAreOfChecked }
{
    recheck_sources::source_front::one_parse();
    recheck_sources::affected_law::all_stays_inside();
    recheck_merging::recheck_law::reach_is_by_names();
}

/// Where no signature moved, the modules that are to be checked are those that changed.
pub fn unmoved_are_changed()
    ensures { UnmovedAreChanged }
{}

/// The modules that are new or have another text are those that are parsed, and so many.
pub fn parsed_are_fresh()
    ensures { ParsedAreFresh }
{}

/// The modules come from those of their old numbers, and where what merging sees of them differs they are touched.
pub fn differs_are_touched()
    ensures { DiffersAreTouched }
{}

/// Merging sees the modules as any full check of their program has them, and gives them the signatures that stand there.
pub fn checks_are_of_sources()
    ensures seen { SeenAsChecked }
    ensures signed { SignedAsChecked }
{
    recheck_sources::source_front::one_parse();
}
