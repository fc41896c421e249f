//! Laws beside those of `affected_law`, in the forms that a recheck meets: dependency lists made again by their own specifiers, reach
//! along names, and a full check of which the parts that aren't made are read off the old one. The definitions stand in `specs/`; the
//! code here is the laws, as the contracts of calls that do nothing.
#![tactic(auto)]

ghost use Rattle.recheck_law.specs.Lists.{ListsAgain, DepsServeAgain, FoundStays, RowsStay, ListsStay};
ghost use Rattle.recheck_law.specs.Names.{ReachIsByNames, AgreeIsByNames, MarksKeepNames, CheckedIsByNames};
ghost use Rattle.recheck_law.specs.Remade.{RemadeIsFull};

/// A dependency list made again by its own specifiers is the list of its module among the new paths.
pub fn lists_again()
    ensures lists { ListsAgain }
    ensures serve { DepsServeAgain }
{
    affected_law::what_serves_on();
}

/// Where no path that a specifier may find came or went, it finds what it found, and a list of such specifiers stays.
pub fn what_is_found_stays()
    ensures found { FoundStays }
    ensures rows { RowsStay }
    ensures lists { ListsStay }
{}

/// A module reaches exactly the paths to which one that it finds leads by names.
pub fn reach_is_by_names()
    ensures reach { ReachIsByNames }
    ensures agree { AgreeIsByNames }
    ensures marks { MarksKeepNames }
    ensures checked { CheckedIsByNames }
{}

/// A check of which each part is made anew, or is the old one where it may stay, is the full check of the new program.
pub fn remade_is_full()
    ensures { RemadeIsFull }
{
    affected_law::what_serves_on();
    affected_law::rechecked_is_full();
}
