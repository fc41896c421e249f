//! The laws that tie paths to their places in a list: what leads from place to place along edges leads from path to path, and the sets
//! of places that an edit affects are the sets of its paths. The definitions stand in `specs/`; the code here is the laws, as the
//! contracts of calls that do nothing.
#![tactic(auto)]

ghost use Rattle.path_numbers.specs.Ways.{ImportsLeadAsEdges, NamesLeadAsEdges};
ghost use Rattle.path_numbers.specs.Sets.{MergedAreNumbers, StirredAreNumbers, CheckedAreNumbers};

pub use affected_sizes;
pub use recheck_law;

/// Edges lead from one place to another exactly where imports, or names, lead from the path of the one to that of the other.
pub fn paths_lead_as_edges()
    ensures imports { ImportsLeadAsEdges }
    ensures names { NamesLeadAsEdges }
{
    affected_sizes::affected_law::all_stays_inside();
}

/// The affected paths are those at the affected places.
pub fn sets_are_numbers()
    ensures merged { MergedAreNumbers }
    ensures stirred { StirredAreNumbers }
    ensures checked { CheckedAreNumbers }
{
    affected_sizes::affected_law::all_stays_inside();
    recheck_law::reach_is_by_names();
}
