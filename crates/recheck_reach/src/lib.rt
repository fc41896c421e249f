//! Which modules of an edited program are to be checked: those that changed, and those that find one which leads by names to one whose
//! merged signature moved.
#![tactic(auto)]

mod laws;
mod listing;
mod moving;
mod naming;
mod reaching;

pub use laws::{
    checked_are_of_checked, checks_are_of_sources, differs_are_touched, names_are_imported,
    parsed_are_fresh, rest_is_same, unmoved_are_changed,
};
pub use moving::{any_moved, moved_signatures};
pub use reaching::checked_modules;
pub use recheck_merging;
pub use recheck_merging::{affected_sizes, analyst, check_phases, work_totals};
pub use recheck_sources;
