//! Which modules an edit affects: by numbers, those whose merged signatures may change and those that are to be checked again; by
//! paths, those that are new, that have another text, or that are no module any more.
#![tactic(auto)]

mod changing;
mod checking;
mod marking;
mod merging;
mod reversing;

pub use changing::{Changes, changed};
pub use checking::check_set;
pub use merging::merge_set;
