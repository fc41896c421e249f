//! What a recheck stages: the root, of each module the results that were made anew, and nothing at the rows that are free again. All
//! other entities keep their versions.
#![tactic(auto)]

mod staging;

pub use check_phases;
pub use result_parts;
pub use staging::{Anew, stage_anew};
