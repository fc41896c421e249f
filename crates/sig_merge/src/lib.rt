//! Merging: the merged signatures of modules that are merged together.
#![tactic(auto)]

mod exports;
mod merging;
mod scope;

pub use job_ends::{MergeJob, MergeMember};
pub use merging::merge_component;
