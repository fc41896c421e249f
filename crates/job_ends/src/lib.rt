//! Where the names of the modules that are merged together end.
#![tactic(auto)]

mod ends;
mod job;
mod linking;
mod member;
mod nodes;

pub use ends::JobEnds;
pub use job::{MergeJob, MergeMember};
pub use member::{Member, members};
pub use nodes::Node;
