//! What a module is checked by.
#![tactic(auto)]

mod job;

pub use errors_by_reach;
pub use job::CheckJob;
pub use signature_table;
pub use source_front;
