//! Who does the work of a check, and how much of it was done.
#![tactic(auto)]

mod analyst;

pub use analyst::Analyst;
pub use check_job;
pub use check_job::source_front;
