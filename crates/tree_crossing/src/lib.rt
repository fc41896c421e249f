//! The trees of code, and what is made of them, may be sent to another thread and lent to it: the
//! laws are lemmas, type by type, which a call that starts threads cites.
#![tactic(auto)]

mod values;

pub use check_job;
pub use check_job::source_front;
pub use values::{job_crosses, parse_crosses, shared_parse_crosses};
