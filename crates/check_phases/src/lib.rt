//! All results of a program's modules as they are worked with, beside one another: what each source says by itself, its dependency list,
//! its merged signature and its errors.
#![tactic(auto)]

mod checking;
mod merging;
mod phases;

pub use analyst;
pub use analyst::{check_job, source_front};
pub use checking::count_errors;
pub use merging::Sources;
pub use payloads;
pub use phases::Made;
