//! The recheck of a program: from the committed results and the edits that wait to the full check of the edited program, which it
//! commits. What an edit doesn't affect is kept. It asks at its polls whether it is to stop.
#![tactic(auto)]

mod checking;
mod flags;
mod laws;
mod merging;
mod outcome;
mod reading;
mod rechecking;
mod running;
mod stages;
mod staging;
mod stepping;

pub use outcome::Outcome;
pub use recheck_reach::affected_sizes;
pub use rechecking::recheck;
