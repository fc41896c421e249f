//! How much of the work each of several analysts did, and that it adds up to all of the work.
#![tactic(auto)]

mod laws;

pub use analyst;
pub use laws::work_adds_up;
