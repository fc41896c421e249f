//! A run with a script: the load, and then edits, rechecks and questions, one line after the other.
#![tactic(auto)]

mod answering;
mod command;
mod committed;
mod ending;
mod errors;
mod laws;
mod opening;
mod session;
mod sinks;
mod waiting;
mod walk;

pub use beside;
pub use beside::affected_sizes;
pub use ending::{Ended, RunFault, WalkEnd};
pub use laws::{a_front_goes_on, one_quiet_run};
pub use opening::open_server;
pub use session::Session;
pub use sinks::write_all;
pub use walk::run;
