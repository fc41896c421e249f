//! A run on made-up modules: the load, ten edits, and a last line.
#![tactic(auto)]

mod folders;
mod laws;
mod printing;
mod running;
mod turns;

pub use laws::one_generated_run;
pub use running::run_generated;
pub use script_run::beside::Server;
pub use script_run::{
    Ended, RunFault, WalkEnd, a_front_goes_on, one_quiet_run, open_server, run, write_all,
};
