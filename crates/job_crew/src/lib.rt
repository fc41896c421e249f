//! Workers at their places, each in a thread of its own where one can be had: numbered jobs are dealt out, drawn and stolen, and their
//! answers put in order.
#![tactic(auto)]

mod gathering;
mod resting;
mod run;
mod setting;
mod together;

pub use job_seats;
pub use job_seats::analyst;
pub use run::run_all;
