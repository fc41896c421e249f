//! A script's lines: which bytes are which command.
#![tactic(auto)]

mod beside;
mod laws;
mod line;
mod reading;

pub use laws::one_command;
pub use line::{Line, LineFault};
pub use reading::read_line;
