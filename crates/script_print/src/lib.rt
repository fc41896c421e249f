//! The lines that a run prints, those of answers apart.
#![tactic(auto)]

mod lines;

pub use lines::{
    bad_line, cancelled_line, done_line, fault_line, files_line, long_line, many_asks, many_lines,
    refused_line,
};
