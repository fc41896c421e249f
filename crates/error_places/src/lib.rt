//! The lines and columns of a module's errors.
#![tactic(auto)]

mod locating;
mod places;

pub use locating::locate_errors;
