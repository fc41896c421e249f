//! The edits that wait for the next recheck, and what becomes of a program by them.
#![tactic(auto)]

mod edit;
mod edits;
mod modules;

pub use edit::{Edit, EditFault};
pub use edits::Edits;
pub use modules::place_of;
