//! The words of the command: which words are of it, and what they tell a run.
#![tactic(auto)]

mod command;
mod laws;
mod reading;
mod seen;
mod values;

pub use command::{Command, Form};
pub use laws::one_command;
pub use reading::{read_words, root_word, usage};
