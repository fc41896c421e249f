//! Numbers for the names of modules, and what each number stands for.
#![tactic(auto)]

mod numbering;

pub use numbering::Numbered;
