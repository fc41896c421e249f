//! Reading of modules from tokens: `read_module`.
#![tactic(auto)]

mod read;
mod reading;
mod token;

pub use read::read_module;
