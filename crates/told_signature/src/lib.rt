//! The local signature of a module, and its faults, by what its exports tell. No tree is seen here.
#![tactic(auto)]

mod faulting;
mod leading;
mod naming;
mod reaching;
mod signing;
mod telling;

pub use faulting::faults;
pub use signing::{name_there, signature};
pub use telling::{Place, Said, Told};
