//! The merged signatures of the modules that others reach, looked for along names.
#![tactic(auto)]

mod looking;
mod reaching;
mod starts;

pub use reaching::reached_signatures;
pub use starts::{found_paths, named_at};
