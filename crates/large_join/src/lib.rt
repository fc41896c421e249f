//! Two calls at once, of which the one in the new thread has a large stack: what walks a deep value may run there.
#![tactic(auto)]

mod join;

pub use join::join_large;

#[cfg(test)]
mod tests;
