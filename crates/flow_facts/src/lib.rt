//! Narrowing types by tests, and the facts that tests leave: the definitions stand in `specs/`; the code here is the values that
//! they speak of.
#![tactic(auto)]

mod place;
mod test;

pub use place::{Killed, Place};
pub use test::{Cell, Lit, Test};
