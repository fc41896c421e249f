//! The names that are seen at a place of the code, and what they are bound to.
#![tactic(auto)]

mod binding;
mod row;
mod scope;

pub use binding::{Binding, Kind, Meaning, Variable};
pub use row::Height;
pub use scope::Scope;
