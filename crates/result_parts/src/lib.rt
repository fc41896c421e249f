//! The four kinds of results that a module has, each with its entity and its payload: what is read and staged of one kind is read and
//! staged of all in one way.
#![tactic(auto)]

mod part;

pub use part::Part;
