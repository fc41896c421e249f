//! How the items of a module are read, and its errors. The definitions stand in `specs/`, apart from all code.
#![tactic(auto)]

/// Nothing.
pub fn nothing() {}
