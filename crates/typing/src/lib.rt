//! How a module is read: the types of its expressions, the facts between its statements, and its faults. The definitions stand in
//! `specs/`, apart from all code.
#![tactic(auto)]

/// Nothing.
pub fn nothing() {}
