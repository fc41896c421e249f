//! Which modules the specifiers of a module find.
#![tactic(auto)]

pub fn nothing() {}
