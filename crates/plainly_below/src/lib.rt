//! Subtyping where what is asked is mostly plain: a type is below another one that has its members.
#![tactic(auto)]

mod among;

pub use among::is_below;
