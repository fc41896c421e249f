//! Whether two local signatures, dependency lists or merged signatures are equal, part by part.
#![tactic(auto)]

mod rows;
mod same;
mod signatures;

pub use signatures::{same_deps, same_local, same_sig};
