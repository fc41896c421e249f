//! A type with its names replaced by what they stand for.
#![tactic(auto)]

mod parts;
mod replacing;

pub use replacing::{Meanings, replaced};
