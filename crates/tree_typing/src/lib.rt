//! The type that a tree of a type stands for.
#![tactic(auto)]

mod keys;
mod names;
mod typing;

pub use keys::{key_text, last_of_each};
pub use names::{Names, is_type_name};
pub use typing::type_of_tree;
