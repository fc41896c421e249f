//! The check of a module: the checker, which reads its expressions and items, and its errors.
#![tactic(auto)]

mod around;
mod checker;
mod errors;
mod types_at;

pub use checker::Checker;
pub use errors::check_module;
pub use types_at::{type_at, type_at_pos};
