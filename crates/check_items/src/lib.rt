//! The items of a module: what their names stand for, what they bind and export, and how they are read.
#![tactic(auto)]

mod binding;
mod exports;
mod imports;
mod items;
mod naming;
mod types;

pub use binding::{bind_items, bind_prelude};
pub use check_expr;
pub use check_moves;
pub use exports::note_second_exports;
pub use items::{Module, read_item};
pub use types::{Types, types_of};
