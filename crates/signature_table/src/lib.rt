//! The merged signatures that checks read: their exports by name, and one table of all their aliases.
#![tactic(auto)]

mod exports;
mod table;

pub use exports::Exports;
pub use table::SignatureTable;
