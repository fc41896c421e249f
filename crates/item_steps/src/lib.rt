//! Reading items token by token: imports, exports, aliases, and where the code of an item begins.
#![tactic(auto)]

mod exports;
mod imports;
mod items;
mod names;

pub use items::{after_alias, step};
