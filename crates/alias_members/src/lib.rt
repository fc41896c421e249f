//! The members of types, by the aliases of a table.
#![tactic(auto)]

mod opening;
mod rows;

pub use opening::{has_members, has_one_list_of_members, members, members_of};
pub use rows::rows_unfold;
