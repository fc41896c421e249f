//! What a module sees of others: which of them its specifiers find, and what their merged signatures say of a name.
#![tactic(auto)]

mod imports;
mod saying;

pub use imports::Imports;
pub use saying::Saying;
