//! What is passed on while code is read: the names that are seen, the facts, the notes; and how ways behind expressions part and
//! meet. Nothing here looks at a tree.
#![tactic(auto)]

mod parting;
mod state;

pub use state::{Read, State};
