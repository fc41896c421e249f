//! Which paths come and go with an edit, and which dependency lists that leaves as they are.
#![tactic(auto)]

mod flags;
mod laws;
mod moving;
mod staying;

pub use laws::unmoved_stay;
pub use moving::{Moved, moved_paths, nothing_moved};
pub use staying::is_unmoved;
