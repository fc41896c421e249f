//! What is known of each module of an edited program by itself: what its source says and which modules its specifiers find. It is read
//! and found anew where an edit may change it, and kept elsewhere.
#![tactic(auto)]

mod keeping;
mod listing;
mod parsing;
mod sourcing;
mod telling;

pub use edited_root::affected_law;
pub use export_counts::source_front;
pub use parsing::edited_parses;
pub use sourcing::{Listed, listed_sources};
