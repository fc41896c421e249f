//! Ways that code may go: two ways from a mark, as those behind a test, ways in one another, and how they meet.
#![tactic(auto)]

mod fork;
mod nested;

pub use fork::{Fork, meet, meet_same, split, stand, swap, take};
pub use nested::{meet_all, meet_arms};
