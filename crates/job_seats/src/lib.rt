//! A worker's place among others, from which it draws the numbers of jobs and answers them until it finds none.
#![tactic(auto)]

mod kind;
mod place;
mod working;

pub use kind::Kind;
pub use place::{Link, Seat};
pub use work_shares::analyst;
pub use working::{work, work_left};
