//! What is asked of a running heap, answered on its lanes beside one another, each lane on a thread of its own.
#![tactic(auto)]

mod asking;
mod dealing;
mod each;
mod lanes;
mod told;

pub use dealing::{Row, gather, open_rows};
pub use lanes::answer_beside;
pub use told::{Asked, Told};
