//! What a merging job asks of the modules outside of it, and the job with that alone.
#![tactic(auto)]

mod asking;
mod cutting;
mod job;
mod law;

pub use job::asked_job;
pub use law::asked_is_enough;
