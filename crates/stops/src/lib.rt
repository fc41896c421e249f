//! Who is asked, poll by poll, whether a run is to stop, and one who says yes at one question.
#![tactic(auto)]

mod stop;
mod stop_at;

pub use stop::{Stop, says_yes_at_its_question};
pub use stop_at::StopAt;
