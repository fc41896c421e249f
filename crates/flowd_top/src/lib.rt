//! The program's top call.
#![tactic(auto)]

mod laws;
mod status;
mod top;

pub use laws::{a_front_goes_on, one_transcript};
pub use status::Status;
pub use top::flowd;
