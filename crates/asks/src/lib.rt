//! What may be asked of a version of the program, and what is answered.
#![tactic(auto)]

mod answer;
mod ask;

pub use answer::{Answer, AskFault, Located};
pub use ask::Ask;
