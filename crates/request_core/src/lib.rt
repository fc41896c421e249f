//! All that may be asked, answered from the state that a reader reads: from the heap of modules alone, or by an analyst, who is told
//! what a module reaches. What is read is what is answered from.
#![tactic(auto)]

mod answering;
mod contents;
mod jobs;
mod laws;
mod places;
mod reaching;
mod rows;

pub use analyst;
pub use answering::answer;
pub use heap_answers::{answers_law, payloads};
pub use place_analyst;
