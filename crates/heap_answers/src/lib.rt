//! What is answered from the heap of modules alone, without an analyst: each answer is read off one version, and reads no more than it
//! answers from.
#![tactic(auto)]

mod answering;
mod many;
mod parts;
mod rows;

pub use answering::{errors, find_module, importers, ls, signature, status};
pub use answers_law;
pub use payloads;
pub use payloads::program_check;
