//! What the heap of modules holds: a root, which names the modules, and four results of each.
#![tactic(auto)]

mod entities;
mod payload;

pub use entities::{deps_entity, errors_entity, parse_entity, signature_entity};
pub use payload::Payload;
pub use program_check;
pub use program_check::source_front;
