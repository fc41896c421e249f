//! The root of the edited program: one walk over the modules of the old root and the edits, both in rising order of the paths. It
//! tells for each module which of the old ones it was, and whether it is new or has another text, and which rows are free again.
#![tactic(auto)]

mod halt;
mod next;
mod numbering;
mod walking;

pub use affected_law;
pub use halt::Halt;
pub use next::{NextRoot, edited_root};
pub use payloads;
