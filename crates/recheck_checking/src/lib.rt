//! The errors of an edited program: which old ones are kept, and the checks of the other modules, batch by batch.
#![tactic(auto)]

mod checking;
mod keeping;
mod laws;
mod reading;

pub use checking::check_batch;
pub use edited_root;
pub use edited_root::{affected_law, payloads};
pub use keeping::{ErrorSlots, kept_errors, whole_errors};
pub use laws::{all_are_checked, checks_see_sources, kept_errors_are_right, made_is_full};
pub use reading::{SharedTable, table_for};
