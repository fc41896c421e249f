//! What each member of a type gives where it is read, written, indexed or called.
#![tactic(auto)]

mod call;
mod index;
mod part;
mod property;
mod step;

pub use call::{Argument, Call, argument_faults, call_member, one_function, param_at};
pub use index::{read_index, target_of_index, write_index};
pub use part::{Details, Part};
pub use property::{prop_of, read_property, target_of_prop, write_property};
pub use step::{Step, Steps};
