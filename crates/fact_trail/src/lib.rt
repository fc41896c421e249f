//! Facts under keys that are copied, with a trail of what each change replaced. No call but `put` and
//! those that go back takes memory.
#![tactic(auto)]

mod class_facts;
mod fact;
mod marks;
mod plans;
mod properties;
mod slot;
mod spare;
mod trail;
mod variables;

pub use class_facts::ClassFacts;
pub use fact::Fact;
pub use plans::Planned;
pub use properties::Properties;
pub use slot::{Key, Slot, is_constant};
pub use spare::Spare;
pub use trail::{Change, Trail};
pub use variables::Variables;
