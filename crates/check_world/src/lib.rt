//! What stands around a module's code while it is read, and what is noted of it: the types that names stand for, the bytes of each
//! token, faults, and what is seen of a place that is watched.
#![tactic(auto)]

mod names;
mod notes;
mod world;

pub use names::{TypeMeaning, TypeScope};
pub use notes::{Notes, Seen};
pub use world::World;
