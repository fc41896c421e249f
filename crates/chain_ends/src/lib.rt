//! Where chains of numbered names end.
#![tactic(auto)]

mod links;
mod walking;

pub use links::{End, Link};
pub use walking::ends_of;
