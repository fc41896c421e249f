//! What may be asked, as a JSON object says it.
#![tactic(auto)]

mod kinds;
mod laws;
mod parts;
mod reading;

pub use laws::one_ask;
pub use reading::read_ask;
