//! What facts became since an earlier moment, kept apart from them: taken off a trail, made again on
//! it, and joined slot by slot.
#![tactic(auto)]

mod difference;
mod fresh;
mod gathered;
mod gone;
mod joining;
mod slots;
mod trails;

pub use difference::Difference;
pub use gathered::Gathered;
pub use joining::{Joins, meet};
pub use trails::{go_back, go_back_or_stay};
