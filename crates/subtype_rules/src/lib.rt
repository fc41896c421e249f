//! Which types are below which.
#![tactic(auto)]

mod below;
mod collecting;
mod covering;
mod deleting;
mod laws;
mod links;
mod losing;
mod props;
mod rows;
mod terms;

pub use below::is_subtype;
pub use laws::below_is_the_relation;
