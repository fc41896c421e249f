//! Types, whose parts are shared, with their equality and their order.
#![tactic(auto)]

mod order;
mod sharing;
mod types;

pub use types::{FlowProp, FlowType, Param, Variance};
