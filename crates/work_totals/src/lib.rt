//! What several analysts did together.
#![tactic(auto)]

mod laws;

pub use laws::totals_rise;
