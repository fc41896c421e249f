//! Where a line and a column of a source stand in its bytes.
#![tactic(auto)]

mod places;

pub use places::{byte_place, column_behind, line_behind};
