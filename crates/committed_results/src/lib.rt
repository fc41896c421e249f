//! All results of the committed program, as they stand in the heap of modules: what a recheck begins with. They are shared, and nothing
//! is made anew.
#![tactic(auto)]

mod reading;

pub use export_counts::source_front;
pub use full_law;
pub use full_law::program_check;
pub use reading::committed_results;
pub use recheck_staging;
