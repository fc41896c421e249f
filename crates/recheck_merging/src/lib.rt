//! The merged signatures of an edited program: which modules are merged anew, wave by wave, and which old signatures are kept.
#![tactic(auto)]

mod hints;
mod importing;
mod keeping;
mod laws;
mod merging;
mod planning;
mod still;

pub use check_phases;
pub use check_phases::{analyst, check_job, source_front};
pub use importing::edges_of;
pub use keeping::{Slots, kept_signatures, whole_signatures};
pub use laws::{
    kept_are_left_alone, kept_are_right, members_add_up, plans_are_of_merged, waves_make_all,
};
pub use merging::merge_wave;
pub use path_numbers::{affected_sizes, recheck_law};
pub use planning::{MergePlan, nothing_to_merge, plan_of};
pub use still::Edit;
pub use work_totals;
pub use worker_jobs;
