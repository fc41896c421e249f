//! What is known of the types at places while code is read: facts, which tests narrow, assignments
//! set and calls drop, and marks to which they go back.
//!
//! Two ways that meet again, as the arms of an `if`, are read so: `mark`; assume the test and read the
//! first one; `turn`, which hands out what it made as an arm; assume the opposite and read the other
//! one; `join_arm`, with the arm; `spend`. `resume` goes on from a mark with an arm that was handed
//! out.
//!
//! Many ways in one another, as the arms of an `else if` chain, meet at once: `gather`; `gather_way`
//! with each mark and its arm, the last one first; `make_gathered`.
//!
//! A function inside is read between `begin_function` and `end_function`.
#![tactic(auto)]

mod among;
mod facts;
mod functions;
mod gathering;
mod marks;
mod names;
mod smooth;
mod whole;

pub use fact_arms::{Gathered, Joins};
pub use facts::{Arm, Facts, Mark};
