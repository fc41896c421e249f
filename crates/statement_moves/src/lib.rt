//! What happens between the parts of statements and of function bodies that are read: what declarations, assignments, loops, ends
//! and functions do to the names, the facts and the notes.
#![tactic(auto)]

mod bodies;
mod functions;
mod statements;

pub use bodies::{
    Outer, bind_body, end_body, enter, enter_block, leave, leave_block, read_variable_goal,
    wanted_result,
};
pub use functions::Outside;
pub use statements::{
    assigned, break_loop, declare, enter_loop, leave_loop, reach, return_bare, return_value,
};
