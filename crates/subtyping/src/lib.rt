//! Which types are below which: the definitions stand in `specs/`. The code here is their laws, as
//! the contracts of functions that do nothing.
#![tactic(auto)]

mod laws;

pub use laws::{
    array_is_below, below_by_rows, below_itself, closed_together, free_is_below, function_is_below,
    name_is_its_type, object_is_below, tuple_is_below, union_is_its_members,
};
