//! What happens between the parts of an expression that are read: what variables, properties, calls, operators, conditionals,
//! literals and types behind `as` do to the facts and the notes. Nothing here looks at a tree of code.
#![tactic(auto)]

mod annotations;
mod branches;
mod literals;
mod operands;
mod places;
mod postfixes;

pub use annotations::{read_annotated, read_cast};
pub use branches::{Chosen, meet_branches};
pub use literals::{ask_all, ask_entry, element_want, prop_read, whole_array, whole_object};
pub use operands::{begin_nullish, either_type, end_nullish, meet_left, part, read_operator};
pub use places::{compare_place, read_prefixes, read_truth, read_variable};
pub use postfixes::{read_called, read_element, read_member};
