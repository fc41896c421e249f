//! The tokens with which expressions, functions and simple statements begin, what parameters are, and what ends a list: each step says
//! the same as the machine's of `code_law`.
#![tactic(auto)]

mod arrows;
mod lists;
mod parameters;
mod values;
mod words;

pub use arrows::{after_arrow, after_parameters, begin_function, open_block, open_body};
pub use lists::{add_link, after_element, after_field, close_fields, close_row, primary};
pub use parameters::{
    add_parameter, after_parameter_mark, after_parameter_word, begin_parameter, open_parameters,
};
pub use values::{begin_inside, begin_value, begin_word};
pub use words::{begin_body, begin_simple, block_word, simple_word};
