//! What stands in brackets: the tokens of an object, of a list, and behind `(`, and the word behind a dot. Each step says the same as the
//! machine's of `code_law`.
#![tactic(auto)]

mod elements;
mod groups;

pub use elements::{after_dot, begin_element};
pub use groups::{
    after_field_word, after_key, after_paren, after_paren_mark, begin_field, first_parameter,
};
