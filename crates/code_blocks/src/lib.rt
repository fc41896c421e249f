//! The tokens of statements: where one may begin, behind the words of one, and behind its branches. Each step says the same as the
//! machine's of `code_law`.
#![tactic(auto)]

mod blocks;

pub use blocks::{
    after_binder, after_branch, after_declared, after_else, after_if, after_return, after_simple,
    after_while, begin_statement,
};
