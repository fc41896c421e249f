//! What a word or a mark is where an expression or a statement may begin, and behind an expression. No tree of code stands here.
#![tactic(auto)]

mod behind;
mod words;

pub use behind::{Behind, Joint, follows, level_of, operand_rank, rank};
pub use words::{StatementWord, ValueWord, may_alias, statement_word, value_word};
