//! The tokens behind an expression: links, the operators that go on with it, and what ends it. Each step says the same as the machine's
//! of `code_law`.
#![tactic(auto)]

mod closing;
mod links;
mod settling;
mod values;

pub use links::after_links;
pub use settling::settle;
