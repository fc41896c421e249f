//! The trees of types, each node with the numbers of its first token and of the token behind its last. What tree of the
//! grammar a value stands for is `type_view` of `specs/View.antt`.
#![tactic(auto)]

mod nodes;
mod types;

pub use types::{
    BaseForm, BaseTree, CoreTree, Ending, FunctionType, Key, KeyForm, NamedParam, ParamTree,
    PostType, PreTree, PropTree, Sign, TypeTree,
};
