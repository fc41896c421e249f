//! The trees of expressions and statements, each node with the numbers of its first token and of the token behind its last.
//! What tree of the grammar a value stands for is `expr_view` of `specs/View.antt`.
#![tactic(auto)]

mod expressions;
mod statements;
mod types;

pub use types::{
    Arm, ArrowBody, ArrowExpr, Assignment, Binder, Block, Body, Branch, ChainExpr, ConditionalExpr,
    Declaration, Else, Expr, ExprForm, Field, FieldForm, Function, IfStatement, Level, Link,
    LinkForm, Operand, OperandForm, Operator, Parameter, PostfixExpr, Prefix, PrefixMark,
    Signature, Simple, SimpleForm, Statement, StatementForm, WhileStatement,
};
