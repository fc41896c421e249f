// The forms that wait for another one.
use code_tree::{
    Arm, Binder, Branch, Expr, Field, Level, Link, Operand, Operator, PrefixMark, Signature,
    Statement,
};
use flow_values::{Boxed, List, Text};
use type_tree::{Key, TypeTree};

/// A function as an expression, as a statement or an item, and behind `default`.
#[derive(Clone, Copy, Debug, PartialEq, Eq)]
pub enum FunctionKind {
    Value,
    Statement,
    Default,
}

/// What stands before an item: nothing, `export`, or `export default`.
#[derive(Clone, Copy, Debug, PartialEq, Eq)]
pub enum Wrap {
    Plain,
    Exported,
    Default,
}

/// What the innermost open form is, where that decides what may stand in it.
#[derive(Clone, Copy, Debug, PartialEq, Eq)]
pub enum Nearest {
    /// Marks before an expression.
    Prefix,
    /// A chain's operator.
    Chain,
    /// The arms of a conditional.
    Last,
    Other,
}

/// Where a token stands: inside a function or not, inside a loop of that function or not, and the innermost open form.
#[derive(Clone, Copy, Debug, PartialEq, Eq)]
pub struct Place {
    pub in_function: bool,
    pub in_loop: bool,
    pub nearest: Nearest,
}

/// An expression and the links behind it so far.
#[derive(Drop)]
pub struct Linked {
    pub base: Expr,
    pub links: List<Link>,
}

/// A list in brackets, with the place of the first: the elements of an array, or the arguments of a call.
#[derive(Drop)]
pub enum Row {
    Array(usize),
    Call(Boxed<Linked>, usize),
}

/// A chain of one level, where it begins, and its operands so far.
#[derive(Drop)]
pub struct OpenChain {
    pub first: usize,
    pub level: Level,
    pub left: Boxed<Expr>,
    pub operands: List<Operand>,
}

/// What is done with an expression that is all of a simple statement, or the right side of an assignment.
#[derive(Drop)]
pub enum Verb {
    Return,
    Throw,
    Assign(Expr),
    Evaluate,
}

/// What a declaration declares, and where it begins.
#[derive(Drop)]
pub struct Declared {
    pub first: usize,
    pub binder: Binder,
    pub name: Text,
}

/// An `if` and its branches so far.
#[derive(Drop)]
pub struct OpenIf {
    pub first: usize,
    pub branches: List<Branch>,
}

/// An open `{` and the statements behind it so far.
#[derive(Drop)]
pub struct OpenBlock {
    pub first: usize,
    pub statements: List<Statement>,
}

/// Where a function begins, and its name or none.
#[derive(Drop)]
pub struct Heading {
    pub kind: FunctionKind,
    pub first: usize,
    pub name: Option<Text>,
}

/// What binds an operand.
#[derive(Drop)]
pub enum OperatorFrame {
    /// Marks before an expression, and where they begin.
    Prefix(usize, List<PrefixMark>),
    /// The operator behind a chain's operands so far, at its place.
    Chain(OpenChain, usize, Operator),
}

/// Another form that ends with an expression.
#[derive(Drop)]
pub enum TailFrame {
    /// The arms of a conditional, behind which a further test or the last branch stands.
    Last(usize, List<Arm>),
    /// The value of an arrow.
    Arrow(Boxed<Signature>),
}

/// A form in which an expression stands before a mark.
#[derive(Drop)]
pub enum InnerFrame {
    /// A test and `?`, behind a conditional's arms so far.
    Branch(usize, List<Arm>, Expr),
    Paren(usize),
    Row(Row, List<Expr>),
    /// An open `[` behind an expression.
    Index(Linked, usize),
    /// A key and its colon, behind an object's properties so far.
    Field(usize, List<Field>, Key),
}

/// A statement in which an expression stands.
#[derive(Drop)]
pub enum ValueFrame {
    Simple(usize, Verb),
    Declaration(Declared, Option<TypeTree>),
    /// An `if` at a place, behind the branches of a statement.
    IfTest(OpenIf, usize),
    LoopTest(usize),
}

/// A form in which statements stand.
#[derive(Drop)]
pub enum BodyFrame {
    Function(Heading, Boxed<Signature>),
    /// The block of an arrow.
    Arrow(Boxed<Signature>),
    Block(OpenBlock),
    /// The branch of an `if` at a place, with its test.
    If(OpenIf, usize, Expr),
    Else(OpenIf),
    Loop(usize, Expr),
}

/// A form that waits for an expression, a body or a statement. It is moved where it is opened and closed, so its largest parts
/// are boxed.
#[derive(Drop)]
pub enum Frame {
    Operator(OperatorFrame),
    Tail(TailFrame),
    Inner(InnerFrame),
    Value(ValueFrame),
    Body(BodyFrame),
}

/// An open form, and the place where it stands.
#[derive(Drop)]
pub struct Entry {
    pub frame: Frame,
    pub before: Place,
}
