// The trees of expressions and statements.
use flow_values::{Boxed, List, Text};
use type_tree::{Key, TypeTree};

/// A mark before an expression.
#[derive(Clone, Copy, Debug, PartialEq, Eq)]
pub enum Prefix {
    /// `!`
    Not,
    /// `-`
    Minus,
    /// `+`
    Plus,
    /// `typeof`
    TypeOf,
}

/// A mark before an expression, with its place.
#[derive(Clone, Copy, Debug, PartialEq, Eq)]
pub struct PrefixMark {
    pub at: usize,
    pub prefix: Prefix,
}

/// The levels of chains, from the one that binds least.
#[derive(Clone, Copy, Debug, PartialEq, Eq)]
pub enum Level {
    Nullish,
    Or,
    And,
    Equality,
    Relation,
    Sum,
    Product,
}

/// What stands between two operands of a chain.
#[derive(Clone, Copy, Debug, PartialEq, Eq)]
pub enum Operator {
    /// `??`
    Nullish,
    /// `||`
    Or,
    /// `&&`
    And,
    /// `===`
    StrictEqual,
    /// `!==`
    StrictNotEqual,
    /// `==`
    LooseEqual,
    /// `!=`
    LooseNotEqual,
    /// `<`
    Less,
    /// `>`
    Greater,
    /// `<=`
    LessOrEqual,
    /// `>=`
    GreaterOrEqual,
    /// `+`
    Add,
    /// `-`
    Subtract,
    /// `*`
    Multiply,
    /// `/`
    Divide,
    /// `%`
    Remainder,
}

/// The word that begins a declaration.
#[derive(Clone, Copy, Debug, PartialEq, Eq)]
pub enum Binder {
    /// `const`
    Const,
    /// `let`
    Let,
}

/// A parameter: a name, a `?` behind it where it is optional, and a type or none.
#[derive(Drop)]
pub struct Parameter {
    pub first: usize,
    pub end: usize,
    pub name: Text,
    pub optional: bool,
    pub annotation: Option<TypeTree>,
}

/// `(a: A, b?: B): C`, with a comma behind the last parameter or not, and a type of the result or none.
#[derive(Drop)]
pub struct Signature {
    pub first: usize,
    pub end: usize,
    pub parameters: List<Parameter>,
    pub comma: bool,
    pub output: Option<TypeTree>,
}

/// An expression.
#[cycle(code)]
#[derive(Drop)]
pub struct Expr {
    pub first: usize,
    pub end: usize,
    pub form: ExprForm,
}

/// The forms of expressions.
#[cycle(code)]
#[derive(Drop)]
pub enum ExprForm {
    Variable(Text),
    Number(Text),
    Str(Text),
    /// `true` or `false`.
    Truth(bool),
    Null,
    /// `(e)`
    Paren(Boxed<Expr>),
    /// `[a, b]`, with a comma behind the last or not.
    Array {
        elements: List<Expr>,
        comma: bool,
    },
    /// `{a, b: c}`, with a comma behind the last or not.
    Object {
        fields: List<Field>,
        comma: bool,
    },
    Function(Boxed<Function>),
    Postfix(PostfixExpr),
    /// Marks in a row, the outermost first, and what they stand before.
    Prefix {
        marks: List<PrefixMark>,
        operand: Boxed<Expr>,
    },
    Chain(ChainExpr),
    Conditional(ConditionalExpr),
    Arrow(Boxed<ArrowExpr>),
}

/// An expression and the links that follow it.
#[cycle(code)]
#[derive(Drop)]
pub struct PostfixExpr {
    pub base: Boxed<Expr>,
    pub links: List<Link>,
}

/// Operands with operators of one level between them.
#[cycle(code)]
#[derive(Drop)]
pub struct ChainExpr {
    pub level: Level,
    pub left: Boxed<Expr>,
    pub operands: List<Operand>,
}

/// `a ? b : c ? d : e`: each test with its branch, and the last branch.
#[cycle(code)]
#[derive(Drop)]
pub struct ConditionalExpr {
    pub arms: List<Arm>,
    pub last: Boxed<Expr>,
}

/// `(a: A): B => body`
#[cycle(code)]
#[derive(Drop)]
pub struct ArrowExpr {
    pub signature: Signature,
    pub body: ArrowBody,
}

/// What stands behind `=>`.
#[cycle(code)]
#[derive(Drop)]
pub enum ArrowBody {
    Block(Block),
    Value(Boxed<Expr>),
}

/// What follows an expression: a property, an index or a call.
#[cycle(code)]
#[derive(Drop)]
pub struct Link {
    pub first: usize,
    pub end: usize,
    pub form: LinkForm,
}

/// The forms of links.
#[cycle(code)]
#[derive(Drop)]
pub enum LinkForm {
    /// `.name`
    Member(Text),
    /// `[e]`
    Index(Expr),
    /// `(a, b)`, with a comma behind the last or not.
    Call { arguments: List<Expr>, comma: bool },
}

/// An operator and its right side, or `as` and a type.
#[cycle(code)]
#[derive(Drop)]
pub struct Operand {
    pub first: usize,
    pub end: usize,
    pub form: OperandForm,
}

/// The forms of operands behind the first.
#[cycle(code)]
#[derive(Drop)]
pub enum OperandForm {
    Right { operator: Operator, side: Expr },
    /// `as T`
    As(TypeTree),
}

/// A property of an object.
#[cycle(code)]
#[derive(Drop)]
pub struct Field {
    pub first: usize,
    pub end: usize,
    pub form: FieldForm,
}

/// The forms of an object's properties.
#[cycle(code)]
#[derive(Drop)]
pub enum FieldForm {
    /// `name`
    Shorthand(Text),
    /// `key: value`
    Valued { key: Key, value: Expr },
}

/// `test ? branch :`
#[cycle(code)]
#[derive(Drop)]
pub struct Arm {
    pub first: usize,
    pub end: usize,
    pub test: Expr,
    pub branch: Expr,
}

/// `function name(a: A): B { .. }`, with a name or none.
#[cycle(code)]
#[derive(Drop)]
pub struct Function {
    pub first: usize,
    pub end: usize,
    pub name: Option<Text>,
    pub signature: Signature,
    pub body: Block,
}

/// Statements in braces.
#[cycle(code)]
#[derive(Drop)]
pub struct Block {
    pub first: usize,
    pub end: usize,
    pub statements: List<Statement>,
}

/// A statement.
#[cycle(code)]
#[derive(Drop)]
pub struct Statement {
    pub first: usize,
    pub end: usize,
    pub form: StatementForm,
}

/// The forms of statements.
#[cycle(code)]
#[derive(Drop)]
pub enum StatementForm {
    Declaration(Declaration),
    Function(Function),
    /// A simple statement and its semicolon.
    Simple(Simple),
    If(IfStatement),
    While(WhileStatement),
    Block(Block),
}

/// `const name: T = value`, or with `let`, and with a type or none.
#[cycle(code)]
#[derive(Drop)]
pub struct Declaration {
    pub first: usize,
    pub end: usize,
    pub binder: Binder,
    pub name: Text,
    pub annotation: Option<TypeTree>,
    pub value: Expr,
}

/// A statement that holds no other, without its semicolon.
#[cycle(code)]
#[derive(Drop)]
pub struct Simple {
    pub first: usize,
    pub end: usize,
    pub form: SimpleForm,
}

/// The forms of simple statements.
#[cycle(code)]
#[derive(Drop)]
pub enum SimpleForm {
    /// `return`
    Return,
    /// `return e`
    ReturnValue(Expr),
    /// `throw e`
    Throw(Expr),
    /// `break`
    Break,
    /// `continue`
    Continue,
    Assign(Assignment),
    /// An expression alone.
    Evaluate(Expr),
}

/// `target = value`
#[cycle(code)]
#[derive(Drop)]
pub struct Assignment {
    pub target: Expr,
    pub value: Expr,
}

/// `if (e) body`, each further one behind `else`, and what stands behind the last `else`.
#[cycle(code)]
#[derive(Drop)]
pub struct IfStatement {
    pub branches: List<Branch>,
    pub last: Else,
}

/// What ends an `if`.
#[cycle(code)]
#[derive(Drop)]
pub enum Else {
    /// No `else`.
    Nothing,
    /// `else body`
    Body(Body),
}

/// `while (test) body`
#[cycle(code)]
#[derive(Drop)]
pub struct WhileStatement {
    pub test: Expr,
    pub body: Body,
}

/// A block, or a simple statement and its semicolon.
#[cycle(code)]
#[derive(Drop)]
pub enum Body {
    Block(Block),
    Simple(Simple),
}

/// `if (test) body`
#[cycle(code)]
#[derive(Drop)]
pub struct Branch {
    pub first: usize,
    pub end: usize,
    pub test: Expr,
    pub body: Body,
}
