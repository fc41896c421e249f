// What may come next.
use crate::frames::{Declared, FunctionKind, Heading, Linked, OpenBlock, OpenChain, OpenIf, Row};
use crate::items::{AliasHead, ItemMode};
use code_tree::{Binder, Expr, Field, Parameter, Signature, Simple};
use flow_values::{Boxed, List, Text};
use type_tree::Key;

/// An open `{` and an object's properties behind it so far.
#[derive(Drop)]
pub struct OpenFields {
    pub first: usize,
    pub fields: List<Field>,
}

/// A word behind `(`, each with its place: a variable or a parameter.
#[derive(Drop)]
pub struct ParenWord {
    pub first: usize,
    pub start: usize,
    pub name: Text,
}

/// Whose parameters they are.
#[derive(Drop)]
pub enum Owner {
    Arrow,
    Function(Heading),
}

/// An open `(` and the parameters behind it so far.
#[derive(Drop)]
pub struct OpenParameters {
    pub owner: Owner,
    pub first: usize,
    pub parameters: List<Parameter>,
}

/// A parameter's name, and its place.
#[derive(Drop)]
pub struct NamedParameter {
    pub open: OpenParameters,
    pub start: usize,
    pub name: Text,
}

/// What may come next in an expression.
#[derive(Drop)]
pub enum ValueMode {
    Want,
    Links(Linked),
    /// Behind a dot at a place.
    Dot(Linked, usize),
    RowStart(Row, List<Expr>),
    /// An expression that no link follows.
    Settled(Expr),
}

/// What may come next in an object, or behind `(`.
#[derive(Drop)]
pub enum GroupMode {
    FieldStart(OpenFields),
    FieldWord(OpenFields, usize, Text),
    FieldKey(OpenFields, Key),
    ParenStart(usize),
    ParenWord(ParenWord),
    /// Behind a question mark at a place.
    ParenMark(ParenWord, usize),
}

/// What may come next up to a function's body.
#[derive(Drop)]
pub enum HeadMode {
    Function(FunctionKind, usize),
    Open(Owner),
    Start(OpenParameters),
    Word(NamedParameter),
    Mark(NamedParameter),
    /// Behind `)`, with a comma before it or not.
    End(OpenParameters, bool),
    Arrow(Boxed<Signature>),
}

/// What may come next among statements.
#[derive(Drop)]
pub enum StatementMode {
    Start(OpenBlock),
    Binder(usize, Binder),
    Declared(Declared),
    Return(usize),
    Simple(Boxed<Simple>),
    /// Behind an `if` at a place.
    If(OpenIf, usize),
    While(usize),
    Body,
    Branch(OpenIf),
    Else(OpenIf),
}

/// What may come next inside an item, outside types. It is moved at each token, so its largest forms are boxed.
#[derive(Drop)]
pub enum Mode {
    Value(ValueMode),
    Group(GroupMode),
    Head(HeadMode),
    Statement(StatementMode),
}

/// What waits for a type.
#[derive(Drop)]
pub enum Waiting {
    /// A parameter, with a question mark or not.
    Parameter(NamedParameter, bool),
    /// The result, with a comma behind the last parameter or not.
    Output(OpenParameters, bool),
    Declared(Declared),
    /// `as` at a place, behind operands.
    Cast(OpenChain, usize),
}

/// What a token does: it is no part of the module, it is read, or something ended before it. Where an item's form is read
/// that holds no code yet, nothing is open.
#[derive(Drop)]
pub enum Turn {
    Fault,
    Go(Mode),
    /// A type begins.
    Type(Waiting),
    Item(ItemMode),
    /// The type of an alias begins.
    Alias(AliasHead),
    /// An expression ended that stands in no form.
    Whole(Expr),
    /// The items ended.
    Items,
}
