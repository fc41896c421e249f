use flow_values::{Boxed, Text};
use type_values::FlowType;

/// A literal that a test compares with.
#[derive(Debug, Drop)]
pub enum Lit {
    /// A string, by its bytes.
    Str(Text),
    /// A number, by its spelling.
    Num(Text),
    Bool(bool),
}

/// A test on a place.
#[derive(Debug, Drop)]
pub enum Test {
    Truthy,
    Falsy,
    IsNull,
    NotNull,
    IsVoid,
    NotVoid,
    Nullish,
    NotNullish,
    IsLit(Lit),
    NotLit(Lit),
    Typeof(Text),
    NotTypeof(Text),
    /// A test on one property of the place.
    OnProp { key: Text, test: Boxed<Test> },
}

/// What a test makes of one member of a type.
#[derive(Debug, Drop)]
pub enum Cell {
    /// The member is kept.
    Stays,
    /// The member is dropped.
    Gone,
    /// Another type takes the member's place.
    Becomes(FlowType),
}
