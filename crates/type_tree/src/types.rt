// The trees of types.
use flow_values::{Boxed, List, Text};

/// What stands before the key of an object type's property.
#[derive(Clone, Copy, Debug, PartialEq, Eq)]
pub enum Sign {
    /// Nothing.
    Unsigned,
    /// `+`
    Plus,
    /// `-`
    Minus,
}

/// What stands behind the last property of an object type.
#[derive(Clone, Copy, Debug, PartialEq, Eq)]
pub enum Ending {
    /// Nothing.
    Bare,
    /// `,`
    Comma,
    /// `...`, behind a comma where there is a property.
    Dots,
}

/// The key of a property: one token.
#[derive(Debug, Drop)]
pub struct Key {
    pub first: usize,
    pub end: usize,
    pub form: KeyForm,
}

/// What a key is.
#[derive(Debug, Drop)]
pub enum KeyForm {
    /// A word, reserved or not.
    Word(Text),
    /// A string's value.
    Str(Text),
}

/// A type: a union of one or more members, with a `|` before the first or not.
#[cycle(types)]
#[derive(Drop)]
pub struct TypeTree {
    pub first: usize,
    pub end: usize,
    pub lead: bool,
    pub members: List<PreTree>,
}

/// A member of a union: question marks, by their places, and what stands behind them.
#[cycle(types)]
#[derive(Drop)]
pub struct PreTree {
    pub first: usize,
    pub end: usize,
    pub marks: List<usize>,
    pub core: CoreTree,
}

/// A function type, or a base and its pairs of brackets.
#[cycle(types)]
#[derive(Drop)]
pub enum CoreTree {
    Function(FunctionType),
    Post(PostType),
}

/// `(A, b: B, c?: C) => D`, with a comma behind the last parameter or not.
#[cycle(types)]
#[derive(Drop)]
pub struct FunctionType {
    pub first: usize,
    pub end: usize,
    pub params: List<ParamTree>,
    pub comma: bool,
    pub result: Boxed<TypeTree>,
}

/// A base and the places of the `[` of each pair of brackets behind it.
#[cycle(types)]
#[derive(Drop)]
pub struct PostType {
    pub first: usize,
    pub end: usize,
    pub base: BaseTree,
    pub brackets: List<usize>,
}

/// What stands before brackets.
#[cycle(types)]
#[derive(Drop)]
pub struct BaseTree {
    pub first: usize,
    pub end: usize,
    pub form: BaseForm,
}

/// The forms of what stands before brackets.
#[cycle(types)]
#[derive(Drop)]
pub enum BaseForm {
    Name(Text),
    Str(Text),
    Number(Text),
    Null,
    Void,
    /// `true` or `false`.
    Truth(bool),
    /// `Array<T>`, or `$ReadOnlyArray<T>` where it is read-only.
    Array {
        read_only: bool,
        element: Boxed<TypeTree>,
    },
    /// `(T)`
    Paren(Boxed<TypeTree>),
    /// `[A, B]`, with a comma behind the last or not.
    Tuple {
        types: List<TypeTree>,
        comma: bool,
    },
    /// `{a: A, +b?: B}`
    Object {
        props: List<PropTree>,
        ending: Ending,
    },
}

/// A parameter of a function type.
#[cycle(types)]
#[derive(Drop)]
pub enum ParamTree {
    Plain(TypeTree),
    Named(NamedParam),
}

/// `a: A`, or `a?: A` where it is optional.
#[cycle(types)]
#[derive(Drop)]
pub struct NamedParam {
    pub first: usize,
    pub end: usize,
    pub name: Text,
    pub optional: bool,
    pub ty: TypeTree,
}

/// A property of an object type.
#[cycle(types)]
#[derive(Drop)]
pub struct PropTree {
    pub first: usize,
    pub end: usize,
    pub sign: Sign,
    pub key: Key,
    pub optional: bool,
    pub ty: TypeTree,
}
