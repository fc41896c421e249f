// How far a type has been read.
use flow_values::{List, Text};
use type_tree::{BaseTree, Key, ParamTree, PreTree, PropTree, Sign, TypeTree};

/// An open union: where it begins, its leading bar, its members so far, where the next one begins and the places of the
/// question marks of that.
#[derive(Drop)]
pub struct OpenUnion {
    pub first: usize,
    pub lead: bool,
    pub members: List<PreTree>,
    pub start: usize,
    pub marks: List<usize>,
}

/// A base and the places of its brackets so far.
#[derive(Drop)]
pub struct Based {
    pub open: OpenUnion,
    pub base: BaseTree,
    pub brackets: List<usize>,
}

/// The name of an array type, and its place.
#[derive(Drop)]
pub struct ArrayName {
    pub open: OpenUnion,
    pub first: usize,
    pub read_only: bool,
}

/// An open `(` and what stands in it so far.
#[derive(Drop)]
pub struct Group {
    pub open: OpenUnion,
    pub first: usize,
    pub params: List<ParamTree>,
}

/// A name in a group, and its place.
#[derive(Drop)]
pub struct GroupName {
    pub group: Group,
    pub start: usize,
    pub name: Text,
}

/// An open `[` and what stands in it so far.
#[derive(Drop)]
pub struct Tuple {
    pub open: OpenUnion,
    pub first: usize,
    pub types: List<TypeTree>,
}

/// An open `{` and what stands in it so far.
#[derive(Drop)]
pub struct Object {
    pub open: OpenUnion,
    pub first: usize,
    pub props: List<PropTree>,
}

/// The sign of a property, and where the property begins.
#[derive(Drop)]
pub struct Signed {
    pub object: Object,
    pub start: usize,
    pub sign: Sign,
}

/// The sign and the key of a property.
#[derive(Drop)]
pub struct Keyed {
    pub signed: Signed,
    pub key: Key,
}

/// A form that waits for a type. The flag of a name or a key tells a question mark behind it, that of a result a comma behind
/// the last parameter.
#[derive(Drop)]
pub enum Frame {
    Array(ArrayName),
    Group(Group),
    Named(GroupName, bool),
    Output(Group, bool),
    Tuple(Tuple),
    Prop(Keyed, bool),
}

/// What may come next.
#[derive(Drop)]
pub enum Mode {
    Want,
    WantPre(OpenUnion),
    AfterBase(Based),
    AfterBracket(Based, usize),
    AfterArray(ArrayName),
    GroupStart(Group),
    GroupName(GroupName),
    GroupMark(GroupName),
    Closed(Group, bool),
    TupleStart(Tuple),
    ObjectStart(Object),
    AfterDots(Object),
    AfterSign(Signed),
    AfterKey(Keyed),
    AfterMark(Keyed),
}

/// What a token does: it is no part of the type, it is read, or the type ended before it.
#[derive(Drop)]
pub enum Turn {
    Fault,
    Go(Mode),
    Done(TypeTree),
}
