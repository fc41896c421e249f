//! How far a module has been read: the forms that are open, and what may come next. What a state stands for in the machine of
//! `code_law` is `specs/State.antt`.
#![tactic(auto)]

mod frames;
mod items;
mod modes;
mod stack;

pub use frames::{
    BodyFrame, Declared, Entry, Frame, FunctionKind, Heading, InnerFrame, Linked, Nearest,
    OpenBlock, OpenChain, OpenIf, OperatorFrame, Place, Row, TailFrame, ValueFrame, Verb, Wrap,
};
pub use items::{
    AliasHead, Ending, ExportMode, ImportMode, ItemMode, Listing, Names, NamesMode, Opening,
};
pub use modes::{
    GroupMode, HeadMode, Mode, NamedParameter, OpenFields, OpenParameters, Owner, ParenWord,
    StatementMode, Turn, ValueMode, Waiting,
};
pub use stack::{Bottom, Stack, Top};
