//! Reading of types from tokens: `read_type`.
#![tactic(auto)]

mod begin;
mod groups;
pub mod modes;
mod nesting;
mod objects;
mod read;
mod state;
mod step;
mod words;

pub use nesting::Nesting;
pub use read::{ParseFault, read_type};
pub use state::{
    ArrayName, Based, Frame, Group, GroupName, Keyed, Mode, Object, OpenUnion, Signed, Tuple, Turn,
};
