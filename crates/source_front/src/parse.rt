// What is kept of a source.
use check_values::{Fault, LocalSig};
use flow_values::{List, Shared, Span};
use js_tree::Module;

/// Why a source has no tree, and the byte at which that stands.
#[derive(Clone, Copy, Debug, PartialEq, Eq)]
pub enum SourceFault {
    /// It is not UTF-8.
    NotUtf8,
    /// No token begins at this byte.
    BadToken { at: u32 },
    /// It has so many bytes, more than a source may have.
    SourceTooLong { len: u64 },
    /// The token that begins at this byte goes on no module, or the source ends there and is none.
    Parse { at: u32 },
}

/// The tree of a source with the span of each of its tokens, or its fault.
#[derive(Drop)]
pub enum ParseTree {
    Tree { module: Module, spans: List<Span> },
    Broken(SourceFault),
}

/// What a source says by itself. The faults are those of its signature, in order; a source without a tree has none of these.
#[derive(Drop)]
pub struct Parse {
    pub tree: ParseTree,
    pub sig: Shared<LocalSig>,
    pub faults: List<Fault>,
}
