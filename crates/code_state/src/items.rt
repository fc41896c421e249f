// What may come next outside code: in the names of imports and exports, and where an item begins. No tree of code stands here.
use crate::frames::Wrap;
use flow_values::{List, Text};
use js_tree::{ExportList, Exported, ImportForm, Imported};

/// What stands before a list of names in braces.
#[derive(Drop)]
pub enum Opening {
    Names,
    /// A name and a comma.
    Both(Text),
    Types,
    /// `export`, with `type` behind it or not.
    Exports(bool),
}

/// The names in braces so far.
#[derive(Drop)]
pub enum Names {
    Imported(List<Imported>),
    Exported(List<Exported>),
}

/// Where the item begins, what stands before the list, the place of its brace, and the names so far.
#[derive(Drop)]
pub struct Listing {
    pub first: usize,
    pub opening: Opening,
    pub start: usize,
    pub names: Names,
}

/// Where an alias's item begins, what stands before it, the place of `type`, and the name.
#[derive(Drop)]
pub struct AliasHead {
    pub first: usize,
    pub wrap: Wrap,
    pub start: usize,
    pub name: Text,
}

/// An item that is whole but for its semicolon.
#[derive(Drop)]
pub enum Ending {
    Import(ImportForm, Text),
    /// Behind `type` or not.
    Names(bool, ExportList),
    From(bool, ExportList, Text),
}

/// What may come next behind `import` at a place.
#[derive(Drop)]
pub enum ImportMode {
    Start(usize),
    Word(usize, Text),
    Comma(usize, Text),
    List(usize, ImportForm),
    From(usize, ImportForm),
}

/// What may come next among names in braces.
#[derive(Drop)]
pub enum NamesMode {
    Start(Listing),
    /// Behind a word at a place.
    Name(Listing, usize, Text),
    /// Behind a word at a place, and `as`.
    As(Listing, usize, Text),
    Pair(Listing),
}

/// What may come next behind `export` at a place.
#[derive(Drop)]
pub enum ExportMode {
    Start(usize),
    /// Behind `type` at a place.
    Type(usize, usize),
    List(usize, bool, ExportList),
    From(usize, bool, ExportList),
    Default(usize),
}

/// What may come next where an item begins, or in one that holds no code yet.
#[derive(Drop)]
pub enum ItemMode {
    Start,
    /// Behind `type` at a place.
    Type(usize),
    Alias(AliasHead),
    Import(ImportMode),
    Names(NamesMode),
    Export(ExportMode),
    End(usize, Ending),
}
