use flow_values::{List, Path, Text};

/// A module of a root: its path, its row, which says at which entities its results stand, and its
/// text.
#[derive(Debug, Drop)]
pub struct RootRow {
    pub path: Path,
    pub row: u32,
    pub text: Text,
}

/// The modules of one version, in rising order of their paths, each at a row of its own.
#[derive(Debug, Drop)]
pub struct Root {
    pub modules: List<RootRow>,
}
