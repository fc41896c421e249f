use flow_values::{Path, Text};

/// What may be asked of a version of the program.
#[derive(Debug, Drop)]
pub enum Ask {
    /// The errors of all modules.
    Status,
    /// The errors of a module.
    Errors { path: Path },
    /// The errors that a module would have with this text, the other modules as they are.
    CheckContents { path: Path, text: Text },
    /// The type of the innermost expression at a line and a column of a module, both from 1.
    TypeAtPos { path: Path, line: u64, column: u64 },
    /// The module that a specifier finds from a module.
    FindModule { path: Path, spec: Text },
    /// The paths of all modules.
    Ls,
    /// The modules whose specifiers find a module.
    Importers { path: Path },
    /// What a module says to others.
    Signature { path: Path },
}
