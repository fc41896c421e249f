use flow_values::{List, Path, Text};
use type_values::FlowType;

/// What a module says by itself of one of its exports.
#[derive(Debug, Drop)]
pub enum Origin {
    /// A value of this type.
    Value(FlowType),
    /// The alias of this name in the module.
    Alias(Text),
    /// What the module that a specifier finds exports by a name, as a type or as a value.
    Import {
        spec: Text,
        name: Text,
        is_type: bool,
    },
    /// Nothing is known.
    Unknown,
}

/// A name of a module that is imported: the local name, the specifier, the name in the module that it
/// finds, and whether a type is asked for.
#[derive(Debug, Drop)]
pub struct ImportRow {
    pub local: Text,
    pub spec: Text,
    pub name: Text,
    pub is_type: bool,
}

/// What a module's source alone says to others. A name in its types is a `Ref` to a local name, whose
/// module is the reserved path `self.js/self.js`.
#[derive(Debug, Drop)]
pub struct LocalSig {
    /// Whether the source has no tree; then nothing else is told.
    pub broken: bool,
    /// In order of the names.
    pub exports: List<(Text, Origin)>,
    /// In order of the names.
    pub aliases: List<(Text, FlowType)>,
    /// In order of the source.
    pub imports: List<ImportRow>,
}

/// A specifier and the module that it finds.
#[derive(Debug, Drop)]
pub struct DepRow {
    pub spec: Text,
    pub found: Option<Path>,
}

/// The specifiers of a module, in order of their first places.
#[derive(Debug, Drop)]
pub struct Deps {
    pub rows: List<DepRow>,
}

/// What an export stands for in the whole program.
#[derive(Debug, Drop)]
pub enum Export {
    /// A value of this type.
    Value(FlowType),
    /// The alias of this name in a module.
    Alias { module: Path, name: Text },
    /// Nothing is known.
    Unknown,
    /// A chain of re-exports that comes back to itself.
    Cyclic,
}

/// What a module says to others in the whole program. A name in its types is a `Ref` to an alias of a
/// module.
#[derive(Debug, Drop)]
pub struct Sig {
    /// Whether the source has no tree; then nothing else is told.
    pub broken: bool,
    /// In order of the names.
    pub exports: List<(Text, Export)>,
    /// In order of the names.
    pub aliases: List<(Text, FlowType)>,
}
