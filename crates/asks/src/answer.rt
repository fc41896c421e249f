ghost use Rattle.std.specs.Prelude.{◌≡◌};

use check_values::{Code, Sig};
use flow_values::{List, NoMemory, Path, Shared, Text};
use type_values::FlowType;

/// An error with the place where it stands: its line and its column, both from 1, columns in
/// characters.
#[derive(Debug, Drop)]
pub struct Located {
    pub path: Path,
    pub line: u64,
    pub column: u64,
    pub code: Code,
    pub details: Text,
}

/// What is answered.
#[derive(Drop)]
pub enum Answer {
    /// Errors, in the order in which they are printed.
    Faults(List<Located>),
    /// The type at a place.
    Shown(FlowType),
    /// The module that a specifier finds, if it finds one.
    Found(Option<Path>),
    /// Modules, in rising order of their paths.
    Paths(List<Path>),
    /// What a module says to others.
    Sig(Shared<Sig>),
}

/// Why nothing is answered.
#[derive(Clone, Copy, Debug, PartialEq, Eq)]
pub enum AskFault {
    /// The path that was asked for is no module's.
    UnknownPath,
    /// No expression that is read covers the place.
    NoExpression,
    /// Memory was refused.
    NoMemory,
}

impl From<NoMemory> for AskFault {
    ghost use Rattle.asks.specs.declared.answer.AskFault.TheVariants as fault;

    ghost from_gives = { λ _ e. e ≡ fault.NoMemory };

    fn from(_: NoMemory) -> Self {
        AskFault::NoMemory
    }
}
