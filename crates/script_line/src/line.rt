ghost use Rattle.std.specs.Prelude.{◌≡◌};

use asks::Ask;
use flow_values::{List, Path, Text};

/// What a line of a script says.
#[derive(Debug, Drop)]
pub enum Line {
    /// Spaces, tabs and carriage returns alone, or nothing.
    Blank,
    /// The path has this text from the next recheck on.
    Edit { path: Path, text: Text },
    /// The path is no module from the next recheck on.
    Delete { path: Path },
    /// The next recheck reads the path from the folder.
    Touch { path: Path },
    /// The pending edits are checked and committed, and meanwhile the questions are answered. At the
    /// poll `stop`, counted from 1, the recheck is cancelled; 0 stands for none.
    Recheck { stop: u64, asks: List<Ask> },
    /// A question of the committed version.
    Ask(Ask),
    /// The script ends here.
    End,
}

/// Why a line says nothing.
#[derive(Clone, Copy, Debug, PartialEq, Eq)]
pub enum LineFault {
    /// The line is neither blank nor a command.
    BadLine,
    /// The line would be a command, but it has more questions than 64: so many.
    TooManyAsks { count: u64 },
    /// Memory was refused.
    NoMemory,
}

impl From<flow_values::NoMemory> for LineFault {
    ghost use Rattle.script_line.specs.declared.line.LineFault.TheVariants.{NoMemory};

    ghost from_gives = { λ _ e. e ≡ NoMemory };

    fn from(_: flow_values::NoMemory) -> Self {
        LineFault::NoMemory
    }
}
