ghost use Rattle.std.specs.Prelude.{◌≡◌};
ghost use Rattle.flowd_top.specs.Statuses.{status_number};

/// How a run ended.
#[derive(Clone, Copy, Debug, PartialEq, Eq)]
pub enum Status {
    /// The script came to its end, and the program that was committed last has no errors.
    Clean = 0,
    /// The script came to its end, and the program that was committed last has errors.
    Errors = 2,
    /// The words are not of the command.
    Usage = 64,
    /// A line of the script is neither blank nor a command.
    BadLine = 65,
    /// The folder's paths could not be listed.
    FolderFault = 66,
    /// The script could not be read.
    ScriptFault = 67,
    /// The sink failed.
    SinkFault = 68,
    /// The folder has too many files, a line of the script is too long or has too many questions, or there are too many
    /// lines.
    Limit = 69,
    /// Memory was refused.
    NoMemory = 70,
}

impl Status {
    /// The number that the process ends with.
    pub fn number(self) -> u8
        ensures { result ≡ status_number self }
    {
        self as u8
    }
}
