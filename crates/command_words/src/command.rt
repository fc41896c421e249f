/// Where the modules come from.
#[derive(Clone, Copy, Debug, PartialEq, Eq)]
pub enum Form {
    /// From the folder that the word at this place names.
    Folder { place: usize },
    /// From the generator: so many modules, 1 at least and no more than a run may have, by this seed.
    Generated { modules: u32, seed: u64 },
}

/// What the words of the command tell a run.
#[derive(Clone, Copy, Debug, PartialEq, Eq)]
pub struct Command {
    /// Where the modules come from.
    pub form: Form,
    /// How many workers there are, 1 to 64.
    pub workers: u32,
    /// How many lanes there are, 1 to 16.
    pub lanes: u32,
    /// The most modules, 1 to 4,096.
    pub modules: u32,
}

/// What is told by a number.
#[derive(Clone, Copy, Debug, PartialEq, Eq)]
pub(crate) enum Setting {
    Workers,
    Lanes,
    Modules,
    Generated,
    Seed,
}
