//! One step of a chain, and where a chain ends.
ghost use Rattle.std.specs.Prelude.{◌≡◌};
ghost use Rattle.chain_ends.specs.Following.{of_kind};

/// Where a chain ends.
#[derive(Clone, Copy, Debug, PartialEq, Eq)]
pub enum End {
    /// At a value, which its caller knows by this number.
    Value(usize),
    /// At an alias, which its caller knows by this number.
    Alias(usize),
    /// Nothing is known.
    Unknown,
    /// Nowhere: it repeats.
    Cyclic,
}

/// One step along the chain from a name.
#[derive(Clone, Copy, Debug, PartialEq, Eq)]
pub enum Link {
    /// The chain ends here.
    Ends(End),
    /// It goes on at the name of another number, and a type is asked for there, or a value.
    Goes { is_type: bool, next: usize },
}

impl End {
    /// What this end is where a type is asked for, or a value: one of the other kind is unknown.
    pub fn of_kind(self, is_type: bool) -> End
        ensures { result ≡ of_kind is_type self }
    {
        match self {
            End::Value(_) if is_type => End::Unknown,
            End::Alias(_) if !is_type => End::Unknown,
            end => end,
        }
    }
}
