//! Where facts stand.
ghost use Rattle.std.specs.Prelude.{◌≡◌};
ghost use Rattle.flow_facts.specs.Known.{is_constant_number};

/// A property of a variable: the number of the property's name, and the variable. Properties of one
/// name stand together.
#[derive(Debug, Clone, Copy, PartialEq, Eq, PartialOrd, Ord)]
pub struct Key {
    pub name: usize,
    pub binding: u32,
}

/// The same key, where properties of one variable stand together.
#[derive(Debug, Clone, Copy, PartialEq, Eq, PartialOrd, Ord)]
pub(crate) struct Turned {
    pub binding: u32,
    pub name: usize,
}

/// What has a fact.
#[derive(Debug, Clone, Copy, PartialEq, Eq)]
pub enum Slot {
    /// A variable.
    Variable(u32),
    /// A property of a variable.
    Property(Key),
}

/// Whether a variable is constant, by its number.
pub fn is_constant(binding: u32) -> bool
    ensures { result ≡ is_constant_number binding }
{
    binding % 2 == 1
}
