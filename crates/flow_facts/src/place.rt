use flow_values::{List, Text};

/// A place that has facts: a variable, or one property of a variable. Variables come before
/// properties, and properties are ordered by their names first.
#[derive(Debug, PartialEq, Eq, PartialOrd, Ord, Drop)]
pub struct Place {
    /// The name of the property, or `None` for the variable itself.
    pub prop: Option<Text>,
    /// The number of the variable's binding.
    pub binding: u32,
}

/// What a loop may change before a turn.
#[derive(Debug, Drop)]
pub struct Killed {
    /// The variables that are assigned in it.
    pub bindings: List<u32>,
    /// The names of the properties that are assigned in it.
    pub props: List<Text>,
    /// Whether any property may be changed.
    pub all_props: bool,
}
