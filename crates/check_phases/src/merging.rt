//! The modules of a program.
use analyst::source_front::Parse;
use check_values::{Deps, Root};
use flow_values::Shared;

/// The modules of a program with what is known of each by itself, in order.
#[derive(Drop)]
pub struct Sources {
    /// The modules.
    pub root: Shared<Root>,
    /// What the source of each says by itself.
    pub parses: Vec<Shared<Parse>>,
    /// The dependency list of each.
    pub lists: Vec<Shared<Deps>>,
}
