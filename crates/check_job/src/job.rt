//! What a module is checked by.
use check_values::Deps;
use flow_values::{Path, Shared, Text};
use signature_table::SignatureTable;
use source_front::Parse;

/// A module that is checked: its path, its text and what that says by itself, which modules its
/// specifiers find, and a table of merged signatures: of those at least that it reaches, itself among them where it does.
#[derive(Drop)]
pub struct CheckJob {
    pub path: Path,
    pub text: Text,
    pub parse: Shared<Parse>,
    pub deps: Shared<Deps>,
    pub sigs: Shared<SignatureTable>,
}
