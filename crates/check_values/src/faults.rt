use crate::Code;
use flow_values::{List, Span, Text};

/// A fault of a module: the bytes where it stands, what it is, and the details that are printed
/// behind the code's name, which may be empty.
#[derive(Debug, Drop, PartialEq)]
pub struct Fault {
    pub span: Span,
    pub code: Code,
    pub details: Text,
}

/// The faults of a module, in the order in which they are printed.
#[derive(Debug, Drop)]
pub struct Errs {
    pub faults: List<Fault>,
}
