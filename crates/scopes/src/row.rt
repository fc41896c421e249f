use crate::binding::Binding;
use type_values::FlowType;

/// A name, and where the next outer one of its name, and of its number, stands.
#[derive(Drop)]
pub(crate) struct Row {
    pub binding: Binding,
    pub outer_name: Option<usize>,
    pub outer_number: Option<usize>,
}

/// What the name at a place was before its declaration was read.
#[derive(Drop)]
pub(crate) struct Earlier {
    pub at: usize,
    pub is_read: bool,
    pub declared: Option<FlowType>,
}

/// How many names were seen, and how many declarations had been read: what `Scope::leave` goes back to.
#[derive(Clone, Copy, Debug)]
pub struct Height {
    pub(crate) rows: usize,
    pub(crate) changes: usize,
}
