//! All results.
use crate::merging::Sources;
use check_values::{Errs, Sig};
use flow_values::Shared;

/// All results of the modules of a program, in order.
#[derive(Drop)]
pub struct Made {
    /// The modules with what is known of each by itself.
    pub sources: Sources,
    /// The merged signature of each.
    pub signatures: Vec<Shared<Sig>>,
    /// The errors of each.
    pub errors: Vec<Shared<Errs>>,
}
