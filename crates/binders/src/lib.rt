//! What code binds: the types of functions, and the names of parameters, declarations and functions, with their faults.
#![tactic(auto)]

mod binding;
mod names;
mod signatures;

pub use binding::bind;
pub use names::{
    bind_declaration, bind_function, bind_signature, bind_statements, function_binding,
};
pub use signatures::{annotated, function_type, read_signature};
