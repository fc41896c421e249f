//! The values that the check makes and the heap holds: codes, faults, signatures, dependency lists,
//! and the modules of a version.
#![tactic(auto)]

mod codes;
mod faults;
mod root;
mod signatures;

pub use codes::Code;
pub use faults::{Errs, Fault};
pub use root::{Root, RootRow};
pub use signatures::{DepRow, Deps, Export, ImportRow, LocalSig, Origin, Sig};
