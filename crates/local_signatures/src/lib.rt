//! What a module says to others by itself: its local signature and the faults of it. All of it stands in `specs/`; the code here
//! is what holds of it, as the contract of a call that does nothing.
#![tactic(auto)]

ghost use Rattle.local_signatures.specs.LocalSignature.{HasOneLocalSignature};

/// A module has exactly one local signature, the one that the rounds of reached names give.
pub fn one_local_signature()
    ensures { HasOneLocalSignature }
{}
