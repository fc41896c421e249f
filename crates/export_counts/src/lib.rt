//! The law that a source has at most as many exports as bytes: so the chain of a name is followed as far as it goes, and nobody has to
//! count. The definitions stand in `specs/`; the code here is the law, as the contract of a call that does nothing.
#![tactic(auto)]

ghost use Rattle.export_counts.specs.Law.{AtMostBytes, AtMostLimit, FewNames};

pub use source_front;

/// A source has at most as many exports as bytes, and modules that were parsed have fewer names than the steps for which a chain is
/// followed.
pub fn few_exports()
    ensures bytes { AtMostBytes }
    ensures limit { AtMostLimit }
    ensures names { FewNames }
{}
