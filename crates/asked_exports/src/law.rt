//! The laws of what is asked, as the contract of a call that does nothing.
ghost use Rattle.asked_exports.specs.Enough.{AskedIsEnough, AskedJobsTellTheSame};

/// What a job tells depends on the answers to what it asks alone, so a job with the rows that are asked tells what it tells with the
/// whole signatures.
pub fn asked_is_enough()
    ensures law { AskedIsEnough }
    ensures jobs { AskedJobsTellTheSame }
{}
