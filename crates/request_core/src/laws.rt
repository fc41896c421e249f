//! Laws of the traits, as the contracts of calls that do nothing.
ghost use Rattle.std.specs.Prelude.{◌<◌, ◌^◌, length};
ghost use Rattle.analyst.specs.Work.{IsCounted};

use analyst::Analyst;
use heap_answers::payloads::Payload;
use heap_core::HeapReader;

/// The counts of an analyst stay within their type.
pub(crate) fn counted<A: Analyst>(analyst: &A)
    ensures { IsCounted (A.work analyst.now) }
{}

/// Each entity that a reader reads has a number.
pub(crate) fn numbered<R: HeapReader<Payload>>(reader: &R)
    ensures { length (R.state reader.now) < 2 ^ 32 }
{}
