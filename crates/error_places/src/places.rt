//! Lines and columns of byte places, each counted on from an earlier one.
ghost use Rattle.std.specs.Prelude.{◌≡◌, ◌<◌, ◌≤◌, ◌+◌, ◌-◌, ◌^◌, length};
ghost use Rattle.source_place.specs.Place.{Bytes, line_at, column_at};
ghost use Rattle.byte_places.specs.Places.{line_behind, column_behind};
ghost use Rattle.error_places.specs.Places.{IsAt};

use byte_places::{column_behind, line_behind};

/// A byte place of a text with its line and its column, both from 1. A line ends after LF alone, and
/// columns count characters.
#[derive(Clone, Copy)]
pub(crate) struct Place {
    pub at: usize,
    pub line: u64,
    pub column: u64,
}

/// The first byte of any text.
pub(crate) fn start() -> Place
    ensures here { (text : Bytes) → IsAt text result }
    ensures at { result.at ≡ 0 }
{
    Place {
        at: 0,
        line: 1,
        column: 1,
    }
}

// The place behind the byte at a place.
#[tactic(auto, using(crate::proofs::Steps::is_behind, crate::proofs::Steps::line_few, crate::proofs::Steps::column_few))]
fn behind(text: &[u8], place: Place) -> Place
    requires here { IsAt text.now place }
    requires more { place.at < length text.now }
    ensures here { IsAt text.now result }
    ensures at { result.at ≡ place.at + 1 }
{
    let byte = text[place.at];
    Place {
        at: place.at + 1,
        line: line_behind(place.line, byte),
        column: column_behind(place.column, byte),
    }
}

// A place from which a byte can be counted on: the one that is known, or the start where that one is
// behind the byte.
fn before(known: Place, at: usize) -> Place
    ensures here { (text : Bytes) → IsAt text known → IsAt text result }
    ensures at { result.at ≤ at }
{
    if at < known.at {
        return start();
    }
    known
}

/// The place of a byte of a text, counted on from an earlier one, and from the start where that one
/// is behind it; of a byte behind the text's end it is that of the end.
#[tactic(auto, using(crate::proofs::Steps::line_there, crate::proofs::Steps::column_there))]
pub(crate) fn locate(text: &[u8], known: Place, at: u32) -> Place
    requires { IsAt text.now known }
    ensures here { IsAt text.now result }
    ensures line { result.line ≡ line_at text.now at }
    ensures column { result.column ≡ column_at text.now at }
{
    let end = usize::min(at as usize, text.len());
    let mut place = before(known, end);
    while place.at < end {
        place = behind(text, place);
    }
    place
}
