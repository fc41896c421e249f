//! The byte place of a line and a column.
ghost use Rattle.std.specs.Prelude.{◌≡◌, ◌↔◌, ◌<◌, ◌-◌, ◌^◌, ℕ, Some};
ghost use Rattle.byte_places.specs.Places.{StandsAt, line_behind, column_behind};

use source_characters::begins_char;

/// The line behind a byte of a text.
pub fn line_behind(line: u64, byte: u8) -> u64
    requires { line < 2 ^ 64 - 1 }
    ensures { result ≡ line_behind line byte }
{
    if byte == b'\n' { line + 1 } else { line }
}

/// The column behind a byte of a text: columns count characters, by the bytes that begin them.
pub fn column_behind(column: u64, byte: u8) -> u64
    requires { column < 2 ^ 64 - 1 }
    ensures { result ≡ column_behind column byte }
{
    if byte == b'\n' {
        1
    } else if begins_char(byte) {
        column + 1
    } else {
        column
    }
}

/// The byte place at which the character at a line and a column begins, both from 1, if there is one. A
/// line ends after LF alone, which is its last character, and columns count characters.
#[tactic(auto, using(crate::proofs::Behind::line_next, crate::proofs::Behind::column_next, crate::proofs::Behind::line_low, crate::proofs::Behind::column_low, crate::proofs::Behind::found_nowhere, crate::proofs::Behind::none_so_far))]
pub fn byte_place(text: &[u8], line: u64, column: u64) -> Option<usize>
    ensures { (at : ℕ) → (result ≡ Some at) ↔ StandsAt text.now line column at }
{
    let (mut in_line, mut in_column) = (1, 1);
    for i in 0..text.len() {
        let byte = text[i];
        if begins_char(byte) && in_line == line && in_column == column {
            return Some(i);
        }
        in_line = line_behind(in_line, byte);
        in_column = column_behind(in_column, byte);
    }
    None
}
