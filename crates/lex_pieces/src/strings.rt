ghost use Rattle.std.specs.Prelude.{◌≡◌, ◌≤◌, ◌<◌, ◌+◌, true, length, drop, None, IfSome, IfOk};
ghost use Rattle.std.specs.String.{string_bytes};
ghost use Rattle.lex_pieces.specs.Starts.{Starts};
ghost use Rattle.lex_pieces.specs.Escapes.{begins_with, part_at};
ghost use Rattle.lex_pieces.specs.Strings.{ReadsParts, IsStringRead};

use crate::escapes::{begins_with, part_at};
use crate::start::Start;
use flow_values::{NoMemory, Text};
use std::alloc::Global;

/// Reads the string at the front of a text that begins with a quote: its value, and how many
/// characters it has, or `None` where no string begins there.
///
/// # Errors
///
/// `NoMemory` where memory is refused.
pub fn read_string(alloc: Global, text: &[char]) -> Result<Option<(Text, usize)>, NoMemory>
    requires { Starts Start.Quote text.now }
    ensures { IfOk result (IsStringRead text.now) }
{
    match text {
        [] => Ok(None),
        [quote, ..] => {
            let (value, end) = read_parts(alloc, *quote, text)?;
            if begins_with(*quote, &text[end..]) {
                Ok(Some((Text::from_vec(alloc, value.into_bytes())?, end + 1)))
            } else {
                Ok(None)
            }
        }
    }
}

// Reads the characters behind the quote at the front of a text, as far as they are those of a
// string: their UTF-8, and where they end.
fn read_parts(alloc: Global, quote: char, text: &[char]) -> Result<(String, usize), NoMemory>
    requires { begins_with quote text.now ≡ true }
    ensures parts { IfOk result (λ read. ReadsParts quote text.now read.1 (string_bytes read.0)) }
    ensures end { IfOk result (λ read. part_at quote (drop read.1 text.now) ≡ None) }
    ensures within { IfOk result (λ read. read.1 ≤ length text.now) }
{
    let mut value = String::new(alloc);
    let mut at = 1;
    while let Some((c, len)) = next_part(quote, text, at) {
        value.push(c)?;
        at += len;
    }
    Ok((value, at))
}

fn next_part(quote: char, text: &[char], at: usize) -> Option<(char, usize)>
    requires { at ≤ length text.now }
    ensures value { result ≡ part_at quote (drop at text.now) }
    ensures within { IfSome result (λ part. (0 < part.1) × (at + part.1 ≤ length text.now)) }
{
    part_at(quote, &text[at..])
}
