ghost use Rattle.std.specs.Prelude.{◌≡◌, ◌≤◌, ◌<◌, length, IfSome};
ghost use Rattle.std.specs.List.{prefix_len};
ghost use Rattle.lex_pieces.specs.Marks.{with_len};
ghost use Rattle.lex_pieces.specs.Strings.{named_escape, escapes_itself, starts_with_digit};
ghost use Rattle.lex_pieces.specs.Escapes.{begins_with, is_hex, character, hex_character, fixed_at, braced_at, unicode_at, simple_escape, escape_at, part_at};

use crate::characters::ends_line;

/// The character of a string that is written at the front of a text, and the length of what is
/// written for it. `None` at the string's quote, and where nothing that may stand in a string is
/// written.
#[tactic(auto, unfolding(crate::specs::Escapes::part_at))]
pub fn part_at(quote: char, text: &[char]) -> Option<(char, usize)>
    ensures { result ≡ part_at quote text.now }
{
    match text {
        [] => None,
        [first, rest @ ..] => {
            if *first == '\\' {
                escape_at(rest)
            } else if *first == quote || *first == '\n' || *first == '\r' {
                None
            } else {
                Some((*first, 1))
            }
        }
    }
}

// What stands behind `\`. The length has the `\` in it.
#[tactic(auto, unfolding(crate::specs::Escapes::escape_at))]
fn escape_at(text: &[char]) -> Option<(char, usize)>
    ensures { result ≡ escape_at text.now }
{
    match text {
        [] => None,
        [first, rest @ ..] => {
            if *first == 'x' {
                with_len(4, fixed_at(2, rest))
            } else if *first == 'u' {
                unicode_at(rest)
            } else {
                with_len(2, simple_escape(*first, rest))
            }
        }
    }
}

#[tactic(auto, unfolding(crate::specs::Escapes::simple_escape))]
fn simple_escape(c: char, next: &[char]) -> Option<char>
    ensures { result ≡ simple_escape c next.now }
{
    if c == '0' {
        if starts_with_digit(next) {
            None
        } else {
            Some('\0')
        }
    } else if escapes_itself(c) {
        Some(c)
    } else {
        named_escape(c)
    }
}

// What stands behind `\u`.
#[tactic(auto, unfolding(crate::specs::Escapes::unicode_at))]
fn unicode_at(text: &[char]) -> Option<(char, usize)>
    ensures { result ≡ unicode_at text.now }
{
    if begins_with('{', text) {
        braced_at(&text[1..])
    } else {
        with_len(6, fixed_at(4, text))
    }
}

// What stands behind `\u{`.
#[tactic(auto, unfolding(crate::specs::Escapes::braced_at))]
fn braced_at(text: &[char]) -> Option<(char, usize)>
    ensures { result ≡ braced_at text.now }
{
    let len = hex_len(text);
    if len != 0 && begins_with('}', &text[len..]) {
        with_len(len + 4, hex_character(&text[..len]))
    } else {
        None
    }
}

// The character whose code a number of digits spells.
#[tactic(auto, unfolding(crate::specs::Escapes::fixed_at))]
fn fixed_at(count: usize, text: &[char]) -> Option<char>
    ensures { result ≡ fixed_at count text.now }
{
    if text.len() < count {
        None
    } else {
        hex_character(&text[..count])
    }
}

// Past the last code the number stands still, since leading zeros may follow one another for long.
#[tactic(auto, using(crate::proofs::Hex::hex_steps), unfolding(crate::specs::Escapes::hex_character))]
fn hex_character(digits: &[char]) -> Option<char>
    ensures { result ≡ hex_character digits.now }
{
    let mut code: u32 = 0;
    for digit in digits {
        let Some(value) = digit.to_digit(16) else {
            return None;
        };
        code = (code * 16 + value).min(0x11_0000);
    }
    char::from_u32(code)
}

fn hex_len(text: &[char]) -> usize
    ensures value { result ≡ prefix_len is_hex text.now }
    ensures within { result ≤ length text.now }
{
    text.iter().take_while(|digit| digit.is_digit(16)).count()
}

// A character with the length of what is written for it.
fn with_len(len: usize, c: Option<char>) -> Option<(char, usize)>
    ensures { result ≡ with_len len c }
{
    Some((c?, len))
}

fn named_escape(c: char) -> Option<char>
    ensures { result ≡ named_escape c }
{
    match c {
        'n' => Some('\n'),
        't' => Some('\t'),
        'r' => Some('\r'),
        'b' => Some('\u{8}'),
        'f' => Some('\u{C}'),
        'v' => Some('\u{B}'),
        _ => None,
    }
}

fn escapes_itself(c: char) -> bool
    ensures { result ≡ escapes_itself c }
{
    !(c.is_ascii_digit()
        || ends_line(c)
        || c == 'x'
        || c == 'u'
        || c == 'n'
        || c == 't'
        || c == 'r'
        || c == 'b'
        || c == 'f'
        || c == 'v')
}

fn starts_with_digit(text: &[char]) -> bool
    ensures { result ≡ starts_with_digit text.now }
{
    match text {
        [] => false,
        [first, ..] => first.is_ascii_digit(),
    }
}

/// Whether a text begins with a character.
pub fn begins_with(c: char, text: &[char]) -> bool
    ensures { result ≡ begins_with c text.now }
{
    match text {
        [] => false,
        [first, ..] => *first == c,
    }
}
