ghost use Rattle.std.specs.Prelude.{◌≡◌};
ghost use Rattle.lex_pieces.specs.Characters.{is_blank_char, goes_on, ends_line, is_quote};

use source_characters::continues_word;

/// Whether a character is a blank by itself.
pub fn is_blank(c: char) -> bool
    ensures { result ≡ is_blank_char c }
{
    matches!(
        c,
        '\t'..='\r' | ' ' | '\u{A0}' | '\u{2028}' | '\u{2029}' | '\u{FEFF}'
    )
}

/// Whether a text begins with a digit or with a character that may go on a word.
pub fn goes_on(text: &[char]) -> bool
    ensures { result ≡ goes_on text.now }
{
    match text {
        [] => false,
        [first, ..] => first.is_ascii_digit() || continues_word(*first),
    }
}

/// Whether a character begins and ends strings.
pub fn is_quote(c: char) -> bool
    ensures { result ≡ is_quote c }
{
    c == '\'' || c == '"'
}

/// Whether a character ends a line.
pub fn ends_line(c: char) -> bool
    ensures { result ≡ ends_line c }
{
    matches!(c, '\n' | '\r' | '\u{2028}' | '\u{2029}')
}
