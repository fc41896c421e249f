ghost use Rattle.std.specs.Prelude.{◌≡◌, IsTrue, ◌↔◌, Contains};
ghost use Rattle.std.specs.List.{list_any, list_all};
ghost use Rattle.std.specs.Char.{is_ascii_digit};
ghost use Rattle.std.specs.Str.{bytes_eq};
ghost use Rattle.js_token.specs.Words.{reserved_words, is_reserved, reserved_of, is_whole};

/// Whether a word, given by its bytes, is reserved.
#[tactic(auto, using(crate::proofs::Reserved::listed))]
pub fn is_reserved(word: &[u8]) -> bool
    ensures listed { IsTrue result ↔ Contains reserved_words word.now }
    ensures value { result ≡ is_reserved word.now }
{
    is_listed(word)
}

// The same, by the word's length first.
#[tactic(auto, using(crate::proofs::Reserved::of_length, crate::proofs::Reserved::none_of_length))]
fn is_listed(word: &[u8]) -> bool
    ensures { result ≡ is_reserved word.now }
{
    match word.len() {
        2 => is_reserved_of_two(word),
        3 => is_reserved_of_three(word),
        4 => is_reserved_of_four(word),
        5 => is_reserved_of_five(word),
        6 => is_reserved_of_six(word),
        7 => is_reserved_of_seven(word),
        8 => is_reserved_of_eight(word),
        9 => is_reserved_of_nine(word),
        10 => is_reserved_of_ten(word),
        _ => false,
    }
}

fn is_reserved_of_two(word: &[u8]) -> bool
    ensures { result ≡ list_any (bytes_eq word.now) (reserved_of 2) }
{
    (word == b"do".as_slice()) | (word == b"if".as_slice()) | (word == b"in".as_slice())
}

fn is_reserved_of_three(word: &[u8]) -> bool
    ensures { result ≡ list_any (bytes_eq word.now) (reserved_of 3) }
{
    (word == b"for".as_slice())
        | (word == b"let".as_slice())
        | (word == b"new".as_slice())
        | (word == b"try".as_slice())
        | (word == b"var".as_slice())
}

fn is_reserved_of_four(word: &[u8]) -> bool
    ensures { result ≡ list_any (bytes_eq word.now) (reserved_of 4) }
{
    (word == b"case".as_slice())
        | (word == b"else".as_slice())
        | (word == b"enum".as_slice())
        | (word == b"null".as_slice())
        | (word == b"this".as_slice())
        | (word == b"true".as_slice())
        | (word == b"void".as_slice())
        | (word == b"with".as_slice())
}

fn is_reserved_of_five(word: &[u8]) -> bool
    ensures { result ≡ list_any (bytes_eq word.now) (reserved_of 5) }
{
    (word == b"await".as_slice())
        | (word == b"break".as_slice())
        | (word == b"catch".as_slice())
        | (word == b"class".as_slice())
        | (word == b"const".as_slice())
        | (word == b"false".as_slice())
        | (word == b"super".as_slice())
        | (word == b"throw".as_slice())
        | (word == b"while".as_slice())
        | (word == b"yield".as_slice())
}

fn is_reserved_of_six(word: &[u8]) -> bool
    ensures { result ≡ list_any (bytes_eq word.now) (reserved_of 6) }
{
    (word == b"delete".as_slice())
        | (word == b"export".as_slice())
        | (word == b"import".as_slice())
        | (word == b"public".as_slice())
        | (word == b"return".as_slice())
        | (word == b"static".as_slice())
        | (word == b"switch".as_slice())
        | (word == b"typeof".as_slice())
}

fn is_reserved_of_seven(word: &[u8]) -> bool
    ensures { result ≡ list_any (bytes_eq word.now) (reserved_of 7) }
{
    (word == b"default".as_slice())
        | (word == b"extends".as_slice())
        | (word == b"finally".as_slice())
        | (word == b"package".as_slice())
        | (word == b"private".as_slice())
}

fn is_reserved_of_eight(word: &[u8]) -> bool
    ensures { result ≡ list_any (bytes_eq word.now) (reserved_of 8) }
{
    (word == b"continue".as_slice())
        | (word == b"debugger".as_slice())
        | (word == b"function".as_slice())
}

fn is_reserved_of_nine(word: &[u8]) -> bool
    ensures { result ≡ list_any (bytes_eq word.now) (reserved_of 9) }
{
    (word == b"interface".as_slice()) | (word == b"protected".as_slice())
}

fn is_reserved_of_ten(word: &[u8]) -> bool
    ensures { result ≡ list_any (bytes_eq word.now) (reserved_of 10) }
{
    (word == b"implements".as_slice()) | (word == b"instanceof".as_slice())
}

/// Whether a number, given by its spelling, is a whole number: `0`, or decimal digits of which the
/// first is not `0`.
#[tactic(auto, using(crate::proofs::Whole::without_zero))]
pub fn is_whole(spelling: &[u8]) -> bool
    ensures { result ≡ is_whole spelling.now }
{
    match spelling {
        [] => false,
        [first, more @ ..] => {
            if *first == b'0' {
                more.is_empty()
            } else {
                are_digits(spelling)
            }
        }
    }
}

fn are_digits(spelling: &[u8]) -> bool
    ensures { result ≡ list_all is_ascii_digit spelling.now }
{
    spelling.iter().all(|digit| digit.is_ascii_digit())
}

#[cfg(test)]
mod tests {
    use super::*;

    #[test]
    fn words_and_numbers_are_told_apart(rt: HostRuntime) {
        let words = [
            ("await", true),
            ("yield", true),
            ("instanceof", true),
            ("type", false),
            ("from", false),
            ("Await", false),
            ("", false),
        ];
        for (word, reserved) in words {
            assert_eq!(rt; is_reserved(word.as_bytes()), reserved, "{word}");
        }
        let numbers = [
            ("0", true),
            ("10", true),
            ("010", false),
            ("1.", false),
            ("0x1", false),
            ("", false),
        ];
        for (spelling, whole) in numbers {
            assert_eq!(rt; is_whole(spelling.as_bytes()), whole, "{spelling}");
        }
    }
}
