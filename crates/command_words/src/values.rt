//! Single words.
ghost use Rattle.std.specs.Prelude.{◌≡◌, ◌≤◌, ◌<◌, length, IfSome};
ghost use Rattle.std.specs.Str.{all_ascii_digits};
ghost use Rattle.std.specs.Str.Parse.{digits_value};
ghost use Rattle.command_words.specs.Words.{is_root, IsDigits};
ghost use Rattle.command_words.specs.Reading.{setting_named, number_of, is_numeral, equals_in};

use crate::command::Setting;

/// Whether a word names a folder.
pub(crate) fn is_root(word: &[u8]) -> bool
    ensures { result ≡ is_root word.now }
{
    match word {
        [] => false,
        [first, ..] => *first != b'-',
    }
}

/// The setting that a word names.
pub(crate) fn setting_named(word: &[u8]) -> Option<Setting>
    ensures { result ≡ setting_named word.now }
{
    if word == b"--workers".as_slice() {
        Some(Setting::Workers)
    } else if word == b"--lanes".as_slice() {
        Some(Setting::Lanes)
    } else if word == b"--modules".as_slice() {
        Some(Setting::Modules)
    } else if word == b"--gen".as_slice() {
        Some(Setting::Generated)
    } else if word == b"--seed".as_slice() {
        Some(Setting::Seed)
    } else {
        None
    }
}

fn all_digits(word: &[u8]) -> bool
    ensures { result ≡ all_ascii_digits word.now }
{
    let mut rest = word;
    while let [first, more @ ..] = rest {
        if !first.is_ascii_digit() {
            return false;
        }
        rest = more;
    }
    true
}

fn is_numeral(word: &[u8]) -> bool
    ensures { result ≡ is_numeral word.now }
{
    1 <= word.len() && word.len() <= 20 && all_digits(word)
}

// The number that at most twenty digits write.
#[tactic(auto, using(crate::proofs::Numerals::fits, crate::proofs::Numerals::is_digit, crate::proofs::Numerals::with_digit))]
fn value_of(digits: &[u8]) -> u128
    requires { IsDigits digits.now }
    ensures { result ≡ digits_value 10 digits.now }
{
    let mut value = 0;
    for i in 0..digits.len() {
        value = value * 10 + (digits[i] - b'0') as u128;
    }
    value
}

/// The place of the first `=` of a word.
pub(crate) fn equals_in(word: &[u8]) -> Option<usize>
    ensures place { result ≡ equals_in word.now }
    ensures within { IfSome result (λ place. place < length word.now) }
{
    word.iter().position(|b| *b == b'=')
}

/// The number that a word is: 1 to 20 decimal digits.
#[tactic(auto, using(crate::proofs::Numerals::are_digits))]
pub(crate) fn number_of(word: &[u8]) -> Option<u128>
    ensures { result ≡ number_of word.now }
{
    if is_numeral(word) {
        Some(value_of(word))
    } else {
        None
    }
}
