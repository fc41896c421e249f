ghost use Rattle.std.specs.Prelude.{◌≡◌, ◌≤◌, ◌+◌, length, drop};
ghost use Rattle.std.specs.List.{prefix_len};
ghost use Rattle.std.specs.Char.{is_digit};
ghost use Rattle.lex_pieces.specs.Numbers.{base_of};
ghost use Rattle.lex_pieces.specs.Reading.{digits_len, whole_len, fraction_len, sign_len, signed_len, exponent_len, mantissa_len, decimal_len, digits_in, based_len, plain_len, number_len};

use crate::characters::goes_on;

/// The length of the number at the front of a text, 0 where there is none.
#[tactic(auto, unfolding(crate::specs::Reading::number_len))]
pub fn number_len(text: &[char]) -> usize
    ensures value { result ≡ number_len text.now }
    ensures within { result ≤ length text.now }
{
    let based = based_len(text);
    if based == 0 {
        plain_len(text)
    } else if goes_on(&text[based..]) {
        0
    } else {
        based
    }
}

// Where what follows rules the longest decimal out, its whole part may be a number.
#[tactic(auto, unfolding(crate::specs::Reading::plain_len))]
fn plain_len(text: &[char]) -> usize
    ensures value { result ≡ plain_len text.now }
    ensures within { result ≤ length text.now }
{
    let decimal = decimal_len(text);
    let whole = whole_len(text);
    if !goes_on(&text[decimal..]) {
        decimal
    } else if goes_on(&text[whole..]) {
        0
    } else {
        whole
    }
}

// `0`, a letter and the digits of its base.
#[tactic(auto, unfolding(crate::specs::Reading::based_len))]
fn based_len(text: &[char]) -> usize
    ensures value { result ≡ based_len text.now }
    ensures within { result ≤ length text.now }
{
    match text {
        [first, letter, digits @ ..] => {
            if *first != '0' {
                return 0;
            }
            let len = digits_in(*letter, digits);
            if len == 0 { 0 } else { len + 2 }
        }
        _ => 0,
    }
}

fn digits_in(letter: char, text: &[char]) -> usize
    ensures value { result ≡ digits_in (base_of letter) text.now }
    ensures within { result ≤ length text.now }
{
    match letter {
        'x' | 'X' => digits_of_base(16, text),
        'o' | 'O' => digits_of_base(8, text),
        'b' | 'B' => digits_of_base(2, text),
        _ => 0,
    }
}

fn digits_of_base(base: u32, text: &[char]) -> usize
    requires low { 2 ≤ base }
    requires high { base ≤ 36 }
    ensures value { result ≡ prefix_len (λ d. is_digit d base) text.now }
    ensures within { result ≤ length text.now }
{
    text.iter().take_while(|digit| digit.is_digit(base)).count()
}

// A mantissa, and an exponent where one stands there.
#[tactic(auto, unfolding(crate::specs::Reading::decimal_len))]
fn decimal_len(text: &[char]) -> usize
    ensures value { result ≡ decimal_len text.now }
    ensures within { result ≤ length text.now }
{
    let mantissa = mantissa_len(text);
    if mantissa == 0 {
        0
    } else {
        mantissa + exponent_len(&text[mantissa..])
    }
}

#[tactic(auto, unfolding(crate::specs::Reading::mantissa_len))]
fn mantissa_len(text: &[char]) -> usize
    ensures value { result ≡ mantissa_len text.now }
    ensures within { result ≤ length text.now }
{
    let whole = whole_len(text);
    let fraction = fraction_len(&text[whole..]);
    if whole == 0 && fraction < 2 {
        0
    } else {
        whole + fraction
    }
}

#[tactic(auto, unfolding(crate::specs::Reading::whole_len))]
fn whole_len(text: &[char]) -> usize
    ensures value { result ≡ whole_len text.now }
    ensures within { result ≤ length text.now }
{
    match text {
        [] => 0,
        [first, ..] => if *first == '0' { 1 } else { digits_len(text) },
    }
}

// A dot, and the digits behind it.
fn fraction_len(text: &[char]) -> usize
    ensures value { result ≡ fraction_len text.now }
    ensures within { result ≤ length text.now }
{
    match text {
        [] => 0,
        [first, digits @ ..] => if *first == '.' {
            digits_len(digits) + 1
        } else {
            0
        },
    }
}

fn exponent_len(text: &[char]) -> usize
    ensures value { result ≡ exponent_len text.now }
    ensures within { result ≤ length text.now }
{
    match text {
        [] => 0,
        [mark, signed @ ..] => {
            let len = signed_len(signed);
            if (*mark == 'e' || *mark == 'E') && len != 0 {
                len + 1
            } else {
                0
            }
        }
    }
}

// A sign or none, and digits.
fn signed_len(text: &[char]) -> usize
    ensures value { result ≡ signed_len text.now }
    ensures within { result ≤ length text.now }
{
    let sign = sign_len(text);
    let digits = digits_len(&text[sign..]);
    if digits == 0 { 0 } else { sign + digits }
}

fn sign_len(text: &[char]) -> usize
    ensures value { result ≡ sign_len text.now }
    ensures within { result ≤ length text.now }
{
    match text {
        [] => 0,
        [first, ..] => if *first == '+' || *first == '-' { 1 } else { 0 },
    }
}

#[tactic(auto, unfolding(crate::specs::Reading::digits_len))]
fn digits_len(text: &[char]) -> usize
    ensures value { result ≡ digits_len text.now }
    ensures within { result ≤ length text.now }
{
    text.iter()
        .take_while(|digit| digit.is_ascii_digit())
        .count()
}
