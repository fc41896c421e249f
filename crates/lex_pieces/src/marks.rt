ghost use Rattle.std.specs.Prelude.{◌≡◌};
ghost use Rattle.lex_pieces.specs.Marks.{mark_of_one, mark_of_two, mark_of_three, mark_at, longest_of_two, longest_of_three, with_len};

use js_token::Punct;

/// The longest mark at the front of a text, and its length.
pub fn mark_at(text: &[char]) -> Option<(Punct, usize)>
    ensures { result ≡ mark_at text.now }
{
    match text {
        [] => None,
        [a] => mark_of(*a),
        [a, b] => longest_of_two(*a, *b),
        [a, b, c, ..] => longest_of_three(*a, *b, *c),
    }
}

/// The mark that is this one character.
pub fn mark_of(a: char) -> Option<(Punct, usize)>
    ensures { result ≡ with_len 1 (mark_of_one a) }
{
    with_len(1, mark_of_one(a))
}

/// The longest mark that begins with these characters.
#[inline]
#[tactic(auto, unfolding(crate::specs::Marks::longest_of_three))]
pub fn longest_of_three(a: char, b: char, c: char) -> Option<(Punct, usize)>
    ensures { result ≡ longest_of_three a b c }
{
    with_len(3, mark_of_three(a, b, c)).or(longest_of_two(a, b))
}

/// The longest mark of one or two characters that begins with these.
#[inline]
#[tactic(auto, unfolding(crate::specs::Marks::longest_of_two))]
pub fn longest_of_two(a: char, b: char) -> Option<(Punct, usize)>
    ensures { result ≡ longest_of_two a b }
{
    with_len(2, mark_of_two(a, b)).or(with_len(1, mark_of_one(a)))
}

// A mark with its length.
#[inline]
fn with_len(len: usize, mark: Option<Punct>) -> Option<(Punct, usize)>
    ensures { result ≡ with_len len mark }
{
    Some((mark?, len))
}

#[inline]
fn mark_of_one(a: char) -> Option<Punct>
    ensures { result ≡ mark_of_one a }
{
    match a {
        '{' => Some(Punct::OpenBrace),
        '}' => Some(Punct::CloseBrace),
        '(' => Some(Punct::OpenParen),
        ')' => Some(Punct::CloseParen),
        '[' => Some(Punct::OpenBracket),
        ']' => Some(Punct::CloseBracket),
        '.' => Some(Punct::Dot),
        ',' => Some(Punct::Comma),
        ';' => Some(Punct::Semicolon),
        ':' => Some(Punct::Colon),
        '?' => Some(Punct::Question),
        '=' => Some(Punct::Assign),
        '<' => Some(Punct::LessThan),
        '>' => Some(Punct::GreaterThan),
        '+' => Some(Punct::Plus),
        '-' => Some(Punct::Minus),
        '*' => Some(Punct::Star),
        '/' => Some(Punct::Slash),
        '%' => Some(Punct::Percent),
        '!' => Some(Punct::Bang),
        '|' => Some(Punct::Bar),
        _ => None,
    }
}

#[inline]
fn mark_of_two(a: char, b: char) -> Option<Punct>
    ensures { result ≡ mark_of_two a b }
{
    match (a, b) {
        ('?', '?') => Some(Punct::QuestionQuestion),
        ('=', '>') => Some(Punct::Arrow),
        ('=', '=') => Some(Punct::LooseEqual),
        ('!', '=') => Some(Punct::LooseNotEqual),
        ('<', '=') => Some(Punct::LessOrEqual),
        ('>', '=') => Some(Punct::GreaterOrEqual),
        ('+', '+') => Some(Punct::PlusPlus),
        ('-', '-') => Some(Punct::MinusMinus),
        ('&', '&') => Some(Punct::AndAnd),
        ('|', '|') => Some(Punct::OrOr),
        _ => None,
    }
}

#[inline]
fn mark_of_three(a: char, b: char, c: char) -> Option<Punct>
    ensures { result ≡ mark_of_three a b c }
{
    match (a, b, c) {
        ('.', '.', '.') => Some(Punct::Ellipsis),
        ('=', '=', '=') => Some(Punct::StrictEqual),
        ('!', '=', '=') => Some(Punct::StrictNotEqual),
        _ => None,
    }
}
