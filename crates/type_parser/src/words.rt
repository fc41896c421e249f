// What a word or a number is where a type may begin.
ghost use Rattle.std.specs.Prelude.{◌≡◌};
ghost use Rattle.js_grammar.specs.Machine.{type_word as class_of, reserved_word as reserved_class};
ghost use Rattle.js_grammar.specs.Words.{is_type_number as may_stand};
ghost use Rattle.type_parser.specs.Words.{word_view};

use js_token::{is_reserved, is_whole};

/// What a word is where a type may begin.
#[derive(Clone, Copy, Debug, PartialEq, Eq)]
pub enum TypeWord {
    /// A type's name.
    Name,
    Null,
    Void,
    /// `true` or `false`.
    Truth(bool),
    /// The name of an array type, of a read-only one or not.
    Array(bool),
    /// Another reserved word.
    Other,
}

/// The class of a word.
pub fn type_word(word: &[u8]) -> TypeWord
    ensures { word_view result ≡ class_of word.now }
{
    if is_reserved(word) {
        reserved_word(word)
    } else if word == b"Array".as_slice() {
        TypeWord::Array(false)
    } else if word == b"$ReadOnlyArray".as_slice() {
        TypeWord::Array(true)
    } else {
        TypeWord::Name
    }
}

/// The class of a reserved word.
fn reserved_word(word: &[u8]) -> TypeWord
    ensures { word_view result ≡ reserved_class word.now }
{
    if word == b"null".as_slice() {
        TypeWord::Null
    } else if word == b"void".as_slice() {
        TypeWord::Void
    } else if word == b"true".as_slice() {
        TypeWord::Truth(true)
    } else if word == b"false".as_slice() {
        TypeWord::Truth(false)
    } else {
        TypeWord::Other
    }
}

/// Whether a number, by its spelling, may stand as a type: whole, of at most 15 digits.
pub fn is_type_number(spelling: &[u8]) -> bool
    ensures { result ≡ may_stand spelling.now }
{
    is_whole(spelling) && spelling.len() <= 15
}
