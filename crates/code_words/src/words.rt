// What a word is where an expression or a statement may begin.
ghost use Rattle.std.specs.Prelude.{◌≡◌};
ghost use Rattle.code_law.specs.Expressions.{value_word as value_class, reserved_word as reserved_value_class};
ghost use Rattle.code_law.specs.Statements.{statement_word as statement_class, reserved_statement as reserved_statement_class};
ghost use Rattle.js_grammar.specs.Items.{base_names};
ghost use Rattle.code_law.specs.Modules.{may_alias as may_be_alias, is_none_of};
ghost use Rattle.code_words.specs.Words.{value_word_view, statement_word_view};

use code_tree::Binder;
use js_token::is_reserved;

/// What a word is where an expression may begin.
#[derive(Clone, Copy, Debug, PartialEq, Eq)]
pub enum ValueWord {
    /// A name.
    Variable,
    Null,
    /// `true` or `false`.
    Truth(bool),
    TypeOf,
    Function,
    /// Another reserved word.
    Other,
}

/// What a word is where a statement may begin.
#[derive(Clone, Copy, Debug, PartialEq, Eq)]
pub enum StatementWord {
    /// `const` or `let`.
    Binds(Binder),
    Function,
    If,
    Else,
    While,
    Return,
    Throw,
    Break,
    Continue,
    Import,
    Export,
    /// A name, or another reserved word.
    Plain,
}

/// The class of a word where an expression may begin.
pub fn value_word(word: &[u8]) -> ValueWord
    ensures { value_word_view result ≡ value_class word.now }
{
    if is_reserved(word) {
        reserved_value(word)
    } else {
        ValueWord::Variable
    }
}

/// The class of a reserved word where an expression may begin.
fn reserved_value(word: &[u8]) -> ValueWord
    ensures { value_word_view result ≡ reserved_value_class word.now }
{
    if word == b"null".as_slice() {
        ValueWord::Null
    } else if word == b"true".as_slice() {
        ValueWord::Truth(true)
    } else if word == b"false".as_slice() {
        ValueWord::Truth(false)
    } else if word == b"typeof".as_slice() {
        ValueWord::TypeOf
    } else if word == b"function".as_slice() {
        ValueWord::Function
    } else {
        ValueWord::Other
    }
}

/// The class of a word where a statement may begin.
pub fn statement_word(word: &[u8]) -> StatementWord
    ensures { statement_word_view result ≡ statement_class word.now }
{
    if is_reserved(word) {
        reserved_statement(word)
    } else {
        StatementWord::Plain
    }
}

/// The class of a reserved word where a statement may begin.
fn reserved_statement(word: &[u8]) -> StatementWord
    ensures { statement_word_view result ≡ reserved_statement_class word.now }
{
    if word == b"const".as_slice() {
        StatementWord::Binds(Binder::Const)
    } else if word == b"let".as_slice() {
        StatementWord::Binds(Binder::Let)
    } else if word == b"function".as_slice() {
        StatementWord::Function
    } else if word == b"if".as_slice() {
        StatementWord::If
    } else if word == b"else".as_slice() {
        StatementWord::Else
    } else if word == b"while".as_slice() {
        StatementWord::While
    } else if word == b"return".as_slice() {
        StatementWord::Return
    } else if word == b"throw".as_slice() {
        StatementWord::Throw
    } else if word == b"break".as_slice() {
        StatementWord::Break
    } else if word == b"continue".as_slice() {
        StatementWord::Continue
    } else if word == b"import".as_slice() {
        StatementWord::Import
    } else if word == b"export".as_slice() {
        StatementWord::Export
    } else {
        StatementWord::Plain
    }
}

/// Whether a word may name an alias: a name, and none of the types that have names of their own.
pub fn may_alias(word: &[u8]) -> bool
    ensures { result ≡ may_be_alias word.now }
{
    !is_reserved(word) && is_no_base_name(word)
}

/// Whether a word is none of the names of types that the language gives.
fn is_no_base_name(word: &[u8]) -> bool
    ensures { result ≡ is_none_of base_names word.now }
{
    if word == b"any".as_slice() {
        false
    } else if word == b"mixed".as_slice() {
        false
    } else if word == b"empty".as_slice() {
        false
    } else if word == b"number".as_slice() {
        false
    } else if word == b"string".as_slice() {
        false
    } else if word == b"boolean".as_slice() {
        false
    } else if word == b"Array".as_slice() {
        false
    } else {
        word != b"$ReadOnlyArray".as_slice()
    }
}
