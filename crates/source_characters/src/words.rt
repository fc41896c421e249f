ghost use Rattle.std.specs.Prelude.{◌≡◌};
ghost use Rattle.unicode_ident.specs.Ident.{is_xid_start, is_xid_continue};
ghost use Rattle.source_characters.specs.Words.{starts_word, continues_word};

/// Whether a word may begin with a character: `$`, `_`, and what Unicode lets an identifier start
/// with.
pub fn starts_word(c: char) -> bool
    ensures { result ≡ starts_word c }
{
    c == '$' || c == '_' || is_xid_start(c)
}

/// Whether a character may go on a word: `$`, `_`, and what Unicode lets an identifier go on with.
pub fn continues_word(c: char) -> bool
    ensures { result ≡ continues_word c }
{
    c == '$' || c == '_' || is_xid_continue(c)
}

// ASCII is most of a source, and needs no table.
#[tactic(auto, using(crate::proofs::Ascii::ascii_words))]
fn is_xid_start(c: char) -> bool
    ensures { result ≡ is_xid_start c }
{
    if c.is_ascii() {
        c.is_ascii_alphabetic()
    } else {
        unicode_ident::is_xid_start(c)
    }
}

#[tactic(auto, using(crate::proofs::Ascii::ascii_words))]
fn is_xid_continue(c: char) -> bool
    ensures { result ≡ is_xid_continue c }
{
    if c.is_ascii() {
        c.is_ascii_alphanumeric() || c == '_'
    } else {
        unicode_ident::is_xid_continue(c)
    }
}
