ghost use Rattle.std.specs.Prelude.{◌≡◌};
ghost use Rattle.ask_line.specs.Asking.{kind_named};

/// What is asked, by its word.
#[derive(Clone, Copy, Debug, PartialEq, Eq)]
pub(crate) enum Kind {
    Status,
    Errors,
    CheckContents,
    TypeAtPos,
    FindModule,
    Ls,
    Importers,
    Signature,
}

/// The kind that a word names.
pub(crate) fn kind_named(word: &str) -> Option<Kind>
    ensures { result ≡ kind_named word.now }
{
    if word == "status" {
        Some(Kind::Status)
    } else if word == "errors" {
        Some(Kind::Errors)
    } else if word == "check-contents" {
        Some(Kind::CheckContents)
    } else if word == "type-at-pos" {
        Some(Kind::TypeAtPos)
    } else if word == "find-module" {
        Some(Kind::FindModule)
    } else if word == "ls" {
        Some(Kind::Ls)
    } else if word == "importers" {
        Some(Kind::Importers)
    } else if word == "signature" {
        Some(Kind::Signature)
    } else {
        None
    }
}
