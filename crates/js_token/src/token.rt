ghost use Rattle.std.specs.Prelude.{◌≡◌, IfOk, IsTrue, ◌↔◌};

use crate::Punct;
use flow_values::{NoMemory, Span, Text};

/// What a token is.
#[derive(Debug, PartialEq, Eq, Drop)]
pub enum TokenKind {
    /// A word, reserved ones too.
    Name(Text),
    /// A number, as it is spelled.
    Number(Text),
    /// A string: the value that its escapes decode to, in UTF-8.
    Str(Text),
    /// A mark.
    Punct(Punct),
}

impl TokenKind {
    /// An equal kind. No bytes of a text are copied.
    ///
    /// # Errors
    ///
    /// `NoMemory` where memory is refused.
    pub fn share(&self) -> Result<TokenKind, NoMemory>
        ensures { IfOk result (λ kind. kind ≡ self.now) }
    {
        match self {
            TokenKind::Name(text) => Ok(TokenKind::Name(text.share()?)),
            TokenKind::Number(text) => Ok(TokenKind::Number(text.share()?)),
            TokenKind::Str(text) => Ok(TokenKind::Str(text.share()?)),
            TokenKind::Punct(mark) => Ok(TokenKind::Punct(*mark)),
        }
    }

    /// Whether two kinds are equal.
    pub fn equals(&self, other: &TokenKind) -> bool
        ensures { IsTrue result ↔ (self.now ≡ other.now) }
    {
        self == other
    }
}

/// A token of a source: what it is, and the bytes of the source where it stands.
#[derive(Debug, PartialEq, Eq, Drop)]
pub struct Token {
    pub kind: TokenKind,
    pub span: Span,
}

impl Token {
    /// An equal token. No bytes of a text are copied.
    ///
    /// # Errors
    ///
    /// `NoMemory` where memory is refused.
    pub fn share(&self) -> Result<Token, NoMemory>
        ensures { IfOk result (λ token. token ≡ self.now) }
    {
        Ok(Token {
            kind: self.kind.share()?,
            span: self.span,
        })
    }

    /// Whether two tokens are equal.
    pub fn equals(&self, other: &Token) -> bool
        ensures { IsTrue result ↔ (self.now ≡ other.now) }
    {
        self == other
    }
}

#[cfg(test)]
mod tests {
    use super::*;

    #[test]
    fn a_shared_token_is_equal(rt: HostRuntime) -> Result<(), NoMemory> {
        let token = Token {
            kind: TokenKind::Str(Text::from_bytes(rt.alloc(), b"x")?),
            span: Span { start: 0, end: 3 },
        };
        assert!(rt; token.equals(&token.share()?));
        Ok(())
    }
}
