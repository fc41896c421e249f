ghost use Rattle.std.specs.Prelude.{◌≡◌, ◌∷◌, [], OnOk};
ghost use Rattle.js_token.specs.declared.token.TokenKind.TheVariants.{Name, Number, Str, Punct as PunctKind};
ghost use Rattle.js_grammar.specs.Words.{truth_word};
ghost use Rattle.js_grammar.specs.TypeSpelling.{opt};

use flow_values::{List, NoMemory, Text};
use js_token::{Punct, TokenKind};
use std::alloc::Global;
use std::marker::Model;

/// The last tokens of a spelling, which grow at their front. Contracts see them in order.
#[derive(Drop)]
pub struct Tail {
    alloc: Global,
    // The last token comes first.
    kinds: Vec<TokenKind>,
}

impl Model for Tail {
    ghost use Rattle.std.specs.Prelude.{List, reverse};
    ghost use Rattle.js_token.specs.declared.token.TokenKind.{TokenKind};

    ghost Value = { List TokenKind };

    ghost view = { λ tail. reverse tail.kinds.items };
}

impl Tail {
    /// No tokens.
    pub fn new(alloc: Global) -> Tail
        ensures { result ≡ [] }
    {
        Tail {
            alloc,
            kinds: Vec::new(alloc),
        }
    }

    /// The tokens, in order.
    pub fn into_list(self) -> List<TokenKind>
        ensures { result ≡ self }
    {
        let Tail {
            alloc: _,
            mut kinds,
        } = self;
        kinds.reverse();
        List::from_vec(kinds)
    }

    // Puts a token before the others.
    fn put(&mut self, kind: TokenKind) -> Result<(), NoMemory>
        ensures { OnOk result (self.new ≡ kind ∷ self.old) }
    {
        self.kinds.push(kind)?;
        Ok(())
    }

    /// Puts a mark before the others.
    ///
    /// # Errors
    ///
    /// `NoMemory` where memory is refused.
    pub fn mark(&mut self, mark: Punct) -> Result<(), NoMemory>
        ensures { OnOk result (self.new ≡ PunctKind mark ∷ self.old) }
    {
        self.put(TokenKind::Punct(mark))
    }

    /// Puts a mark before the others, or not.
    ///
    /// # Errors
    ///
    /// `NoMemory` where memory is refused.
    pub fn mark_if(&mut self, wanted: bool, mark: Punct) -> Result<(), NoMemory>
        ensures { OnOk result (self.new ≡ opt wanted (PunctKind mark) self.old) }
    {
        if wanted {
            self.mark(mark)?;
        }
        Ok(())
    }

    /// Puts a word of the grammar before the others.
    ///
    /// # Errors
    ///
    /// `NoMemory` where memory is refused.
    pub fn word(&mut self, word: &[u8]) -> Result<(), NoMemory>
        ensures { OnOk result (self.new ≡ Name word.now ∷ self.old) }
    {
        let text = Text::from_bytes(self.alloc, word)?;
        self.put(TokenKind::Name(text))
    }

    /// Puts a word of the grammar before the others, or not.
    ///
    /// # Errors
    ///
    /// `NoMemory` where memory is refused.
    pub fn word_if(&mut self, wanted: bool, word: &[u8]) -> Result<(), NoMemory>
        ensures { OnOk result (self.new ≡ opt wanted (Name word.now) self.old) }
    {
        if wanted {
            self.word(word)?;
        }
        Ok(())
    }

    /// Puts `true` or `false` before the others.
    ///
    /// # Errors
    ///
    /// `NoMemory` where memory is refused.
    pub fn truth(&mut self, value: bool) -> Result<(), NoMemory>
        ensures { OnOk result (self.new ≡ Name (truth_word value) ∷ self.old) }
    {
        if value {
            self.word(b"true")
        } else {
            self.word(b"false")
        }
    }

    /// Puts a name before the others.
    ///
    /// # Errors
    ///
    /// `NoMemory` where memory is refused.
    pub fn name(&mut self, name: &Text) -> Result<(), NoMemory>
        ensures { OnOk result (self.new ≡ Name name.now ∷ self.old) }
    {
        self.put(TokenKind::Name(name.share()?))
    }

    /// Puts a number before the others.
    ///
    /// # Errors
    ///
    /// `NoMemory` where memory is refused.
    pub fn number(&mut self, spelling: &Text) -> Result<(), NoMemory>
        ensures { OnOk result (self.new ≡ Number spelling.now ∷ self.old) }
    {
        self.put(TokenKind::Number(spelling.share()?))
    }

    /// Puts a string before the others.
    ///
    /// # Errors
    ///
    /// `NoMemory` where memory is refused.
    pub fn string(&mut self, value: &Text) -> Result<(), NoMemory>
        ensures { OnOk result (self.new ≡ Str value.now ∷ self.old) }
    {
        self.put(TokenKind::Str(value.share()?))
    }
}
