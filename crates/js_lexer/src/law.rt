ghost use Rattle.std.specs.Prelude.{ℕ, List, Result};
ghost use Rattle.js_token.specs.declared.token.Token.{Token};
ghost use Rattle.js_lexer.specs.declared.fault.LexFault.{LexFault};
ghost use Rattle.js_lexer.specs.Answers.{Answers, Agree};

/// The law that a source has one answer: whatever of the four answers fits a source, `lex` gives
/// it, unless memory is refused.
#[tactic(auto, using(crate::proofs::Unique::one_answer))]
pub fn one_answer()
    ensures { (source : List ℕ) (a b : Result (List Token) LexFault) → Answers source a → Answers source b → Agree a b }
{}
