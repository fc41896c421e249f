//! What holds of the definitions, as the contract of a call that does nothing.
ghost use Rattle.std.specs.Prelude.{◌≡◌, ◌⊎◌};
ghost use Rattle.serde_json.specs.Data.{Data};
ghost use Rattle.asks.specs.declared.ask.Ask.{Ask};
ghost use Rattle.ask_line.specs.Asking.{Asks};

/// A value asks one thing at most, and it asks something or nothing.

pub fn one_ask()
    ensures one { (value : Data) (a b : Ask) → Asks value a → Asks value b → a ≡ b }
    ensures some { (value : Data) → ((a : Ask) × Asks value a) ⊎ ((a : Ask) → Asks value a → ⊥) }
{}
