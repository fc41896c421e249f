//! What holds of the definitions, as the contract of a call that does nothing.
ghost use Rattle.std.specs.Prelude.{◌≡◌, ◌⊎◌, ℕ};
ghost use Rattle.flow_values.specs.Path.{Bytes};
ghost use Rattle.script_line.specs.Says.{Says, SaysTooMany, SaysNothing};
ghost use Rattle.script_line.specs.declared.line.Line.{Line};

/// The bytes of a line say one command at most, or have one number of too many questions, and not
/// both; and they say something, have too many questions, or say nothing.
pub fn one_command()
    ensures one { (bytes : Bytes) (a b : Line) → Says bytes a → Says bytes b → a ≡ b }
    ensures one_count { (bytes : Bytes) (m n : ℕ) → SaysTooMany bytes m → SaysTooMany bytes n → m ≡ n }
    ensures apart { (bytes : Bytes) (l : Line) (count : ℕ) → Says bytes l → SaysTooMany bytes count → ⊥ }
    ensures some { (bytes : Bytes) → ((l : Line) × Says bytes l) ⊎ (((count : ℕ) × SaysTooMany bytes count) ⊎ SaysNothing bytes) }
{}
