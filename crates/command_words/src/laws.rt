//! What holds of the definitions, as the contract of a call that does nothing.
ghost use Rattle.std.specs.Prelude.{◌≡◌, ◌⊎◌, List};
ghost use Rattle.flow_values.specs.Path.{Bytes};
ghost use Rattle.command_words.specs.Words.{Says, AreOfCommand};
ghost use Rattle.command_words.specs.declared.command.Command.{Command};

/// Words tell one thing at most, and they are of the command or they are not.
pub fn one_command()
    ensures one { (words : List Bytes) (a b : Command) → Says words a → Says words b → a ≡ b }
    ensures some { (words : List Bytes) → AreOfCommand words ⊎ (AreOfCommand words → ⊥) }
{}
