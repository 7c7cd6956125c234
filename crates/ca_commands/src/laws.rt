//! Laws of the words of commands.

ghost use Rattle.std.specs.Prelude.{◌≡◌, ℕ, List};
ghost use Rattle.ca_commands.specs.Words.{Command, Means};

/// The words of a command have one meaning.
pub fn words_have_one_meaning()
    ensures { (words : List (List ℕ)) (c d : Command) → Means words c → Means words d → c ≡ d }
{}
