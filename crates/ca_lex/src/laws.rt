//! Laws of tokens.

ghost use Rattle.std.specs.Prelude.{◌≡◌, ◌↔◌, ◌⊎◌, ℕ, Bool, false, List, ◌∷◌};
ghost use Rattle.ca_tree.specs.declared.text.Pos.{Pos};
ghost use Rattle.ca_tree.specs.declared.token.Token.{Token};
ghost use Rattle.ca_tree.specs.declared.token.Word.{Word};
ghost use Rattle.ca_tree.specs.declared.token.LexFault.{LexFault};
ghost use Rattle.ca_tree.specs.Lexed.{HasTokens, HasFault, IsSkipped, IsToken, Lexed, fresh_after};
ghost use Rattle.ca_lex.specs.Words.{words, HasWords};

/// A text has at most one list of tokens, at most one fault, and never both.
pub fn a_text_is_lexed_once()
    ensures tokens { (text : List ℕ) (a b : List Token) → HasTokens text a → HasTokens text b → a ≡ b }
    ensures faults { (text : List ℕ) (f g : LexFault) → HasFault text f → HasFault text g → f ≡ g }
    ensures not_both { (text : List ℕ) (a : List Token) (f : LexFault) → HasTokens text a → HasFault text f → ⊥ }
{}

/// Every text has tokens or a fault.
pub fn every_text_has_tokens_or_a_fault()
    ensures { (text : List ℕ) → ((ts : List Token) × HasTokens text ts) ⊎ ((f : LexFault) × HasFault text f) }
{}

/// Blanks, comments and dropped lines change places alone, but for whether a line feed is among them: the words of a text depend
/// neither on the place where it begins nor on what is skipped in front of it, and behind a token stand the words that follow its own.
pub fn blanks_change_places_alone()
    ensures one { (fresh : Bool) (text : List ℕ) (vs ws : List Word) → HasWords fresh text vs → HasWords fresh text ws → vs ≡ ws }
    ensures place { (fresh : Bool) (p : Pos) (text : List ℕ) (ts : List Token) → Lexed fresh p text ts → HasWords fresh text (words ts) }
    ensures skipped { (fresh : Bool) (text u rest : List ℕ) (ws : List Word) → IsSkipped fresh text u rest → (HasWords fresh text ws ↔ HasWords (fresh_after fresh u) rest ws) }
    ensures token { (fresh : Bool) (text u rest : List ℕ) (w : Word) (ws : List Word) → IsToken fresh text w u rest → (HasWords fresh text (w ∷ ws) ↔ HasWords false rest ws) }
{}
