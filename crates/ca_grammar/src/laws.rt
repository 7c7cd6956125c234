//! Laws of the grammar.

ghost use Rattle.std.specs.Prelude.{◌≡◌, ℕ, List};
ghost use Rattle.ca_tree.specs.declared.token.Token.{Token};
ghost use Rattle.ca_tree.specs.Lexed.{HasTokens};
ghost use Rattle.ca_grammar.specs.declared.faults.ReadFault.{ReadFault};
ghost use Rattle.ca_grammar.specs.Texts.{AnExpression, AProgram, EndsOnce};
ghost use Rattle.ca_grammar.specs.Faults.{IsFault};
ghost use Rattle.ca_grammar.specs.Laws.{OneExpression, OneProgram, EachIsSpelled, all_kept};
ghost use Rattle.ca_grammar.specs.Laws.{EachProgramIsSpelled};

/// A list of tokens, the end last, spells at most one expression, whatever is allowed to be counted in it.
pub fn tokens_spell_one_expression()
    ensures { OneExpression }
{}

/// A list of tokens, the end last, is at most one program, whatever is allowed to be counted in it: so reading is a function.
pub fn tokens_spell_one_program()
    ensures { OneProgram }
{}

/// An expression that is at most 64 deep by its tree, whose names are names of at most 63 bytes and whose numbers have no
/// sign, is spelled by some tokens within the limits.
pub fn each_expression_is_spelled()
    ensures { EachIsSpelled }
{}

/// A program that is within the limits by its tree, with its items numbered in the order of its text, is what some tokens
/// spell within the limits.
pub fn each_program_is_spelled()
    ensures { EachProgramIsSpelled }
{}

/// Tokens that are an expression within the limits have no fault, and others at most one.
pub fn an_expression_has_one_fault()
    ensures none { (ts : List Token) (f : ReadFault) → AnExpression all_kept ts → IsFault AnExpression ts f → ⊥ }
    ensures one { (ts : List Token) (f g : ReadFault) → IsFault AnExpression ts f → IsFault AnExpression ts g → f ≡ g }
{}

/// Tokens that are a program within the limits have no fault, and others at most one.
pub fn a_program_has_one_fault()
    ensures none { (ts : List Token) (f : ReadFault) → AProgram all_kept ts → IsFault AProgram ts f → ⊥ }
    ensures one { (ts : List Token) (f g : ReadFault) → IsFault AProgram ts f → IsFault AProgram ts g → f ≡ g }
{}

/// The tokens of a text have their end last, and only there.
pub fn the_end_stands_last()
    ensures { (text : List ℕ) (ts : List Token) → HasTokens text ts → EndsOnce ts }
{}
