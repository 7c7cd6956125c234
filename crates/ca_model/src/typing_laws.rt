//! Laws of typing.

ghost use Rattle.std.specs.Prelude.{◌≡◌, ◌⊎◌, true};
ghost use Rattle.ca_tree.specs.declared.tree.Program.{Program};
ghost use Rattle.ca_tree.specs.ProgramTrees.{IsWrittenProgram};
ghost use Rattle.ca_model.specs.Codes.{Typed};
ghost use Rattle.ca_model.specs.WellFormed.{IsWellFormed};
ghost use Rattle.ca_model.specs.KnownGlobals.{KnowsItsGlobals};
ghost use Rattle.ca_model.specs.Bounds.{IsBounded};
ghost use Rattle.ca_model.specs.Printable.{is_printable};
ghost use Rattle.ca_model.specs.declared.types.TypeFault.{TypeFault};
ghost use Rattle.ca_model.specs.typing.Typing.{IsTyping, IsFault};

/// A program has a typing or a first fault of types, never both, and at most one of each.
pub fn a_program_has_a_typing_or_a_fault()
    ensures either { (p : Program) → ((t : Typed) × IsTyping p t) ⊎ ((x : TypeFault) × IsFault p x) }
    ensures never_both { (p : Program) (t : Typed) (x : TypeFault) → IsTyping p t → IsFault p x → ⊥ }
    ensures one_typing { (p : Program) (t u : Typed) → IsTyping p t → IsTyping p u → t ≡ u }
    ensures one_fault { (p : Program) (x y : TypeFault) → IsFault p x → IsFault p y → x ≡ y }
{}

/// The typed tree of a program of a text within the limits has its numbers, and acts that stand where they may, names its own
/// functions, mutexes and globals alone, and keeps within the limits.
pub fn typed_programs_are_well_formed()
    ensures well_formed { (p : Program) (t : Typed) → IsWrittenProgram p → IsTyping p t → IsWellFormed t }
    ensures globals { (p : Program) (t : Typed) → IsWrittenProgram p → IsTyping p t → KnowsItsGlobals t }
    ensures bounded { (p : Program) (t : Typed) → IsWrittenProgram p → IsTyping p t → IsBounded t }
{}

/// No text of a typed program is cut short or read otherwise for its forms: no field stands behind a number, no operand has the
/// name of a call of the library, and no target is an operation of two operands.
pub fn typed_programs_are_printable()
    ensures { (p : Program) (t : Typed) → IsTyping p t → is_printable p ≡ true }
{}
