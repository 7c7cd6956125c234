//! The types of a whole program.

ghost use Rattle.std.specs.Prelude.{◌≡◌, ◌⊎◌, IfOk, IfErr, MatchResult};
ghost use Rattle.ca_tree.specs.ProgramTrees.{IsWrittenProgram};
ghost use Rattle.ca_model.specs.Codes.{Typed};
ghost use Rattle.ca_model.specs.declared.types.TypeFault.{TypeFault};
ghost use Rattle.ca_model.specs.typing.Sources.{source};
ghost use Rattle.ca_model.specs.typing.Typing.{IsTyping, IsFault};
ghost use Rattle.ca_types.specs.Refusals.{IfFault};

use crate::tops::all_known;
use ca_model::{Checked, Function, GlobalStart, TypeFault};
use ca_tree::tree::Program;
use std::alloc::Global;

/// Why a program has no typing here.
#[derive(Debug, Drop)]
pub enum TypeNo {
    /// The first fault of the program.
    Fault(TypeFault),
    /// An allocation was refused.
    NoMemory,
}

// The parts of a typed tree.
#[derive(Drop)]
struct TypedParts {
    functions: Vec<Function>,
    globals: Vec<GlobalStart>,
    mutexes: u32,
}

fn typing(alloc: Global, program: &Program) -> Result<TypedParts, TypeNo>
    requires { IsWrittenProgram program.now }
    ensures typing { IfOk result (λ t. IsTyping program.now (source program.now t.functions.items t.globals.items t.mutexes).typed) }
    ensures fault { IfErr result (λ no. IfFault no (IsFault program.now)) }
{
    let Ok(known) = all_known(alloc, program) else {
        return Err(TypeNo::NoMemory);
    };
    match known.faults.answer() {
        Some(fault) => Err(TypeNo::Fault(fault)),
        None => Ok(TypedParts {
            functions: known.typed,
            globals: known.starts.starts,
            mutexes: known.mutexes,
        }),
    }
}

/// A program with its typing. A program that has none is refused with its first fault: the first in the order of places
/// in the text and, at one place, of kinds; `NoMain` stands at 1:1 (C11 6.2, 6.3, 6.5, 6.7, 6.8, 6.9, 5.1.2.2.1).
pub fn check_types(alloc: Global, program: Program) -> Result<Checked, TypeNo>
    requires { IsWrittenProgram program }
    ensures program { IfOk result (λ c. c.program ≡ program) }
    ensures typing { IfOk result (λ c. IsTyping program c.typed) }
    ensures fault { IfErr result (λ no. IfFault no (IsFault program)) }
    ensures found { (t : Typed) → IsTyping program t → MatchResult result (λ c. c.typed ≡ t) (λ no. no ≡ TypeNo.NoMemory) }
    ensures refused { (f : TypeFault) → IsFault program f → MatchResult result (λ c. ⊥) (λ no. (no ≡ TypeNo.Fault f) ⊎ (no ≡ TypeNo.NoMemory)) }
{
    match typing(alloc, &program) {
        Ok(found) => Ok(Checked::new(program, found.functions, found.globals, found.mutexes)),
        Err(no) => Err(no),
    }
}
