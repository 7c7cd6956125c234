//! The declarations of a program in order.

ghost use Rattle.std.specs.Prelude.{◌≡◌, IfOk, None};
ghost use Rattle.ca_tree.specs.Counts.{Totals};
ghost use Rattle.ca_tree.specs.ProgramTrees.{IsWrittenProgram};
ghost use Rattle.ca_model.specs.typing.Known as knowns;
ghost use Rattle.ca_model.specs.typing.Globals as globals;
ghost use Rattle.ca_model.specs.typing.Programs as programs;
ghost use Rattle.ca_model.specs.typing.Structs as structs;
ghost use Rattle.ca_model.specs.typing.Functions as told;
ghost use Rattle.ca_tree.specs.declared.tree.Top.TheVariants as tops;
ghost use Rattle.ca_operands.specs.Noted.{noted};
ghost use Rattle.ca_types.specs.Knows.{Goes, Knows};

use crate::definitions::{defines_main, definitions};
use crate::functions::function;
use crate::globals::{Starts, declare_globals};
use crate::structs::struct_definition;
use ca_bodies::Functions;
use ca_model::{Function, TypeKind};
use ca_operands::{Faults, Scope};
use ca_tree::tree::{Function as ReadFunction, Globals, Program, Struct, Top};
use ca_tree::{NoMemory, Pos};
use std::alloc::Global;

/// What is known behind some declarations: what is visible, the functions, the globals with their cells, how many mutexes
/// there are, the typed functions, and the first fault.
#[derive(Drop)]
pub(crate) struct Known<'a> {
    pub(crate) scope: Scope<'a>,
    pub(crate) functions: Functions<'a>,
    pub(crate) starts: Starts,
    pub(crate) mutexes: u32,
    pub(crate) typed: Vec<Function>,
    pub(crate) faults: Faults,
}

// Without a `main` a program is refused at its first byte.
fn main_faults(program: &Program) -> Faults
    ensures { result.first ≡ noted None (programs.main_faults program.now) }
{
    let mut faults = Faults::none();
    let first = Pos { line: 1, column: 1 };
    faults.unless(
        defines_main(program.tops.as_slice()),
        first,
        TypeKind::NoMain,
    );
    faults
}

// Before the first declaration.
fn at_start<'a>(alloc: Global, program: &'a Program) -> Result<Known<'a>, NoMemory>
    requires { IsWrittenProgram program.now }
    ensures { IfOk result (λ x. Knows x (programs.at_start program.now)) }
{
    let functions = definitions(alloc, program.tops.as_slice())?;
    Ok(Known {
        scope: Scope::new(alloc),
        functions,
        starts: Starts {
            starts: Vec::new(alloc),
            cells: 0,
        },
        mutexes: 0,
        typed: Vec::new(alloc),
        faults: main_faults(program),
    })
}

// Behind the definition of a struct.
fn with_struct<'a>(alloc: Global, known: Known<'a>, of: &'a Struct) -> Result<Known<'a>, NoMemory>
    requires { (n : Totals) × (k : knowns.Known) × Goes n k known (tops.Struct of.now) }
    ensures { (k : knowns.Known) → Knows known.entry k → IfOk result (λ x. Knows x (structs.with_struct k of.now)) }
{
    let Known {
        mut scope,
        functions,
        starts,
        mutexes,
        typed,
        mut faults,
    } = known;
    struct_definition(alloc, &mut scope, of, &mut faults)?;
    Ok(Known {
        scope,
        functions,
        starts,
        mutexes,
        typed,
        faults,
    })
}

// Behind a declaration of globals.
fn with_globals<'a>(known: Known<'a>, of: &'a Globals) -> Result<Known<'a>, NoMemory>
    requires { (n : Totals) × (k : knowns.Known) × Goes n k known (tops.Globals of.now) }
    ensures { (k : knowns.Known) → Knows known.entry k → IfOk result (λ x. Knows x (globals.with_globals k of.now)) }
{
    let Known {
        mut scope,
        functions,
        mut starts,
        mut mutexes,
        typed,
        mut faults,
    } = known;
    declare_globals(&mut scope, &mut starts, &mut mutexes, of, &mut faults)?;
    Ok(Known {
        scope,
        functions,
        starts,
        mutexes,
        typed,
        faults,
    })
}

// Behind the declaration of a function.
fn with_function<'a>(
    alloc: Global,
    known: Known<'a>,
    of: &'a ReadFunction,
) -> Result<Known<'a>, NoMemory>
    requires { (n : Totals) × (k : knowns.Known) × Goes n k known (tops.Function of.now) }
    ensures { (k : knowns.Known) → Knows known.entry k → IfOk result (λ x. Knows x (told.with_function k of.now)) }
{
    let Known {
        scope,
        functions,
        starts,
        mutexes,
        mut typed,
        mut faults,
    } = known;
    let (scope, functions) = function(alloc, scope, functions, &mut typed, of, &mut faults)?;
    Ok(Known {
        scope,
        functions,
        starts,
        mutexes,
        typed,
        faults,
    })
}

// Behind one more declaration.
fn with_top<'a>(alloc: Global, known: Known<'a>, top: &'a Top) -> Result<Known<'a>, NoMemory>
    requires { (n : Totals) × (k : knowns.Known) × Goes n k known top.now }
    ensures { (k : knowns.Known) → Knows known.entry k → IfOk result (λ x. Knows x (programs.with_top k top.now)) }
{
    match top {
        Top::Struct(of) => with_struct(alloc, known, of),
        Top::Globals(of) => with_globals(known, of),
        Top::Function(of) => with_function(alloc, known, of),
    }
}

/// Behind all declarations of a program.
pub(crate) fn all_known<'a>(alloc: Global, program: &'a Program) -> Result<Known<'a>, NoMemory>
    requires { IsWrittenProgram program.now }
    ensures { IfOk result (λ x. Knows x (programs.known program.now)) }
{
    let mut known = at_start(alloc, program)?;
    for top in program.tops.as_slice() {
        known = with_top(alloc, known, top)?;
    }
    Ok(known)
}
