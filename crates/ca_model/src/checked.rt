//! A source whose types were found right.

ghost use denote.Param.Send.{IsSend, IsSync};
ghost use Rattle.std.specs.Prelude.{◌≡◌, ◌<◌, Some, length, slice_get};
ghost use Rattle.ca_model.specs.Sites.{all_items};
ghost use Rattle.ca_model.specs.typing.Sources.{source, IsChecked};
ghost use Rattle.ca_model.specs.contracts.checked.Checked as checked_source;
ghost use Rattle.ca_model.specs.contracts.plan.Plan as a_plan;

use crate::plan::Plan;
use crate::tree::{Function, GlobalStart};
use ca_tree::FunId;
use ca_tree::tree::Program;
use std::marker::Model;

/// A program and its typed tree.
#[derive(Drop)]
pub struct Checked {
    program: Program,
    functions: Vec<Function>,
    globals: Vec<GlobalStart>,
    mutexes: u32,
}

impl Model for Checked {
    ghost use Rattle.std.specs.Coded.{codes};
    ghost use Rattle.ca_tree.specs.contracts.tree.Program as read_program;
    ghost use Rattle.ca_model.specs.contracts.tree.Function as typed_function;
    ghost use Rattle.ca_model.specs.typing.Sources.{Source, source, IsChecked};

    ghost Value = { Source };

    ghost coded = { Prim.hlevel (codes, read_program.the_row.coded, typed_function.the_row.coded) };

    ghost view = { λ c. source c.program c.functions.items c.globals.items c.mutexes };

    ghost invariant = { λ c. IsChecked (source c.program c.functions.items c.globals.items c.mutexes) };
}

impl Checked {
    /// A program with its typing. It takes no memory.
    pub fn new(
        program: Program,
        functions: Vec<Function>,
        globals: Vec<GlobalStart>,
        mutexes: u32,
    ) -> Checked
        requires { IsChecked (source program functions.items globals.items mutexes) }
        ensures { result ≡ source program functions.items globals.items mutexes }
    {
        Checked {
            program,
            functions,
            globals,
            mutexes,
        }
    }

    /// The program as it was read: one of a text within the limits, whose typing this is. It takes no memory.
    pub fn program(&self) -> &Program
        ensures value { result.now ≡ self.now.program }
        ensures checked { IsChecked self.now }
    {
        &self.program
    }

    /// A function of the source. It takes no memory.
    pub fn function(&self, f: FunId) -> &Function
        requires { f.0 < length self.now.typed.functions }
        ensures { slice_get self.now.typed.functions f.0 ≡ Some result.now }
    {
        &self.functions[f.0 as usize]
    }

    pub(crate) fn all_functions(&self) -> &[Function]
        ensures value { result.now ≡ self.now.typed.functions }
        ensures checked { IsChecked self.now }
    {
        self.functions.as_slice()
    }

    /// The globals in order, each with its size and the value with which its first cell opens. It takes no memory.
    pub fn globals(&self) -> &[GlobalStart]
        ensures { result.now ≡ self.now.typed.globals }
    {
        self.globals.as_slice()
    }

    /// How many functions there are. It takes no memory.
    pub fn functions(&self) -> u32
        ensures { result ≡ length self.now.typed.functions }
    {
        self.functions.len() as u32
    }

    /// How many items there are: the last one is the closing brace of the last function. It takes no memory.
    pub fn items(&self) -> u32
        ensures { result ≡ length (all_items self.now.typed.functions) }
    {
        match self.functions.last() {
            Some(last) => last.close.id.0,
            None => 0,
        }
    }

    /// How many mutexes there are. It takes no memory.
    pub fn mutexes(&self) -> u32
        ensures { result ≡ self.now.typed.mutexes }
    {
        self.mutexes
    }
}

/// A checked source and a plan may be moved to other threads, and shared with them.
pub fn checked_sources_and_plans_cross_threads()
    ensures checked_moves { IsSend checked_source.the_row }
    ensures checked_is_shared { IsSync checked_source.the_row }
    ensures plan_moves { IsSend a_plan.the_row }
    ensures plan_is_shared { IsSync a_plan.the_row }
{}
