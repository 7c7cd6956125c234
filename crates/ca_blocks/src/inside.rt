//! A place in a function.

ghost use Rattle.std.specs.Prelude.{◌≡◌, ◌≤◌, [], length};
ghost use Rattle.ca_bodies.specs.Functions.{context};
ghost use Rattle.ca_model.specs.typing.Bodies.{inner};
ghost use Rattle.ca_model.specs.typing.Functions.{begun};
ghost use Rattle.ca_blocks.specs.Shown.{LeavesTo};

use ca_bodies::Functions;
use ca_model::ObjectType;
use ca_operands::Scope;
use std::marker::Model;

/// What is visible at a place in a function, where its block begins among the visible locals, how many parameters and
/// locals are declared so far, and what the function gives.
#[derive(Drop)]
pub struct Inside<'a> {
    pub(crate) scope: Scope<'a>,
    pub(crate) functions: Functions<'a>,
    pub(crate) outer: usize,
    pub(crate) count: u32,
    pub(crate) result: Option<ObjectType>,
}

impl<'a> Model for Inside<'a> {
    ghost use Rattle.std.specs.Prelude.{◌≤◌, length};
    ghost use Rattle.ca_model.specs.typing.Bodies as bodies;
    ghost use Rattle.ca_blocks.specs.Shown.{shown_inside};

    ghost Value = { bodies.Inside };

    ghost view = { λ c. shown_inside c.scope c.functions c.outer c.count c.result };

    ghost invariant = { λ c. (c.outer ≤ length c.scope.locals) × (c.count ≤ 128) };
}

impl<'a> Inside<'a> {
    /// Where the parameters of a function begin, with what is visible outside of functions, and what the function gives.
    pub fn begin(
        mut scope: Scope<'a>,
        functions: Functions<'a>,
        gives: Option<ObjectType>,
    ) -> Inside<'a>
        ensures { result ≡ begun (context scope.entry functions.entry) gives }
    {
        scope.keep_locals(0);
        Inside {
            scope,
            functions,
            outer: 0,
            count: 0,
            result: gives,
        }
    }

    /// What is visible outside of functions, and the functions.
    pub fn end(self) -> (Scope<'a>, Functions<'a>)
        ensures { context result.0 result.1 ≡ record self.entry.context { scope = record self.entry.context.scope { locals = [] } } }
    {
        let Inside {
            mut scope,
            functions,
            ..
        } = self;
        scope.keep_locals(0);
        (scope, functions)
    }

    /// What is visible there.
    pub fn scope(&self) -> &Scope<'a>
        ensures { result.now ≡ self.now.context.scope }
    {
        &self.scope
    }

    /// How many parameters and locals are declared.
    pub fn count(&self) -> u32
        ensures { result ≡ self.now.count }
    {
        self.count
    }

    /// What `leave` wants, to come back here.
    pub(crate) fn place(&self) -> (usize, usize)
        ensures was { result ≡ (length self.now.context.scope.locals, self.now.outer) }
        ensures within { result.1 ≤ result.0 }
    {
        (self.scope.local_count(), self.outer)
    }

    /// Begins a block. The answer is what `leave` wants.
    pub(crate) fn enter(&mut self) -> (usize, usize)
        ensures inner { self.new ≡ inner self.old }
        ensures was { result ≡ (length self.old.context.scope.locals, self.old.outer) }
        ensures within { result.1 ≤ result.0 }
    {
        let was = (self.scope.local_count(), self.outer);
        self.outer = was.0;
        was
    }

    /// Goes back to where so many locals were visible, and a block began at so many.
    pub(crate) fn leave(&mut self, was: (usize, usize))
        requires { was.1 ≤ was.0 × (was.0 ≤ length self.old.context.scope.locals) }
        ensures { LeavesTo was self.old self.new }
    {
        self.scope.keep_locals(was.0);
        self.outer = was.1;
    }
}
