//! The first fault.

ghost use Rattle.std.specs.Prelude.{◌≡◌, [], ◌∷◌, List, None, MatchOption};
ghost use Rattle.ca_model.specs.typing.Faults.{fault, is_before, rank, unless, IsFirst};
ghost use Rattle.ca_model.specs.declared.types.TypeFault.{TypeFault};
ghost use Rattle.ca_operands.specs.Noted.{noted};

use ca_model::{TypeFault, TypeKind};
use ca_tree::Pos;

/// The first of the faults that were found so far, in the order of their places and kinds.
#[derive(Clone, Copy, Debug)]
pub struct Faults {
    pub first: Option<TypeFault>,
}

fn rank_of(kind: TypeKind) -> u8
    ensures { result ≡ rank kind }
{
    match kind {
        TypeKind::Unknown => 0,
        TypeKind::Twice => 1,
        TypeKind::ThreadForm => 2,
        TypeKind::NotLvalue => 3,
        TypeKind::Directive => 4,
        TypeKind::Mismatch => 5,
        TypeKind::TooManyLocals => 6,
        TypeKind::TooManyCells => 7,
        TypeKind::NoMain => 8,
    }
}

fn comes_before(x: TypeFault, y: TypeFault) -> bool
    ensures { result ≡ is_before x y }
{
    x.pos.line < y.pos.line
        || (x.pos.line == y.pos.line
            && (x.pos.column < y.pos.column
                || (x.pos.column == y.pos.column && rank_of(x.kind) < rank_of(y.kind))))
}

impl Faults {
    /// No fault so far.
    pub fn none() -> Faults
        ensures { result.first ≡ None }
    {
        Faults { first: None }
    }

    /// What is told of all faults, where each was noted: the first of them, or none where there is none.
    pub fn answer(&self) -> Option<TypeFault>
        ensures { (all : List TypeFault) → self.now.first ≡ noted None all → MatchOption result (all ≡ []) (IsFirst all) }
    {
        self.first
    }

    /// One more fault.
    pub fn note(&mut self, pos: Pos, kind: TypeKind)
        ensures { self.new.first ≡ noted self.old.first (fault pos kind ∷ []) }
    {
        let found = TypeFault { pos, kind };
        match self.first {
            Some(first) => {
                if comes_before(found, first) {
                    self.first = Some(found);
                }
            }
            None => self.first = Some(found),
        }
    }

    /// A fault, unless something holds.
    pub fn unless(&mut self, holds: bool, pos: Pos, kind: TypeKind)
        ensures { self.new.first ≡ noted self.old.first (unless holds (fault pos kind)) }
    {
        if !holds {
            self.note(pos, kind);
        }
    }
}
