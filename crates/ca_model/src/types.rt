//! Types, what names mean, and what an expression is.

use crate::tree::{Exp, Place};
use ca_tree::{GlobalId, MutexId, Pos, StructId, VarId};

/// What stands under the stars of a type.
#[derive(Clone, Copy, Debug, PartialEq, Eq)]
pub enum Kind {
    Void,
    Int,
    Thread,
    Struct(StructId),
}

/// The type of an object (C11 6.2.5): what it is under its stars, and how many these are.
#[derive(Clone, Copy, Debug, PartialEq, Eq)]
pub struct ObjectType {
    pub kind: Kind,
    pub stars: usize,
}

/// The type of a value. A whole struct is none.
#[derive(Clone, Copy, Debug, PartialEq, Eq)]
pub enum ValueType {
    Int,
    Thread,
    /// That of `NULL`, which points at no type.
    Null,
    /// A pointer to objects of this type.
    Pointer(ObjectType),
}

/// What a name means. A type that was refused is none.
#[derive(Clone, Copy, Debug, PartialEq, Eq)]
pub enum Meaning {
    Mutex(MutexId),
    Global(GlobalId, Option<ObjectType>),
    /// An array of a global, by the type of its elements.
    Array(GlobalId, Option<ObjectType>),
    /// A function, by its number among those that are declared.
    Function(usize),
    Local(VarId, Option<ObjectType>),
}

/// What an expression is.
#[derive(Drop)]
pub enum Operand {
    /// A value that stands in no object.
    Value(ValueType, Exp),
    Local(ObjectType, VarId),
    /// A global, or an object behind an address.
    Place(ObjectType, Place),
    /// The name of a mutex or a function.
    Name,
}

/// What a place takes: any value that can be tested, or what goes into an object of a type; where the type was refused,
/// anything.
#[derive(Clone, Copy, Debug, PartialEq, Eq)]
pub enum Wanted {
    Scalar,
    OfType(Option<ObjectType>),
}

/// Why a program has no types, in the order in which they are told where several stand at one place.
#[derive(Clone, Copy, Debug, PartialEq, Eq)]
pub enum TypeKind {
    /// A name, tag or field that isn't declared, or a prototype of a function that is never defined.
    Unknown,
    /// A second declaration in one scope, a second definition, or a library name declared.
    Twice,
    /// The function of a `pthread_create` isn't `void *f(void *x)`.
    ThreadForm,
    /// A target or an operand of `&` that is no place.
    NotLvalue,
    /// A `%` in a format that neither `d` nor `%` follows.
    Directive,
    /// A use that the types don't allow.
    Mismatch,
    /// A function has more than 128 parameters and locals.
    TooManyLocals,
    /// The globals have more than 65,536 cells, or an array none.
    TooManyCells,
    /// There is no `int main(void)`.
    NoMain,
}

/// A fault of types, and its place.
#[derive(Clone, Copy, Debug, PartialEq, Eq)]
pub struct TypeFault {
    pub pos: Pos,
    pub kind: TypeKind,
}
