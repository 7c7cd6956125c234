//! The types of objects.

ghost use Rattle.std.specs.Prelude.{◌≡◌};
ghost use Rattle.ca_model.specs.typing.Types as types;

use ca_model::{Kind, LoadKind, ObjectType, ValueType};

/// `int`
pub const INT: ObjectType = ObjectType {
    kind: Kind::Int,
    stars: 0,
};

/// `pthread_t`
pub const THREAD: ObjectType = ObjectType {
    kind: Kind::Thread,
    stars: 0,
};

/// `void`
pub const VOID: ObjectType = ObjectType {
    kind: Kind::Void,
    stars: 0,
};

/// `void *`
pub const VOID_POINTER: ObjectType = ObjectType {
    kind: Kind::Void,
    stars: 1,
};

fn plain_value(kind: Kind) -> Option<ValueType>
    ensures { result ≡ types.plain_value kind }
{
    match kind {
        Kind::Int => Some(ValueType::Int),
        Kind::Thread => Some(ValueType::Thread),
        Kind::Void | Kind::Struct(_) => None,
    }
}

/// The type of the value that an object of a type holds. A whole struct is no value, and `void` has none.
pub fn held(of: ObjectType) -> Option<ValueType>
    ensures { result ≡ types.held of }
{
    if of.stars == 0 {
        return plain_value(of.kind);
    }
    Some(ValueType::Pointer(ObjectType {
        kind: of.kind,
        stars: of.stars - 1,
    }))
}

fn same_kind(a: Kind, b: Kind) -> bool
    ensures { result ≡ types.same_kind a b }
{
    match (a, b) {
        (Kind::Void, Kind::Void) | (Kind::Int, Kind::Int) | (Kind::Thread, Kind::Thread) => true,
        (Kind::Struct(s), Kind::Struct(t)) => s.0 == t.0,
        _ => false,
    }
}

/// Whether two types are one (C11 6.2.7).
pub fn same_object(a: ObjectType, b: ObjectType) -> bool
    ensures { result ≡ types.same_object a b }
{
    same_kind(a.kind, b.kind) && a.stars == b.stars
}

/// Whether a type is `void` itself.
pub fn is_void(of: ObjectType) -> bool
    ensures { result ≡ types.is_void of }
{
    same_object(of, VOID)
}

/// The type that an object is loaded at.
pub(crate) fn load_kind(of: ObjectType) -> LoadKind
    ensures { result ≡ types.load_kind of }
{
    match of.kind {
        Kind::Int if of.stars == 0 => LoadKind::Int,
        Kind::Thread if of.stars == 0 => LoadKind::Thread,
        _ => LoadKind::Pointer,
    }
}
