//! Types as they are written (C11 6.7.2, 6.7.7).

ghost use Rattle.std.specs.Prelude.{◌≡◌};
ghost use Rattle.ca_model.specs.typing.TypeNames.{written_type, type_faults};
ghost use Rattle.ca_operands.specs.Noted.{noted};

use crate::faults::Faults;
use crate::scope::Scope;
use ca_model::{Kind, ObjectType, TypeKind};
use ca_tree::tree::Base;

/// The type of a base with so many stars. One with a tag that isn't declared is none.
pub fn written_type<'a>(scope: &Scope<'a>, base: &'a Base, stars: usize) -> Option<ObjectType>
    ensures { result ≡ written_type scope.now base.now stars }
{
    let kind = match base {
        Base::Int => Kind::Int,
        Base::Struct(tag) => Kind::Struct(scope.struct_id(tag.text.as_slice())?),
    };
    Some(ObjectType { kind, stars })
}

/// Notes that the tag of a base isn't declared.
pub fn note_type<'a>(scope: &Scope<'a>, base: &'a Base, faults: &mut Faults)
    ensures { faults.new.first ≡ noted faults.old.first (type_faults scope.now base.now) }
{
    if let Base::Struct(tag) = base {
        let is_declared = scope.struct_id(tag.text.as_slice()).is_some();
        faults.unless(is_declared, tag.pos, TypeKind::Unknown);
    }
}
