//! Places by `*`, `&`, `[ ]`, `.` and `->` (C11 6.5.2.1, 6.5.2.3, 6.5.3.2). A rule has no answer where the types don't
//! allow the operands.

ghost use Rattle.std.specs.Prelude.{◌≡◌, IfOk};
ghost use Rattle.ca_model.specs.typing.Places as places;
ghost use Rattle.ca_model.specs.typing.Scopes.{field_count};

use crate::scope::Scope;
use crate::values::{int_of, pointed_at, pointer_operand, value_of};
use ca_model::{Exp, Kind, ObjectType, Operand, Place, ValueType};
use ca_tree::{NoMemory, StructId};
use sqlite_items::Boxed;
use std::alloc::Global;

/// The cell that an address names.
pub(crate) fn behind(alloc: Global, exp: Exp) -> Result<Place, NoMemory>
    ensures { IfOk result (λ p. p ≡ places.behind exp) }
{
    Ok(Place {
        base: Boxed::new(alloc, exp)?,
        index: None,
        field: 0,
        through: true,
    })
}

/// The first cell of an element behind an address, by its number and the cells of each.
pub(crate) fn element(alloc: Global, exp: Exp, index: Exp, cells: u32) -> Result<Place, NoMemory>
    ensures { IfOk result (λ p. p ≡ places.element exp index cells) }
{
    Ok(Place {
        base: Boxed::new(alloc, exp)?,
        index: Some((Boxed::new(alloc, index)?, cells)),
        field: 0,
        through: true,
    })
}

/// `*a` (C11 6.5.3.2)
pub(crate) fn pointed(alloc: Global, operand: Operand) -> Result<Option<Operand>, NoMemory>
    ensures { IfOk result (λ r. r ≡ places.pointed operand) }
{
    let Some((to, address)) = pointer_operand(operand) else {
        return Ok(None);
    };
    Ok(Some(Operand::Place(to, behind(alloc, address)?)))
}

/// `&a` (C11 6.5.3.2); a local has no address.
pub(crate) fn address(operand: Operand) -> Option<Operand>
    ensures { result ≡ places.address operand }
{
    match operand {
        Operand::Place(of, place) => Some(Operand::Value(
            ValueType::Pointer(of),
            Exp::AddressOf(place),
        )),
        Operand::Value(..) | Operand::Local(..) | Operand::Name => None,
    }
}

/// `a[i]` (C11 6.5.2.1)
pub(crate) fn indexed(
    alloc: Global,
    scope: &Scope<'_>,
    x: Operand,
    y: Operand,
) -> Result<Option<Operand>, NoMemory>
    ensures { IfOk result (λ r. r ≡ places.indexed (field_count scope.now) x y) }
{
    let Some(x) = value_of(x) else {
        return Ok(None);
    };
    let Some(y) = value_of(y) else {
        return Ok(None);
    };
    let Some(to) = pointed_at(x.0) else {
        return Ok(None);
    };
    let Some(index) = int_of(y) else {
        return Ok(None);
    };
    let place = element(alloc, x.1, index, scope.cells(to))?;
    Ok(Some(Operand::Place(to, place)))
}

// The struct that an object is.
fn struct_of(of: ObjectType) -> Option<StructId>
    ensures { result ≡ places.struct_of of }
{
    match of.kind {
        Kind::Struct(id) if of.stars == 0 => Some(id),
        _ => None,
    }
}

/// The struct of `a.f`, with its place (C11 6.5.2.3).
pub(crate) fn struct_place(operand: Operand) -> Option<(StructId, Place)>
    ensures { result ≡ places.struct_place operand }
{
    match operand {
        Operand::Place(of, place) => {
            let id = struct_of(of)?;
            Some((id, place))
        }
        Operand::Value(..) | Operand::Local(..) | Operand::Name => None,
    }
}

/// The struct of `a->f`, with its place (C11 6.5.2.3).
pub(crate) fn struct_behind(
    alloc: Global,
    operand: Operand,
) -> Result<Option<(StructId, Place)>, NoMemory>
    ensures { IfOk result (λ r. r ≡ places.struct_behind operand) }
{
    let Some(value) = value_of(operand) else {
        return Ok(None);
    };
    let Some(id) = pointed_at(value.0).and_then(struct_of) else {
        return Ok(None);
    };
    Ok(Some((id, behind(alloc, value.1)?)))
}
