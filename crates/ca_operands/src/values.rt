//! Operands as values, and where a value goes.

ghost use Rattle.std.specs.Prelude.{◌≡◌, Some};
ghost use Rattle.ca_model.specs.typing.Values as values;

use crate::types::{held, is_void, load_kind, same_object};
use ca_model::{Exp, ObjectType, Operand, ValueType};

/// A value with its type.
pub type TypedValue = (ValueType, Exp);

/// What an operand is as a value: what stands in an object is loaded (C11 6.3.2.1). A mutex, a function and a whole
/// struct are no values.
pub fn value_of(operand: Operand) -> Option<TypedValue>
    ensures { result ≡ values.value_of operand }
{
    match operand {
        Operand::Value(of, exp) => Some((of, exp)),
        Operand::Local(of, var) => {
            let value = held(of)?;
            Some((value, Exp::Local(var)))
        }
        Operand::Place(of, place) => {
            let value = held(of)?;
            Some((value, Exp::Load(place, load_kind(of))))
        }
        Operand::Name => None,
    }
}

pub(crate) fn is_int(of: ValueType) -> bool
    ensures { result ≡ values.is_int of }
{
    match of {
        ValueType::Int => true,
        ValueType::Thread | ValueType::Null | ValueType::Pointer(_) => false,
    }
}

/// Whether a value of a type can be tested: an `int` or a pointer (C11 6.2.5).
pub fn is_scalar(of: ValueType) -> bool
    ensures { result ≡ values.is_scalar of }
{
    match of {
        ValueType::Thread => false,
        ValueType::Int | ValueType::Null | ValueType::Pointer(_) => true,
    }
}

/// What a pointer points at, where that is a type: `NULL` and a `void *` point at none.
pub(crate) fn pointed_at(of: ValueType) -> Option<ObjectType>
    ensures { result ≡ values.pointed_at of }
{
    match of {
        ValueType::Pointer(to) if !is_void(to) => Some(to),
        _ => None,
    }
}

/// Whether a value is the number 0 as it is written.
pub fn is_zero(exp: &Exp) -> bool
    ensures { result ≡ values.is_zero exp.now }
{
    match exp {
        Exp::Num(number) => *number == 0,
        _ => false,
    }
}

/// Whether a pointer to objects of a type goes into an object that holds such values.
pub fn pointer_fits(from: ObjectType, into: Option<ValueType>) -> bool
    ensures { result ≡ values.pointer_fits from into }
{
    match into {
        Some(ValueType::Pointer(to)) => same_object(from, to) || (is_void(from) || is_void(to)),
        _ => false,
    }
}

fn takes_int(into: Option<ValueType>, exp: &Exp) -> bool
    ensures { result ≡ values.takes_int into exp.now }
{
    match into {
        Some(ValueType::Int) => true,
        Some(ValueType::Pointer(_)) => is_zero(exp),
        _ => false,
    }
}

/// Whether a value goes into an object of a type (C11 6.5.16.1): a value of its own type; `NULL`, 0 and a `void *` into
/// any pointer; any pointer into a `void *`.
pub fn fits(of: ObjectType, value: &TypedValue) -> bool
    ensures { result ≡ values.fits of value.now }
{
    let into = held(of);
    match value.0 {
        ValueType::Int => takes_int(into, &value.1),
        ValueType::Thread => matches!(into, Some(ValueType::Thread)),
        ValueType::Null => matches!(into, Some(ValueType::Pointer(_))),
        ValueType::Pointer(from) => pointer_fits(from, into),
    }
}

/// A value that is an `int`.
pub(crate) fn int_of(value: TypedValue) -> Option<Exp>
    ensures { result ≡ values.int_of value }
{
    if is_int(value.0) { Some(value.1) } else { None }
}

/// A value that can be tested.
pub(crate) fn scalar_of(value: TypedValue) -> Option<Exp>
    ensures { result ≡ values.scalar_of value }
{
    if is_scalar(value.0) {
        Some(value.1)
    } else {
        None
    }
}

/// An operand whose value is an `int`.
pub(crate) fn int_operand(operand: Operand) -> Option<Exp>
    ensures { result ≡ values.also (values.value_of operand) values.int_of }
{
    int_of(value_of(operand)?)
}

/// An operand whose value points at objects of a type.
pub(crate) fn pointer_operand(operand: Operand) -> Option<(ObjectType, Exp)>
    ensures { result ≡ values.also (values.value_of operand) (λ v. values.also (values.pointed_at v.0) (λ t. Some (t, v.1))) }
{
    let value = value_of(operand)?;
    let to = pointed_at(value.0)?;
    Some((to, value.1))
}
