//! The right sides of assignments and declarations: values, calls, and `malloc` (C11 7.22.3.4).

ghost use Rattle.std.specs.Prelude.{◌≡◌, ◌≤◌, ◌&&◌, IfOk, OnOk, Some};
ghost use Rattle.ca_bodies.specs.Functions.{context};
ghost use Rattle.ca_bodies.specs.Shown.{shown_aim};
ghost use Rattle.ca_model.specs.declared.types.Wanted.TheVariants.{OfType};
ghost use Rattle.ca_model.specs.typing.Faults.{given};
ghost use Rattle.ca_model.specs.typing.RightSides as rights;
ghost use Rattle.ca_model.specs.typing.TypeNames as type_names;
ghost use Rattle.ca_model.specs.typing.Types.{int};
ghost use Rattle.ca_model.specs.typing.Uses.{faults_in};
ghost use Rattle.ca_operands.specs.Noted.{noted};

use crate::calls::call;
use crate::functions::Functions;
use crate::targets::{Aim, local_at, target_at};
use ca_model::{Act, Exp as TypedExp, ObjectType, TypeKind, Wanted};
use ca_operands::{
    Faults, INT, Scope, held, note_type, pointer_fits, same_object, value_in, written_type,
};
use ca_tree::NoMemory;
use ca_tree::tree::{Exp, Malloc, Right, Type};
use std::alloc::Global;

fn note_cast<'a>(scope: &Scope<'a>, cast: &'a Option<Type>, faults: &mut Faults)
    ensures { faults.new.first ≡ noted faults.old.first (given cast.now (λ c. type_names.type_faults scope.now c.base)) }
{
    if let Some(cast) = cast {
        note_type(scope, &cast.base, faults);
    }
}

// The count of a `malloc`, 1 where none is written.
fn count_in<'a>(
    alloc: Global,
    scope: &Scope<'a>,
    count: &'a Option<Exp>,
    faults: &mut Faults,
) -> Result<TypedExp, NoMemory>
    ensures is { IfOk result (λ r. r ≡ rights.count_or_one scope.now count.now) }
    ensures noted { OnOk result (faults.new.first ≡ noted faults.old.first (given count.now (faults_in scope.now (OfType (Some int))))) }
{
    match count {
        Some(count) => value_in(alloc, scope, Wanted::OfType(Some(INT)), count, faults),
        None => Ok(TypedExp::Num(1)),
    }
}

/// A type as it is written.
pub fn type_in<'a>(scope: &Scope<'a>, of: &'a Type) -> Option<ObjectType>
    ensures { result ≡ type_names.type_in scope.now of.now }
{
    written_type(scope, &of.base, of.stars)
}

/// Whether two types are one; a refused type is as any.
pub fn both_same(a: Option<ObjectType>, b: Option<ObjectType>) -> bool
    ensures { result ≡ type_names.both_same a b }
{
    match (a, b) {
        (Some(a), Some(b)) => same_object(a, b),
        _ => true,
    }
}

// A cast names the type of the target.
fn cast_is_right<'a>(scope: &Scope<'a>, cast: &'a Option<Type>, into: Option<ObjectType>) -> bool
    ensures { result ≡ rights.cast_is_right scope.now cast.now into }
{
    match cast {
        Some(cast) => both_same(type_in(scope, cast), into),
        None => true,
    }
}

fn pointer_goes_into(of: Option<ObjectType>, into: Option<ObjectType>) -> bool
    ensures { result ≡ rights.pointer_goes_into of into }
{
    match (of, into) {
        (Some(of), Some(into)) => pointer_fits(of, held(into)),
        _ => true,
    }
}

/// How many cells an object has, at most 64; one of a refused type has one.
pub fn cells_of(scope: &Scope<'_>, of: Option<ObjectType>) -> u32
    ensures is { result ≡ type_names.cells_of scope.now of }
    ensures most { result ≤ 64 }
{
    match of {
        Some(of) => scope.cells(of),
        None => 1,
    }
}

// A `malloc` gives a pointer that goes to the target.
fn malloc_is_right<'a>(
    scope: &Scope<'a>,
    of: &'a Malloc,
    element: Option<ObjectType>,
    into: Option<ObjectType>,
) -> bool
    ensures { result ≡ (rights.cast_is_right scope.now of.now.cast into && rights.pointer_goes_into element into) }
{
    cast_is_right(scope, &of.cast, into) && pointer_goes_into(element, into)
}

// The count and the cells of an element of a `malloc`; its faults are noted.
fn malloc<'a>(
    alloc: Global,
    scope: &Scope<'a>,
    aim: &Aim,
    of: &'a Malloc,
    faults: &mut Faults,
) -> Result<(TypedExp, u32), NoMemory>
    ensures is { IfOk result (λ r. r ≡ (rights.count_or_one scope.now of.now.count, type_names.cells_of scope.now (type_names.type_in scope.now of.now.of))) }
    ensures noted { OnOk result (faults.new.first ≡ noted faults.old.first (rights.malloc_faults scope.now (shown_aim aim.now) of.now)) }
{
    note_cast(scope, &of.cast, faults);
    let count = count_in(alloc, scope, &of.count, faults)?;
    note_type(scope, &of.of.base, faults);
    let element = type_in(scope, &of.of);
    let is_right = malloc_is_right(scope, of, element, aim.of);
    faults.unless(is_right, of.pos, TypeKind::Mismatch);
    Ok((count, cells_of(scope, element)))
}

/// The act that gives a right side to a target; the faults of the right side are noted.
pub fn right_side<'a>(
    alloc: Global,
    scope: &Scope<'a>,
    functions: &Functions<'a>,
    aim: Aim,
    right: &'a Right,
    faults: &mut Faults,
) -> Result<Act, NoMemory>
    ensures is { IfOk result (λ r. r ≡ rights.set_act (context scope.now functions.now) (shown_aim aim) right.now) }
    ensures noted { OnOk result (faults.new.first ≡ noted faults.old.first (rights.right_faults (context scope.now functions.now) (shown_aim aim) right.now)) }
{
    match right {
        Right::Value(exp) => {
            let value = value_in(alloc, scope, Wanted::OfType(aim.of), exp, faults)?;
            Ok(Act::Set(target_at(aim.at), value))
        }
        Right::Call(of) => {
            let to = local_at(&aim.at);
            call(alloc, scope, functions, Some(&aim), to, of, faults)
        }
        Right::Malloc(of) => {
            let (count, cells) = malloc(alloc, scope, &aim, of, faults)?;
            Ok(Act::Malloc(target_at(aim.at), count, cells))
        }
    }
}
