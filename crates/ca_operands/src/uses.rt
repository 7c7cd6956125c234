//! Values that go somewhere.

ghost use Rattle.std.specs.Prelude.{◌≡◌, IfOk, OnOk};
ghost use Rattle.ca_model.specs.typing.Faults.{fault, given, unless};
ghost use Rattle.ca_model.specs.typing.Values.{also, value_of};
ghost use Rattle.ca_model.specs.typing.Uses.{value_or_zero, value_is_wanted, value_in, faults_in};
ghost use Rattle.ca_model.specs.declared.types.TypeKind.TheVariants.{Mismatch};
ghost use Rattle.ca_operands.specs.Noted.{noted};

use crate::expressions::{operand, place_of};
use crate::faults::Faults;
use crate::scope::Scope;
use crate::values::{TypedValue, fits, is_scalar, value_of};
use ca_model::{Exp as TypedExp, Operand, TypeKind, Wanted};
use ca_tree::tree::Exp;
use ca_tree::{NoMemory, Pos};
use std::alloc::Global;

/// A value; 0 stands for one that was refused.
pub fn value_or_zero(value: Option<TypedValue>) -> TypedExp
    ensures { result ≡ value_or_zero value }
{
    match value {
        Some((_, exp)) => exp,
        None => TypedExp::Num(0),
    }
}

/// Whether an operand that isn't refused goes where such values are wanted. A mutex, a function and a whole struct are no
/// values.
pub fn value_is_wanted(wanted: Wanted, value: &Option<TypedValue>) -> bool
    ensures { result ≡ value_is_wanted wanted value.now }
{
    match (wanted, value) {
        (Wanted::OfType(None), _) => true,
        (Wanted::Scalar | Wanted::OfType(Some(_)), None) => false,
        (Wanted::Scalar, Some(value)) => is_scalar(value.0),
        (Wanted::OfType(Some(of)), Some(value)) => fits(of, value),
    }
}

// An operand as a value that goes where such values are wanted, where it isn't refused.
fn taken(wanted: Wanted, operand: Option<Operand>, at: Pos, faults: &mut Faults) -> TypedExp
    ensures is { result ≡ value_or_zero (also operand value_of) }
    ensures noted { faults.new.first ≡ noted faults.old.first (given operand (λ x. unless (value_is_wanted wanted (value_of x)) (fault at Mismatch))) }
{
    let Some(operand) = operand else {
        return TypedExp::Num(0);
    };
    let value = value_of(operand);
    faults.unless(value_is_wanted(wanted, &value), at, TypeKind::Mismatch);
    value_or_zero(value)
}

/// A value that goes where such values are wanted; its faults are noted. Where it is refused, 0 stands for it.
pub fn value_in<'a>(
    alloc: Global,
    scope: &Scope<'a>,
    wanted: Wanted,
    exp: &'a Exp,
    faults: &mut Faults,
) -> Result<TypedExp, NoMemory>
    ensures is { IfOk result (λ r. r ≡ value_in scope.now exp.now) }
    ensures noted { OnOk result (faults.new.first ≡ noted faults.old.first (faults_in scope.now wanted exp.now)) }
{
    let given = operand(alloc, scope, exp, faults)?;
    Ok(taken(wanted, given, place_of(exp), faults))
}
