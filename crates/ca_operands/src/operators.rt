//! What the operators of expressions take and give (C11 6.5.3 and 6.5.5 to
//! 6.5.14). A rule has no answer where the types don't allow the operands.

ghost use Rattle.std.specs.Prelude.{◌≡◌, IfOk};
ghost use Rattle.ca_model.specs.typing.Operators as operators;
ghost use Rattle.ca_model.specs.typing.Scopes.{field_count};

use crate::places::element;
use crate::scope::Scope;
use crate::types::{is_void, same_object};
use crate::values::{
    TypedValue, int_of, int_operand, is_int, is_zero, pointed_at, scalar_of, value_of,
};
use ca_model::{BinOp, Exp, Operand, ValueType};
use ca_tree::NoMemory;
use ca_tree::tree::BinaryOp;
use sqlite_items::Boxed;
use std::alloc::Global;

/// `-a` (C11 6.5.3.3)
pub(crate) fn negated(alloc: Global, operand: Operand) -> Result<Option<Operand>, NoMemory>
    ensures { IfOk result (λ r. r ≡ operators.negated operand) }
{
    let Some(exp) = int_operand(operand) else {
        return Ok(None);
    };
    let negated = Exp::Negate(Boxed::new(alloc, exp)?);
    Ok(Some(Operand::Value(ValueType::Int, negated)))
}

/// `!a` (C11 6.5.3.3)
pub(crate) fn denied(alloc: Global, operand: Operand) -> Result<Option<Operand>, NoMemory>
    ensures { IfOk result (λ r. r ≡ operators.denied operand) }
{
    let Some(value) = value_of(operand) else {
        return Ok(None);
    };
    let Some(exp) = scalar_of(value) else {
        return Ok(None);
    };
    let denied = Exp::Not(Boxed::new(alloc, exp)?);
    Ok(Some(Operand::Value(ValueType::Int, denied)))
}

fn int_op(
    alloc: Global,
    op: BinOp,
    x: TypedValue,
    y: TypedValue,
) -> Result<Option<Operand>, NoMemory>
    ensures { IfOk result (λ r. r ≡ operators.int_op op x y) }
{
    let Some(a) = int_of(x) else {
        return Ok(None);
    };
    let Some(b) = int_of(y) else {
        return Ok(None);
    };
    let both = Exp::Binary(op, Boxed::new(alloc, a)?, Boxed::new(alloc, b)?);
    Ok(Some(Operand::Value(ValueType::Int, both)))
}

// Whether the first is a pointer that may be compared with the second.
fn is_like(a: ValueType, b: ValueType, exp: &Exp) -> bool
    ensures { result ≡ operators.is_like a b exp.now }
{
    match (a, b) {
        (ValueType::Pointer(to), ValueType::Pointer(other)) => {
            same_object(to, other) || is_void(other)
        }
        (ValueType::Null, ValueType::Pointer(other)) => is_void(other),
        (ValueType::Pointer(_) | ValueType::Null, ValueType::Null) => true,
        (ValueType::Pointer(_) | ValueType::Null, ValueType::Int) => is_zero(exp),
        _ => false,
    }
}

// Whether two values may be compared by `==` (C11 6.5.9): two `int`, two pointers of one type, or a pointer and `NULL`,
// 0 or a `void *`.
fn are_comparable(x: &TypedValue, y: &TypedValue) -> bool
    ensures { result ≡ operators.are_comparable x.now y.now }
{
    (is_int(x.0) && is_int(y.0)) || (is_like(x.0, y.0, &y.1) || is_like(y.0, x.0, &x.1))
}

fn equality(
    alloc: Global,
    op: BinOp,
    x: TypedValue,
    y: TypedValue,
) -> Result<Option<Operand>, NoMemory>
    ensures { IfOk result (λ r. r ≡ operators.equality op x y) }
{
    if !are_comparable(&x, &y) {
        return Ok(None);
    }
    let both = Exp::Binary(op, Boxed::new(alloc, x.1)?, Boxed::new(alloc, y.1)?);
    Ok(Some(Operand::Value(ValueType::Int, both)))
}

// `&&` and `||` (C11 6.5.13, 6.5.14).
fn logical(
    alloc: Global,
    is_and: bool,
    x: TypedValue,
    y: TypedValue,
) -> Result<Option<Operand>, NoMemory>
    ensures { IfOk result (λ r. r ≡ operators.logical is_and x y) }
{
    let Some(a) = scalar_of(x) else {
        return Ok(None);
    };
    let Some(b) = scalar_of(y) else {
        return Ok(None);
    };
    let (a, b) = (Boxed::new(alloc, a)?, Boxed::new(alloc, b)?);
    let both = if is_and {
        Exp::And(a, b)
    } else {
        Exp::Or(a, b)
    };
    Ok(Some(Operand::Value(ValueType::Int, both)))
}

// `+` of two `int`, or of a pointer and an `int`, which goes on by so many objects (C11 6.5.6).
fn sum(
    alloc: Global,
    scope: &Scope<'_>,
    x: TypedValue,
    y: TypedValue,
) -> Result<Option<Operand>, NoMemory>
    ensures { IfOk result (λ r. r ≡ operators.sum (field_count scope.now) x y) }
{
    if is_int(x.0) {
        return int_op(alloc, BinOp::Add, x, y);
    }
    let Some(to) = pointed_at(x.0) else {
        return Ok(None);
    };
    let Some(index) = int_of(y) else {
        return Ok(None);
    };
    let place = element(alloc, x.1, index, scope.cells(to))?;
    Ok(Some(Operand::Value(ValueType::Pointer(to), Exp::AddressOf(place))))
}

fn binary_values(
    alloc: Global,
    scope: &Scope<'_>,
    op: BinaryOp,
    x: TypedValue,
    y: TypedValue,
) -> Result<Option<Operand>, NoMemory>
    ensures { IfOk result (λ r. r ≡ operators.binary_values (field_count scope.now) op x y) }
{
    match op {
        BinaryOp::Mul => int_op(alloc, BinOp::Mul, x, y),
        BinaryOp::Div => int_op(alloc, BinOp::Div, x, y),
        BinaryOp::Rem => int_op(alloc, BinOp::Rem, x, y),
        BinaryOp::Add => sum(alloc, scope, x, y),
        BinaryOp::Sub => int_op(alloc, BinOp::Sub, x, y),
        BinaryOp::Less => int_op(alloc, BinOp::Less, x, y),
        BinaryOp::More => int_op(alloc, BinOp::More, x, y),
        BinaryOp::LessSame => int_op(alloc, BinOp::LessSame, x, y),
        BinaryOp::MoreSame => int_op(alloc, BinOp::MoreSame, x, y),
        BinaryOp::Same => equality(alloc, BinOp::Same, x, y),
        BinaryOp::Differs => equality(alloc, BinOp::Differs, x, y),
        BinaryOp::And => logical(alloc, true, x, y),
        BinaryOp::Or => logical(alloc, false, x, y),
    }
}

/// An operator of two operands.
pub(crate) fn binary(
    alloc: Global,
    scope: &Scope<'_>,
    op: BinaryOp,
    x: Operand,
    y: Operand,
) -> Result<Option<Operand>, NoMemory>
    ensures { IfOk result (λ r. r ≡ operators.binary (field_count scope.now) op x y) }
{
    let Some(x) = value_of(x) else {
        return Ok(None);
    };
    let Some(y) = value_of(y) else {
        return Ok(None);
    };
    binary_values(alloc, scope, op, x, y)
}
