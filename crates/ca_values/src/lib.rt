//! Values of the machine and their operators.
#![tactic(auto)]

ghost use Rattle.std.specs.Prelude.{◌≡◌, ◌-ℤ◌, pos};
ghost use Rattle.std.specs.Result.{result_ok};
ghost use Rattle.ca_model.specs.Arith as arith_of;

use ca_model::{Addr, BinOp, LoadKind, Value};

/// An operator has no result: the fault `arith` (C11 6.5).
#[derive(Clone, Copy, Debug, PartialEq, Eq)]
pub struct Arith;

/// What an operator gives for two numbers. It has no result where that leaves 32 bits, and at a divisor 0 (C11 6.5.5,
/// 6.5.6, 6.5.8, 6.5.9). Comparisons give 1 or 0.
pub fn binary(op: BinOp, a: i32, b: i32) -> Result<i32, Arith>
    ensures { result_ok result ≡ arith_of.binary op a b }
{
    match op {
        BinOp::Add => a.checked_add(b).ok_or(Arith),
        BinOp::Sub => a.checked_sub(b).ok_or(Arith),
        BinOp::Mul => a.checked_mul(b).ok_or(Arith),
        BinOp::Div => a.checked_div(b).ok_or(Arith),
        BinOp::Rem => a.checked_rem(b).ok_or(Arith),
        BinOp::Less => Ok(i32::from(a < b)),
        BinOp::LessSame => Ok(i32::from(a <= b)),
        BinOp::More => Ok(i32::from(a > b)),
        BinOp::MoreSame => Ok(i32::from(a >= b)),
        BinOp::Same => Ok(i32::from(a == b)),
        BinOp::Differs => Ok(i32::from(a != b)),
    }
}

/// The negative of a number, but for the least one (C11 6.5.3.3).
pub fn negate(a: i32) -> Result<i32, Arith>
    ensures { result_ok result ≡ arith_of.in32 (pos 0 -ℤ a) }
{
    a.checked_neg().ok_or(Arith)
}

/// False exactly for the number 0.
pub fn truth(v: Value) -> bool
    ensures { result ≡ arith_of.truth v }
{
    match v {
        Value::Num(n) => n != 0,
        Value::Addr(_) => true,
    }
}

/// Whether two values are one.
pub fn same(a: Value, b: Value) -> bool
    ensures { result ≡ arith_of.same a b }
{
    match (a, b) {
        (Value::Num(m), Value::Num(n)) => m == n,
        (Value::Addr(p), Value::Addr(q)) => p.block == q.block && p.offset == q.offset,
        (Value::Num(_), Value::Addr(_)) | (Value::Addr(_), Value::Num(_)) => false,
    }
}

/// A value moved by a number of cells (C11 6.5.6).
pub fn displace(v: Value, by: i64) -> Result<Value, Arith>
    ensures { result_ok result ≡ arith_of.displaced v by }
{
    match v {
        Value::Num(n) => {
            if by == 0 {
                Ok(Value::Num(n))
            } else {
                Err(Arith)
            }
        }
        Value::Addr(a) => {
            let sum = i64::from(a.offset).checked_add(by).ok_or(Arith)?;
            let offset = i32::try_from(sum).map_err(|_| Arith)?;
            Ok(Value::Addr(Addr {
                block: a.block,
                offset,
            }))
        }
    }
}

// The number that a value is, and 0 for an address.
fn number(v: Value) -> i32
    ensures { result ≡ arith_of.number v }
{
    match v {
        Value::Num(n) => n,
        Value::Addr(_) => 0,
    }
}

/// What an operator gives for two values. Addresses can be compared alone: for any other operator an address counts as
/// 0, which no typed source meets (C11 6.5).
pub fn operated(op: BinOp, a: Value, b: Value) -> Result<Value, Arith>
    ensures { result_ok result ≡ arith_of.operated op a b }
{
    match op {
        BinOp::Same => Ok(Value::Num(i32::from(same(a, b)))),
        BinOp::Differs => Ok(Value::Num(i32::from(!same(a, b)))),
        _ => binary(op, number(a), number(b)).map(Value::Num),
    }
}

/// Whether a cell's value fits the type that it is loaded at. Where it doesn't, the load is the fault `kind`.
pub fn suits(kind: LoadKind, v: Value) -> bool
    ensures { result ≡ arith_of.suits kind v }
{
    match (kind, v) {
        (LoadKind::Pointer, Value::Num(n)) => n == 0,
        (LoadKind::Pointer, Value::Addr(_)) => true,
        (LoadKind::Int | LoadKind::Thread, Value::Num(_)) => true,
        (LoadKind::Int | LoadKind::Thread, Value::Addr(_)) => false,
    }
}

#[cfg(test)]
mod tests;
