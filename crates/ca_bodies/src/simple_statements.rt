//! Simple statements (C11 6.8.3).

ghost use Rattle.std.specs.Prelude.{◌≡◌, ◌++◌, IfOk, OnOk};
ghost use Rattle.ca_bodies.specs.Functions.{context};
ghost use Rattle.ca_model.specs.declared.types.TypeKind.TheVariants.{Mismatch};
ghost use Rattle.ca_bodies.specs.Updates.{is_allowed};
ghost use Rattle.ca_model.specs.declared.tree.Act.TheVariants.{Update};
ghost use Rattle.ca_model.specs.typing.Expressions.{judged};
ghost use Rattle.ca_model.specs.typing.Faults.{fault, unless};
ghost use Rattle.ca_model.specs.typing.RightSides.{right_faults, set_act};
ghost use Rattle.ca_model.specs.typing.SimpleStatements as simple;
ghost use Rattle.ca_model.specs.typing.Targets.{aim, aim_faults, aim_of, target_at, target_of};
ghost use Rattle.ca_model.specs.typing.Uses.{value_in, value_or_zero};
ghost use Rattle.ca_model.specs.typing.Values.{also, value_of};
ghost use Rattle.ca_operands.specs.Noted.{noted};

use crate::calls::call;
use crate::functions::Functions;
use crate::library_calls::library_call;
use crate::right_sides::right_side;
use crate::targets::{Aim, aim_at, target, target_at};
use ca_model::{Act, BinOp, ObjectType, Operand, Target, TypeKind, Wanted};
use ca_operands::{
    Faults, INT, Scope, TypedValue, operand, same_object, value_is_wanted, value_of, value_or_zero,
};
use ca_tree::tree::{Exp, Right, Simple, UpdateOp};
use ca_tree::{NoMemory, Pos};
use std::alloc::Global;

fn binary_of(op: UpdateOp) -> BinOp
    ensures { result ≡ simple.binary_of op }
{
    match op {
        UpdateOp::Add => BinOp::Add,
        UpdateOp::Sub => BinOp::Sub,
        UpdateOp::Mul => BinOp::Mul,
        UpdateOp::Div => BinOp::Div,
        UpdateOp::Rem => BinOp::Rem,
    }
}

fn valued(operand: Option<Operand>) -> Option<TypedValue>
    ensures { result ≡ also operand value_of }
{
    value_of(operand?)
}

// The target and the operand of an update are `int`; nothing is found where one of them is refused.
fn is_allowed(of: Option<ObjectType>, is_typed: bool, value: &Option<TypedValue>) -> bool
    ensures { result ≡ is_allowed of is_typed value.now }
{
    match of {
        Some(of) if is_typed => {
            same_object(of, INT) && value_is_wanted(Wanted::OfType(Some(INT)), value)
        }
        _ => true,
    }
}

// The act of an update by its parts.
fn updated(
    found: Option<(ObjectType, Target)>,
    op: UpdateOp,
    operand: Option<Operand>,
    pos: Pos,
    faults: &mut Faults,
) -> Act
    ensures is { result ≡ Update (target_at (aim_of found).at) (simple.binary_of op) (value_or_zero (also operand value_of)) }
    ensures noted { faults.new.first ≡ noted faults.old.first (unless (simple.update_allowed found operand) (fault pos Mismatch)) }
{
    let aim = Aim::of_target(found);
    let is_typed = operand.is_some();
    let value = valued(operand);
    faults.unless(
        is_allowed(aim.of, is_typed, &value),
        pos,
        TypeKind::Mismatch,
    );
    Act::Update(target_at(aim.at), binary_of(op), value_or_zero(value))
}

// `op=`, `++` and `--`, in a statement that begins at a place (C11 6.5.16.2, 6.5.2.4).
fn update<'a>(
    alloc: Global,
    scope: &Scope<'a>,
    to: &'a Exp,
    op: UpdateOp,
    exp: &'a Exp,
    pos: Pos,
    faults: &mut Faults,
) -> Result<Act, NoMemory>
    ensures is { IfOk result (λ r. r ≡ Update (target_at (aim scope.now to.now).at) (simple.binary_of op) (value_in scope.now exp.now)) }
    ensures noted { OnOk result (faults.new.first ≡ noted faults.old.first (aim_faults scope.now to.now ++ (judged scope.now exp.now).faults ++ unless (simple.update_allowed (also (judged scope.now to.now).is target_of) (judged scope.now exp.now).is) (fault pos Mismatch))) }
{
    let found = target(alloc, scope, to, faults)?;
    let operand = operand(alloc, scope, exp, faults)?;
    Ok(updated(found, op, operand, pos, faults))
}

// An assignment.
fn set<'a>(
    alloc: Global,
    scope: &Scope<'a>,
    functions: &Functions<'a>,
    to: &'a Exp,
    right: &'a Right,
    faults: &mut Faults,
) -> Result<Act, NoMemory>
    ensures is { IfOk result (λ r. r ≡ set_act (context scope.now functions.now) (aim scope.now to.now) right.now) }
    ensures noted { OnOk result (faults.new.first ≡ noted faults.old.first (aim_faults scope.now to.now ++ right_faults (context scope.now functions.now) (aim scope.now to.now) right.now)) }
{
    let aim = aim_at(alloc, scope, to, faults)?;
    right_side(alloc, scope, functions, aim, right, faults)
}

/// The act of a simple statement that begins at a place; its faults are noted.
pub fn simple_statement<'a>(
    alloc: Global,
    scope: &Scope<'a>,
    functions: &Functions<'a>,
    pos: Pos,
    statement: &'a Simple,
    faults: &mut Faults,
) -> Result<Act, NoMemory>
    ensures is { IfOk result (λ r. r ≡ simple.simple_act (context scope.now functions.now) statement.now) }
    ensures noted { OnOk result (faults.new.first ≡ noted faults.old.first (simple.simple_faults (context scope.now functions.now) pos statement.now)) }
{
    match statement {
        Simple::Set(to, right) => set(alloc, scope, functions, to, right, faults),
        Simple::Update(to, op, exp) => update(alloc, scope, to, *op, exp, pos, faults),
        Simple::Call(of) => call(alloc, scope, functions, None, None, of, faults),
        Simple::Library(of) => library_call(alloc, scope, functions, pos, of, faults),
    }
}
