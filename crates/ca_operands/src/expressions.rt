//! What an expression is, with its typed tree, and the faults in it.

ghost use Rattle.std.specs.Prelude.{◌≡◌, ◌&&◌, ◌||◌, not, IfOk, OnOk};
ghost use Rattle.ca_model.specs.typing.Expressions as expressions;
ghost use Rattle.ca_model.specs.typing.Operators as operators;
ghost use Rattle.ca_model.specs.typing.Places as places;
ghost use Rattle.ca_model.specs.typing.Scopes as scopes;
ghost use Rattle.ca_model.specs.typing.Values as values;
ghost use Rattle.ca_tree.specs.ExpressionTrees.{place_of};
ghost use Rattle.ca_operands.specs.Noted.{noted};
ghost use Rattle.ca_model.specs.typing.Faults.{fault, if_none, given, unless};
ghost use Rattle.ca_model.specs.declared.types.TypeKind.TheVariants.{Mismatch, NotLvalue, Unknown};

use crate::faults::Faults;
use crate::places::{struct_behind, struct_place};
use crate::scope::Scope;
use crate::{operators, places};
use ca_model::{Exp as TypedExp, Meaning, ObjectType, Operand, Place, TypeKind, ValueType};
use ca_tree::tree::{BinaryOp, Exp, Name, UnaryOp};
use ca_tree::{GlobalId, NoMemory, Pos, StructId};
use sqlite_items::Boxed;
use std::alloc::Global;

fn global_place(alloc: Global, global: GlobalId) -> Result<Place, NoMemory>
    ensures { IfOk result (λ p. p ≡ expressions.global_place global) }
{
    Ok(Place {
        base: Boxed::new(alloc, TypedExp::Global(global))?,
        index: None,
        field: 0,
        through: false,
    })
}

// What a name is by its meaning; an array is the address of its first cell (C11 6.3.2.1).
fn named(alloc: Global, means: Meaning) -> Result<Option<Operand>, NoMemory>
    ensures { IfOk result (λ r. r ≡ expressions.named means) }
{
    let operand = match means {
        Meaning::Mutex(_) | Meaning::Function(_) => Some(Operand::Name),
        Meaning::Global(global, Some(of)) => Some(Operand::Place(of, global_place(alloc, global)?)),
        Meaning::Array(global, Some(of)) => {
            let address = TypedExp::Global(global);
            Some(Operand::Value(ValueType::Pointer(of), address))
        }
        Meaning::Local(var, Some(of)) => Some(Operand::Local(of, var)),
        Meaning::Global(_, None) | Meaning::Array(_, None) | Meaning::Local(_, None) => None,
    };
    Ok(operand)
}

/// The place of an expression. Parentheses directly round it are no part of it.
pub fn place_of(exp: &Exp) -> Pos
    ensures { result ≡ place_of exp.now }
{
    match exp {
        Exp::Number(pos, _)
        | Exp::Null(pos)
        | Exp::Unary(pos, ..)
        | Exp::Binary(pos, ..)
        | Exp::Index(pos, ..)
        | Exp::Field(pos, ..)
        | Exp::Arrow(pos, ..) => *pos,
        Exp::Name(name) => name.pos,
    }
}

// What a rule gives; that it gives nothing is a fault at the whole.
fn ruled(faults: &mut Faults, pos: Pos, given: Option<Operand>) -> Option<Operand>
    ensures is { result ≡ given }
    ensures noted { faults.new.first ≡ noted faults.old.first (if_none (fault pos Mismatch) given) }
{
    if given.is_none() {
        faults.note(pos, TypeKind::Mismatch);
    }
    given
}

fn both(x: Option<Operand>, y: Option<Operand>) -> Option<(Operand, Operand)>
    ensures { result ≡ expressions.both x y }
{
    let x = x?;
    let y = y?;
    Some((x, y))
}

/// Whether an expression of this form can be a place: a name, `*e`, `e[i]`, `e.f` and `e->f` can (C11 6.3.2.1).
pub fn may_be_place(exp: &Exp) -> bool
    ensures { (s : scopes.Scope) → result ≡ (expressions.judged s exp.now).may_be_place }
{
    match exp {
        Exp::Name(_) | Exp::Index(..) | Exp::Field(..) | Exp::Arrow(..) => true,
        Exp::Unary(_, op, _) => *op == UnaryOp::Deref,
        Exp::Number(..) | Exp::Null(_) | Exp::Binary(..) => false,
    }
}

fn by_unary(alloc: Global, op: UnaryOp, operand: Operand) -> Result<Option<Operand>, NoMemory>
    ensures { IfOk result (λ r. r ≡ expressions.by_unary op operand) }
{
    match op {
        UnaryOp::Negate => operators::negated(alloc, operand),
        UnaryOp::Not => operators::denied(alloc, operand),
        UnaryOp::Deref => places::pointed(alloc, operand),
        UnaryOp::AddressOf => Ok(places::address(operand)),
    }
}

// An operator of an operand that isn't refused.
fn ruled_unary(
    alloc: Global,
    op: UnaryOp,
    of: Option<Operand>,
    pos: Pos,
    faults: &mut Faults,
) -> Result<Option<Operand>, NoMemory>
    ensures is { IfOk result (λ r. r ≡ values.also of (expressions.by_unary op)) }
    ensures noted { OnOk result (faults.new.first ≡ noted faults.old.first (given of (λ x. if_none (fault pos Mismatch) (expressions.by_unary op x)))) }
{
    let Some(of) = of else {
        return Ok(None);
    };
    let given = by_unary(alloc, op, of)?;
    Ok(ruled(faults, pos, given))
}

// Whether something is a place: it has the form of one, and one was found there where nothing in it is refused.
fn is_place(has_form: bool, is_typed: bool, is_found: bool) -> bool
    ensures { result ≡ (has_form && (not is_typed || is_found)) }
{
    has_form && (!is_typed || is_found)
}

/// Notes that an operand of `&` or a target is no place: by its form, or, where it isn't refused, since nothing was found
/// there.
pub fn unless_place(exp: &Exp, is_typed: bool, is_found: bool, faults: &mut Faults)
    ensures { (s : scopes.Scope) → faults.new.first ≡ noted faults.old.first (unless ((expressions.judged s exp.now).may_be_place && (not is_typed || is_found)) (fault (expressions.judged s exp.now).pos NotLvalue)) }
{
    let is_place = is_place(may_be_place(exp), is_typed, is_found);
    faults.unless(is_place, place_of(exp), TypeKind::NotLvalue);
}

fn addressed(of: Option<Operand>) -> Option<Operand>
    ensures { result ≡ values.also of places.address }
{
    places::address(of?)
}

// The address of an operand.
fn address_of(exp: &Exp, of: Option<Operand>, faults: &mut Faults) -> Option<Operand>
    ensures is { result ≡ values.also of places.address }
    ensures noted { (s : scopes.Scope) → of ≡ (expressions.judged s exp.now).is → faults.new.first ≡ noted faults.old.first (expressions.no_place (expressions.judged s exp.now) places.address) }
{
    let is_typed = of.is_some();
    let address = addressed(of);
    unless_place(exp, is_typed, address.is_some(), faults);
    address
}

// An operator of an operand.
fn unary(
    alloc: Global,
    op: UnaryOp,
    exp: &Exp,
    of: Option<Operand>,
    pos: Pos,
    faults: &mut Faults,
) -> Result<Option<Operand>, NoMemory>
    ensures is { IfOk result (λ r. r ≡ values.also of (expressions.by_unary op)) }
    ensures noted { (s : scopes.Scope) → of ≡ (expressions.judged s exp.now).is → OnOk result (faults.new.first ≡ noted faults.old.first (expressions.unary_faults op pos (expressions.judged s exp.now))) }
{
    match op {
        UnaryOp::AddressOf => Ok(address_of(exp, of, faults)),
        UnaryOp::Negate | UnaryOp::Not | UnaryOp::Deref => ruled_unary(alloc, op, of, pos, faults),
    }
}

// An operator of two operands, where none is refused.
fn binary(
    alloc: Global,
    scope: &Scope<'_>,
    op: BinaryOp,
    parts: Option<(Operand, Operand)>,
    pos: Pos,
    faults: &mut Faults,
) -> Result<Option<Operand>, NoMemory>
    ensures is { IfOk result (λ r. r ≡ values.also parts (λ x. operators.binary (scopes.field_count scope.now) op x.0 x.1)) }
    ensures noted { OnOk result (faults.new.first ≡ noted faults.old.first (given parts (λ x. if_none (fault pos Mismatch) (operators.binary (scopes.field_count scope.now) op x.0 x.1)))) }
{
    let Some((x, y)) = parts else {
        return Ok(None);
    };
    let given = operators::binary(alloc, scope, op, x, y)?;
    Ok(ruled(faults, pos, given))
}

// An element by its index, where none of both is refused.
fn indexed(
    alloc: Global,
    scope: &Scope<'_>,
    parts: Option<(Operand, Operand)>,
    pos: Pos,
    faults: &mut Faults,
) -> Result<Option<Operand>, NoMemory>
    ensures is { IfOk result (λ r. r ≡ values.also parts (λ x. places.indexed (scopes.field_count scope.now) x.0 x.1)) }
    ensures noted { OnOk result (faults.new.first ≡ noted faults.old.first (given parts (λ x. if_none (fault pos Mismatch) (places.indexed (scopes.field_count scope.now) x.0 x.1)))) }
{
    let Some((x, y)) = parts else {
        return Ok(None);
    };
    let given = places::indexed(alloc, scope, x, y)?;
    Ok(ruled(faults, pos, given))
}

// A field of a struct.
fn chosen(
    scope: &Scope<'_>,
    of: Option<(StructId, Place)>,
    name: &Name,
    pos: Pos,
    faults: &mut Faults,
) -> Option<Operand>
    ensures is { result ≡ expressions.chosen scope.now name.now of }
    ensures noted { faults.new.first ≡ noted faults.old.first (expressions.not_chosen scope.now pos name.now of) }
{
    let Some((id, place)) = of else {
        faults.note(pos, TypeKind::Mismatch);
        return None;
    };
    let Some((field, of)) = scope.field(id, name.text.as_slice()) else {
        faults.note(name.pos, TypeKind::Unknown);
        return None;
    };
    let of = of?;
    Some(Operand::Place(of, Place { field, ..place }))
}

// `a.f`, where `a` isn't refused.
fn field(
    scope: &Scope<'_>,
    of: Option<Operand>,
    name: &Name,
    pos: Pos,
    faults: &mut Faults,
) -> Option<Operand>
    ensures is { result ≡ values.also of (λ x. expressions.chosen scope.now name.now (places.struct_place x)) }
    ensures noted { faults.new.first ≡ noted faults.old.first (given of (λ x. expressions.not_chosen scope.now pos name.now (places.struct_place x))) }
{
    let of = of?;
    chosen(scope, struct_place(of), name, pos, faults)
}

// `a->f`, where `a` isn't refused.
fn arrow(
    alloc: Global,
    scope: &Scope<'_>,
    of: Option<Operand>,
    name: &Name,
    pos: Pos,
    faults: &mut Faults,
) -> Result<Option<Operand>, NoMemory>
    ensures is { IfOk result (λ r. r ≡ values.also of (λ x. expressions.chosen scope.now name.now (places.struct_behind x))) }
    ensures noted { OnOk result (faults.new.first ≡ noted faults.old.first (given of (λ x. expressions.not_chosen scope.now pos name.now (places.struct_behind x)))) }
{
    let Some(of) = of else {
        return Ok(None);
    };
    let of = struct_behind(alloc, of)?;
    Ok(chosen(scope, of, name, pos, faults))
}

fn name<'a>(
    alloc: Global,
    scope: &Scope<'a>,
    of: &'a Name,
    faults: &mut Faults,
) -> Result<Option<Operand>, NoMemory>
    ensures is { IfOk result (λ r. r ≡ values.also (scopes.meaning scope.now of.now.text) expressions.named) }
    ensures noted { OnOk result (faults.new.first ≡ noted faults.old.first (if_none (fault of.now.pos Unknown) (scopes.meaning scope.now of.now.text))) }
{
    let Some(means) = scope.meaning(of.text.as_slice()) else {
        faults.note(of.pos, TypeKind::Unknown);
        return Ok(None);
    };
    named(alloc, means)
}

/// What an expression is where nothing in it is refused (C11 6.5); the faults in it are noted.
#[tactic(auto, using(crate::proofs::Noting::noted_append))]
pub fn operand<'a>(
    alloc: Global,
    scope: &Scope<'a>,
    exp: &'a Exp,
    faults: &mut Faults,
) -> Result<Option<Operand>, NoMemory>
    ensures is { IfOk result (λ r. r ≡ (expressions.judged scope.now exp.now).is) }
    ensures noted { OnOk result (faults.new.first ≡ noted faults.old.first (expressions.judged scope.now exp.now).faults) }
{
    match exp {
        Exp::Number(_, number) => Ok(Some(Operand::Value(ValueType::Int, TypedExp::Num(*number)))),
        Exp::Null(_) => Ok(Some(Operand::Value(ValueType::Null, TypedExp::Null))),
        Exp::Name(of) => name(alloc, scope, of, faults),
        Exp::Unary(pos, op, of) => {
            let of = of.get();
            let part = operand(alloc, scope, of, faults)?;
            unary(alloc, *op, of, part, *pos, faults)
        }
        Exp::Binary(pos, op, left, right) => {
            let left = operand(alloc, scope, left.get(), faults)?;
            let right = operand(alloc, scope, right.get(), faults)?;
            binary(alloc, scope, *op, both(left, right), *pos, faults)
        }
        Exp::Index(pos, of, index) => {
            let of = operand(alloc, scope, of.get(), faults)?;
            let index = operand(alloc, scope, index.get(), faults)?;
            indexed(alloc, scope, both(of, index), *pos, faults)
        }
        Exp::Field(pos, of, name) => {
            let part = operand(alloc, scope, of.get(), faults)?;
            Ok(field(scope, part, name, *pos, faults))
        }
        Exp::Arrow(pos, of, name) => {
            let part = operand(alloc, scope, of.get(), faults)?;
            arrow(alloc, scope, part, name, *pos, faults)
        }
    }
}
