//! Calls of functions of the source (C11 6.5.2.2).

ghost use Rattle.std.specs.Prelude.{◌≡◌, ◌++◌, length, drop, IfOk, OnOk, Some};
ghost use Rattle.ca_bodies.specs.Arguments.{first_type};
ghost use Rattle.ca_bodies.specs.Functions.{context};
ghost use Rattle.ca_bodies.specs.Shown.{shown_aimed, shown_called, shown_signature};
ghost use Rattle.ca_model.specs.declared.types.TypeKind.TheVariants.{Unknown};
ghost use Rattle.ca_model.specs.typing.Calls as calls;
ghost use Rattle.ca_model.specs.typing.Faults.{fault, given, if_none};
ghost use Rattle.ca_model.specs.typing.Scopes as scopes;
ghost use Rattle.ca_model.specs.typing.Uses.{argument_faults, each_faults, values_in};
ghost use Rattle.ca_operands.specs.Noted.{noted};

use crate::functions::{Functions, Signature};
use crate::targets::Aim;
use ca_model::{
    Act, Exp as TypedExp, Exps, Meaning, ObjectType, Target, TypeKind, ValueType, Wanted,
};
use ca_operands::{Faults, Scope, fits, held, is_void, value_in};
use ca_tree::tree::{Call, Exp};
use ca_tree::{NoMemory, VarId};
use std::alloc::Global;

// The type of a parameter by its place; an argument that no parameter stands for goes anywhere.
fn parameter(of: Option<&Signature>, index: usize) -> Option<ObjectType>
    ensures { result ≡ first_type (drop index (calls.parameters_of (shown_called of.entry))) }
{
    let parameters = of?.parameters.as_slice();
    if index < parameters.len() {
        parameters[index]
    } else {
        None
    }
}

fn arguments<'a>(
    alloc: Global,
    scope: &Scope<'a>,
    of: Option<&Signature>,
    exps: &'a [Exp],
    faults: &mut Faults,
) -> Result<Exps, NoMemory>
    ensures is { IfOk result (λ r. r ≡ values_in scope.now exps.now) }
    ensures noted { OnOk result (faults.new.first ≡ noted faults.old.first (argument_faults scope.now (calls.parameters_of (shown_called of.entry)) exps.now)) }
{
    let mut values = Vec::new(alloc);
    for (index, exp) in exps.iter().enumerate() {
        let wanted = Wanted::OfType(parameter(of, index));
        let value = value_in(alloc, scope, wanted, exp, faults)?;
        values.push(value)?;
    }
    Ok(Exps::from_vec(values))
}

/// Values that all go into objects of one type; their faults are noted.
pub(crate) fn each_in<'a>(
    alloc: Global,
    scope: &Scope<'a>,
    of: ObjectType,
    exps: &'a [Exp],
    faults: &mut Faults,
) -> Result<Exps, NoMemory>
    ensures is { IfOk result (λ r. r ≡ values_in scope.now exps.now) }
    ensures noted { OnOk result (faults.new.first ≡ noted faults.old.first (each_faults scope.now of exps.now)) }
{
    let mut values = Vec::new(alloc);
    for exp in exps {
        let value = value_in(alloc, scope, Wanted::OfType(Some(of)), exp, faults)?;
        values.push(value)?;
    }
    Ok(Exps::from_vec(values))
}

fn value_goes_into(into: ObjectType, value: Option<ValueType>) -> bool
    ensures { result ≡ calls.value_goes_into into value }
{
    match value {
        Some(value) => fits(into, &(value, TypedExp::Null)),
        None => false,
    }
}

// Whether a result goes into an object; a refused type goes anywhere.
fn result_goes_into(of: Option<ObjectType>, into: Option<ObjectType>) -> bool
    ensures { result ≡ calls.result_goes_into of into }
{
    match (of, into) {
        (Some(of), Some(into)) => value_goes_into(into, held(of)),
        _ => true,
    }
}

fn is_no_void(of: Option<ObjectType>) -> bool
    ensures { result ≡ calls.is_no_void of }
{
    match of {
        Some(of) => !is_void(of),
        None => true,
    }
}

fn is_local(at: &Option<Target>) -> bool
    ensures { result ≡ calls.is_local at.now }
{
    match at {
        Some(Target::Place(_)) => false,
        Some(Target::Local(_)) | None => true,
    }
}

// The result of a call is dropped, or goes into a local.
fn takes_result(aim: Option<&Aim>, of: &Signature) -> bool
    ensures { result ≡ calls.takes_result (shown_aimed aim.entry) (shown_signature of.now) }
{
    match aim {
        Some(aim) => {
            is_no_void(of.result) && (is_local(&aim.at) && result_goes_into(of.result, aim.of))
        }
        None => true,
    }
}

// Whether a function may be called there: not `main`, with as many arguments as it has parameters, and its result goes
// where it is wanted.
fn is_callable(aim: Option<&Aim>, name: &[u8], count: usize, of: Option<&Signature>) -> bool
    ensures { result ≡ calls.is_callable (shown_aimed aim.entry) name.now count (shown_called of.entry) }
{
    match of {
        Some(of) => {
            name != b"main".as_slice()
                && (count == of.parameters.as_slice().len() && takes_result(aim, of))
        }
        None => false,
    }
}

/// The types of the function that a name means, where it means one.
pub fn called<'f>(functions: &'f Functions<'_>, means: Option<Meaning>) -> Option<&'f Signature>
    ensures { (s : scopes.Scope) → shown_called result ≡ calls.signature_of (context s functions.now) means }
{
    functions.signature(means?)
}

fn note_call(
    means: Option<Meaning>,
    of: Option<&Signature>,
    aim: Option<&Aim>,
    call: &Call,
    faults: &mut Faults,
)
    ensures { faults.new.first ≡ noted faults.old.first (if_none (fault call.now.name.pos Unknown) means ++ given means (λ m. calls.known_call_faults (shown_aimed aim.entry) call.now (shown_called of.entry))) }
{
    if means.is_none() {
        faults.note(call.name.pos, TypeKind::Unknown);
        return;
    }
    let count = call.arguments.as_slice().len();
    let is_callable = is_callable(aim, call.name.text.as_slice(), count, of);
    faults.unless(is_callable, call.name.pos, TypeKind::Mismatch);
}

/// A call of a function of the source, whose result is dropped, or goes to a target; its faults are noted.
pub fn call<'a>(
    alloc: Global,
    scope: &Scope<'a>,
    functions: &Functions<'a>,
    aim: Option<&Aim>,
    to: Option<VarId>,
    call: &'a Call,
    faults: &mut Faults,
) -> Result<Act, NoMemory>
    ensures is { IfOk result (λ r. r ≡ calls.call_act (context scope.now functions.now) to call.now) }
    ensures noted { OnOk result (faults.new.first ≡ noted faults.old.first (calls.call_faults (context scope.now functions.now) (shown_aimed aim.entry) call.now)) }
{
    let name = call.name.text.as_slice();
    let means = scope.meaning(name);
    let of = called(functions, means);
    let arguments = arguments(alloc, scope, of, call.arguments.as_slice(), faults)?;
    note_call(means, of, aim, call, faults);
    Ok(Act::Call(to, functions.function_id(name), arguments))
}
