//! Prototypes and definitions of functions by their types (C11 6.7.6.3).

ghost use Rattle.std.specs.Prelude.{◌≡◌, map, IfOk};
ghost use Rattle.std.specs.Option.{option_map};
ghost use Rattle.ca_bodies.specs.Shown.{shown_function, shown_signature};
ghost use Rattle.ca_model.specs.typing.Signatures as signatures;
ghost use Rattle.ca_model.specs.typing.LibraryCalls.{is_void_pointer};
ghost use Rattle.std.specs.List.{list_any};
ghost use Rattle.ca_operands.specs.Noted.{noted};

use ca_bodies::{FunctionEntry, Signature, both_same, is_void_pointer, only_void_pointer, type_in};
use ca_model::ObjectType;
use ca_operands::{Faults, Scope, VOID, VOID_POINTER, note_type};
use ca_tree::tree::{Function, Parameter, ParameterType, ResultType};
use ca_tree::{Listed, NoMemory};
use std::alloc::Global;

/// The type of what a function gives.
pub fn result_type<'a>(scope: &Scope<'a>, of: &'a ResultType) -> Option<ObjectType>
    ensures { result ≡ signatures.result_type scope.now of.now }
{
    match of {
        ResultType::Void => Some(VOID),
        ResultType::Pointer => Some(VOID_POINTER),
        ResultType::Value(of) => type_in(scope, of),
    }
}

/// Notes that the tag of a result isn't declared.
pub fn note_result<'a>(scope: &Scope<'a>, of: &'a ResultType, faults: &mut Faults)
    ensures { faults.new.first ≡ noted faults.old.first (signatures.result_faults scope.now of.now) }
{
    if let ResultType::Value(of) = of {
        note_type(scope, &of.base, faults);
    }
}

/// The type of a parameter.
pub(crate) fn parameter_type<'a>(scope: &Scope<'a>, of: &'a ParameterType) -> Option<ObjectType>
    ensures { result ≡ signatures.of_parameter scope.now of.now }
{
    match of {
        ParameterType::Pointer => Some(VOID_POINTER),
        ParameterType::Value(of) => type_in(scope, of),
    }
}

fn note_parameter<'a>(scope: &Scope<'a>, of: &'a ParameterType, faults: &mut Faults)
    ensures { faults.new.first ≡ noted faults.old.first (signatures.of_parameter_faults scope.now of.now) }
{
    if let ParameterType::Value(of) = of {
        note_type(scope, &of.base, faults);
    }
}

/// Notes the tags of parameters that aren't declared.
pub fn note_parameters<'a>(scope: &Scope<'a>, parameters: &'a [Parameter], faults: &mut Faults)
    ensures { faults.new.first ≡ noted faults.old.first (signatures.parameter_faults scope.now parameters.now) }
{
    for parameter in parameters {
        note_parameter(scope, &parameter.of, faults);
    }
}

/// A function by its types.
pub fn signature<'a>(
    alloc: Global,
    scope: &Scope<'a>,
    of: &'a Function,
) -> Result<Signature, NoMemory>
    ensures { IfOk result (λ g. shown_signature g ≡ signatures.signature scope.now of.now) }
{
    let mut parameters = Vec::new(alloc);
    for parameter in of.parameters.as_slice() {
        parameters.push(parameter_type(scope, &parameter.of))?;
    }
    Ok(Signature {
        result: result_type(scope, &of.result),
        parameters: Listed::from_vec(parameters),
    })
}

/// Whether a `void *` is a parameter or a result in `void *f(void *x)` alone.
pub fn void_pointers_allowed(of: &Signature) -> bool
    ensures { result ≡ signatures.void_pointers_allowed (shown_signature of.now) }
{
    let parameters = of.parameters.as_slice();
    let gives_one = is_void_pointer(of.result);
    let has_one = gives_one || takes_void_pointer(parameters);
    !has_one || (gives_one && only_void_pointer(parameters))
}

fn takes_void_pointer(parameters: &[Option<ObjectType>]) -> bool
    ensures { result ≡ list_any is_void_pointer parameters.now }
{
    for of in parameters {
        if is_void_pointer(*of) {
            return true;
        }
    }
    false
}

fn all_same(a: &[Option<ObjectType>], b: &[Option<ObjectType>]) -> bool
    ensures { result ≡ signatures.all_same a.now b.now }
{
    let mut rest = a;
    let mut others = b;
    'types: while let Some((of, more)) = rest.split_first() {
        let Some((other, behind)) = others.split_first() else {
            return false;
        };
        if !both_same(*of, *other) {
            return false;
        }
        rest = more;
        others = behind;
    }
    others.is_empty()
}

fn agree(a: &Signature, b: &Signature) -> bool
    ensures { result ≡ signatures.agree (shown_signature a.now) (shown_signature b.now) }
{
    both_same(a.result, b.result) && all_same(a.parameters.as_slice(), b.parameters.as_slice())
}

fn all_agree(of: &Signature, others: &[Signature]) -> bool
    ensures { result ≡ signatures.all_agree (shown_signature of.now) (map shown_signature others.now) }
{
    for other in others {
        if !agree(of, other) {
            return false;
        }
    }
    true
}

fn agrees_with(of: &Signature, other: &Option<Signature>) -> bool
    ensures { result ≡ signatures.agrees_with (shown_signature of.now) (option_map shown_signature other.now) }
{
    match other {
        Some(other) => agree(of, other),
        None => true,
    }
}

/// Whether a definition agrees with its prototypes, or a prototype with the definition before it.
pub fn fits_others(is_definition: bool, of: &Signature, others: Option<&FunctionEntry>) -> bool
    ensures { result ≡ signatures.fits_others is_definition (shown_signature of.now) (option_map (λ f. shown_function f.now) others.entry) }
{
    match others {
        Some(others) if is_definition => all_agree(of, others.prototypes.as_slice()),
        Some(others) => agrees_with(of, &others.definition),
        None => true,
    }
}

/// Whether all parameters have names.
pub fn all_named(parameters: &[Parameter]) -> bool
    ensures { result ≡ signatures.all_named parameters.now }
{
    for parameter in parameters {
        if parameter.name.is_none() {
            return false;
        }
    }
    true
}
