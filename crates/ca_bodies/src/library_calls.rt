//! Calls of the library (C11 7; POSIX `pthread_create`, `pthread_join`, `pthread_mutex_lock`).

ghost use Rattle.std.specs.Prelude.{◌≡◌, ◌++◌, ◌==◌, length, IfOk, OnOk, Some};
ghost use Rattle.ca_bodies.specs.Functions.{context};
ghost use Rattle.ca_bodies.specs.Shown.{shown_called};
ghost use Rattle.ca_model.specs.declared.types.TypeKind.TheVariants.{Directive, Mismatch, ThreadForm, Unknown};
ghost use Rattle.ca_model.specs.typing.Calls.{signature_of};
ghost use Rattle.ca_model.specs.typing.Faults.{fault, given, if_none, unless};
ghost use Rattle.ca_model.specs.typing.Formats as formats;
ghost use Rattle.ca_model.specs.typing.LibraryCalls as library;
ghost use Rattle.ca_model.specs.typing.Scopes as scopes;
ghost use Rattle.ca_model.specs.declared.tree.Act.TheVariants.{Print};
ghost use Rattle.ca_model.specs.typing.Types.{int};
ghost use Rattle.ca_model.specs.typing.Uses.{each_faults, values_in};
ghost use Rattle.ca_operands.specs.Noted.{noted};
ghost use Rattle.ca_tree.specs.declared.tree.Library.TheVariants.{Create};

use crate::calls::{called, each_in};
use crate::formats::{directives, is_format};
use crate::functions::{Functions, Signature};
use ca_model::{Act, Meaning, ObjectType, TypeKind, Wanted};
use ca_operands::{Faults, INT, Scope, THREAD, VOID_POINTER, same_object, value_in};
use ca_tree::tree::{Exp, Library, Name};
use ca_tree::{MutexId, NoMemory, Pos, Text, VarId};
use std::alloc::Global;

fn mutex_of(means: Meaning) -> Option<MutexId>
    ensures { result ≡ library.mutex_of (Some means) }
{
    match means {
        Meaning::Mutex(id) => Some(id),
        _ => None,
    }
}

// The mutex that a name means; the first stands for one that was refused.
fn mutex<'a>(scope: &Scope<'a>, name: &'a Name, faults: &mut Faults) -> MutexId
    ensures is { result ≡ library.mutex scope.now name.now }
    ensures noted { faults.new.first ≡ noted faults.old.first (library.mutex_faults scope.now name.now) }
{
    let Some(means) = scope.meaning(name.text.as_slice()) else {
        faults.note(name.pos, TypeKind::Unknown);
        return MutexId(0);
    };
    let Some(id) = mutex_of(means) else {
        faults.note(name.pos, TypeKind::Mismatch);
        return MutexId(0);
    };
    id
}

fn is_thread(of: Option<ObjectType>) -> bool
    ensures { result ≡ library.is_thread of }
{
    match of {
        Some(of) => same_object(of, THREAD),
        None => true,
    }
}

// The local that takes the number of a thread.
fn thread_local(means: Meaning) -> Option<VarId>
    ensures { result ≡ library.thread_local (Some means) }
{
    match means {
        Meaning::Local(var, of) => { if is_thread(of) { Some(var) } else { None } }
        _ => None,
    }
}

// The local that a name means; the first stands for one that was refused.
fn thread<'a>(scope: &Scope<'a>, name: &'a Name, faults: &mut Faults) -> VarId
    ensures is { result ≡ library.var_or_first (library.thread_local (scopes.meaning scope.now name.now.text)) }
    ensures noted { faults.new.first ≡ noted faults.old.first (if_none (fault name.now.pos Unknown) (scopes.meaning scope.now name.now.text) ++ given (scopes.meaning scope.now name.now.text) (λ m. if_none (fault name.now.pos Mismatch) (library.thread_local (Some m)))) }
{
    let Some(means) = scope.meaning(name.text.as_slice()) else {
        faults.note(name.pos, TypeKind::Unknown);
        return VarId(0);
    };
    let Some(var) = thread_local(means) else {
        faults.note(name.pos, TypeKind::Mismatch);
        return VarId(0);
    };
    var
}

/// Whether a type is `void *`.
pub fn is_void_pointer(of: Option<ObjectType>) -> bool
    ensures { result ≡ library.is_void_pointer of }
{
    match of {
        Some(of) => same_object(of, VOID_POINTER),
        None => false,
    }
}

/// Whether the parameters of a function are one `void *`.
pub fn only_void_pointer(parameters: &[Option<ObjectType>]) -> bool
    ensures { result ≡ library.only_void_pointer parameters.now }
{
    parameters.len() == 1 && is_void_pointer(parameters[0])
}

// Whether a function has the form `void *f(void *x)`.
fn is_thread_function(of: Option<&Signature>) -> bool
    ensures { result ≡ library.is_thread_function (shown_called of.entry) }
{
    match of {
        Some(of) => is_void_pointer(of.result) && only_void_pointer(of.parameters.as_slice()),
        None => false,
    }
}

fn note_thread_function<'a>(
    scope: &Scope<'a>,
    functions: &Functions<'a>,
    name: &'a Name,
    faults: &mut Faults,
)
    ensures { faults.new.first ≡ noted faults.old.first (if_none (fault name.now.pos Unknown) (scopes.meaning scope.now name.now.text) ++ given (scopes.meaning scope.now name.now.text) (λ m. unless (library.is_thread_function (signature_of (context scope.now functions.now) (Some m))) (fault name.now.pos ThreadForm))) }
{
    let Some(means) = scope.meaning(name.text.as_slice()) else {
        faults.note(name.pos, TypeKind::Unknown);
        return;
    };
    let is_right = is_thread_function(functions.signature(means));
    faults.unless(is_right, name.pos, TypeKind::ThreadForm);
}

// `pthread_create`
fn create<'a>(
    alloc: Global,
    scope: &Scope<'a>,
    functions: &Functions<'a>,
    local: &'a Name,
    function: &'a Name,
    argument: &'a Exp,
    faults: &mut Faults,
) -> Result<Act, NoMemory>
    ensures is { IfOk result (λ r. r ≡ library.library_act (context scope.now functions.now) (Create local.now function.now argument.now)) }
    ensures noted { OnOk result (faults.new.first ≡ noted faults.old.first (library.create_faults (context scope.now functions.now) local.now function.now argument.now)) }
{
    let var = thread(scope, local, faults);
    note_thread_function(scope, functions, function, faults);
    let wanted = Wanted::OfType(Some(VOID_POINTER));
    let argument = value_in(alloc, scope, wanted, argument, faults)?;
    let id = functions.function_id(function.text.as_slice());
    Ok(Act::Create(var, id, argument))
}

// `printf`, by the places of its word and of its format.
fn print<'a>(
    alloc: Global,
    scope: &Scope<'a>,
    word: Pos,
    string: Pos,
    format: &Text,
    arguments: &'a [Exp],
    faults: &mut Faults,
) -> Result<Act, NoMemory>
    ensures is { IfOk result (λ r. r ≡ Print format.now (values_in scope.now arguments.now)) }
    ensures noted { OnOk result (faults.new.first ≡ noted faults.old.first (unless (formats.is_format format.now) (fault string Directive) ++ unless (formats.directives format.now == length arguments.now) (fault word Mismatch) ++ each_faults scope.now int arguments.now)) }
{
    let bytes = format.as_slice();
    faults.unless(is_format(bytes), string, TypeKind::Directive);
    let is_right = directives(bytes) == arguments.len();
    faults.unless(is_right, word, TypeKind::Mismatch);
    let arguments = each_in(alloc, scope, INT, arguments, faults)?;
    Ok(Act::Print(Text::from_vec(bytes.to_vec(alloc)?), arguments))
}

/// A call of the library, whose word stands at a place; its faults are noted.
pub fn library_call<'a>(
    alloc: Global,
    scope: &Scope<'a>,
    functions: &Functions<'a>,
    pos: Pos,
    call: &'a Library,
    faults: &mut Faults,
) -> Result<Act, NoMemory>
    ensures is { IfOk result (λ r. r ≡ library.library_act (context scope.now functions.now) call.now) }
    ensures noted { OnOk result (faults.new.first ≡ noted faults.old.first (library.library_faults (context scope.now functions.now) pos call.now)) }
{
    match call {
        Library::Lock(name) => Ok(Act::Lock(mutex(scope, name, faults))),
        Library::Unlock(name) => Ok(Act::Unlock(mutex(scope, name, faults))),
        Library::Create(local, function, argument) => {
            create(alloc, scope, functions, local, function, argument, faults)
        }
        Library::Join(thread) => {
            let wanted = Wanted::OfType(Some(THREAD));
            Ok(Act::Join(value_in(alloc, scope, wanted, thread, faults)?))
        }
        Library::Free(pointer) => {
            let wanted = Wanted::OfType(Some(VOID_POINTER));
            Ok(Act::Free(value_in(alloc, scope, wanted, pointer, faults)?))
        }
        Library::Assert(condition) => {
            let condition = value_in(alloc, scope, Wanted::Scalar, condition, faults)?;
            Ok(Act::Assert(condition))
        }
        Library::Print(string, format, arguments) => {
            print(
                alloc,
                scope,
                pos,
                *string,
                format,
                arguments.as_slice(),
                faults,
            )
        }
    }
}
