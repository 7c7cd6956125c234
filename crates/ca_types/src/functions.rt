//! Declarations of functions (C11 6.7.6.3, 6.9.1).

ghost use Rattle.std.specs.Prelude.{◌≡◌, ◌<◌, ◌≤◌, ◌^◌, ◌||◌, ◌++◌, [], not, is_some, length, IfOk, OnOk};
ghost use Rattle.std.specs.Option.{option_map};
ghost use Rattle.ca_bodies.specs.Functions.{context};
ghost use Rattle.ca_bodies.specs.Shown.{shown_function, shown_signature};
ghost use Rattle.ca_model.specs.typing.Scopes as scopes;
ghost use Rattle.ca_model.specs.typing.Signatures as signatures;
ghost use Rattle.ca_model.specs.typing.Bodies.{Told};
ghost use Rattle.ca_model.specs.typing.Functions as bodies;
ghost use Rattle.ca_blocks.specs.Shown.{GrewTo};
ghost use Rattle.ca_types.specs.Whole.{told_whole};
ghost use Rattle.ca_operands.specs.Noted.{noted};

use crate::signatures::{
    all_named, fits_others, note_parameters, note_result, parameter_type, result_type, signature,
    void_pointers_allowed,
};
use ca_blocks::Inside;
use ca_blocks::statements::statements;
use ca_bodies::{FunctionEntry, Functions, Signature};
use ca_expressions::reserved::is_library_word;
use ca_model::{Act, Function as TypedFunction, Item, Meaning, Stmt as TypedStmt, Stmts, TypeKind};
use ca_operands::{Faults, Scope};
use ca_tree::tree::{Body, Function, Parameter};
use ca_tree::{FunId, NoMemory};
use std::alloc::Global;

// A function that was declared before, by its name.
fn declared_before<'f, 'a>(
    scope: &Scope<'a>,
    functions: &'f Functions<'a>,
    name: &'a [u8],
) -> Option<&'f FunctionEntry>
    ensures { option_map (λ f. shown_function f.now) result ≡ signatures.function_named (context scope.now functions.now) name.now }
{
    let means = scope.global(name)?;
    functions.entry(means)
}

// Whether a declaration may stand behind those before it: its name means nothing else, and it is no second definition.
fn may_follow(is_definition: bool, is_known: bool, before: Option<&FunctionEntry>) -> bool
    ensures { result ≡ signatures.may_follow is_definition is_known (option_map (λ f. shown_function f.now) before.entry) }
{
    match before {
        Some(before) => !(is_definition && before.definition.is_some()),
        None => !is_known,
    }
}

fn is_new<'a>(scope: &Scope<'a>, functions: &Functions<'a>, of: &'a Function) -> bool
    ensures { result ≡ signatures.is_new (context scope.now functions.now) of.now }
{
    let name = of.name.text.as_slice();
    let is_known = scope.global(name).is_some();
    let before = declared_before(scope, functions, name);
    !is_library_word(name) && may_follow(of.body.is_some(), is_known, before)
}

fn names_are_right(of: &Function) -> bool
    ensures { result ≡ (not (is_some of.now.body) || signatures.all_named of.now.parameters) }
{
    of.body.is_none() || all_named(of.parameters.as_slice())
}

fn is_right<'a>(
    scope: &Scope<'a>,
    functions: &Functions<'a>,
    of: &'a Function,
    given: &Signature,
) -> bool
    ensures { result ≡ signatures.is_right (context scope.now functions.now) of.now (shown_signature given.now) }
{
    let before = declared_before(scope, functions, of.name.text.as_slice());
    void_pointers_allowed(given)
        && (names_are_right(of) && fits_others(of.body.is_some(), given, before))
}

fn is_defined<'a>(functions: &Functions<'a>, of: &'a Function) -> bool
    ensures { (s : scopes.Scope) → result ≡ (is_some of.now.body || signatures.is_defined (context s functions.now) of.now.name.text) }
{
    of.body.is_some() || functions.is_defined(of.name.text.as_slice())
}

// The faults of a declaration by the types that it gives.
fn note_function<'a>(
    scope: &Scope<'a>,
    functions: &Functions<'a>,
    of: &'a Function,
    given: &Signature,
    faults: &mut Faults,
)
    requires { shown_signature given.now ≡ signatures.signature scope.now of.now }
    ensures { faults.new.first ≡ noted faults.old.first (signatures.function_faults (context scope.now functions.now) of.now) }
{
    note_result(scope, &of.result, faults);
    note_parameters(scope, of.parameters.as_slice(), faults);
    let pos = of.name.pos;
    faults.unless(is_new(scope, functions, of), pos, TypeKind::Twice);
    let is_right = is_right(scope, functions, of, given);
    faults.unless(is_right, pos, TypeKind::Mismatch);
    faults.unless(is_defined(functions, of), pos, TypeKind::Unknown);
}

// The function by this declaration too.
fn declare_function<'a>(
    alloc: Global,
    scope: &mut Scope<'a>,
    functions: &mut Functions<'a>,
    of: &'a Function,
    given: Signature,
) -> Result<(), NoMemory>
    requires { shown_signature given ≡ signatures.signature scope.old of.now }
    ensures { OnOk result (context scope.new functions.new ≡ signatures.with_signature (context scope.old functions.old) of.now) }
{
    let name = of.name.text.as_slice();
    let is_definition = of.body.is_some();
    match scope.global(name) {
        Some(Meaning::Function(index)) => functions.declare_too(index, is_definition, given),
        _ => {
            let index = functions.count();
            functions.add(alloc, is_definition, given)?;
            scope.declare_global(name, Meaning::Function(index))
        }
    }
}

fn parameter<'a>(
    inside: &mut Inside<'a>,
    of: &'a Parameter,
    faults: &mut Faults,
) -> Result<(), NoMemory>
    ensures noted { OnOk result (faults.new.first ≡ noted faults.old.first (bodies.a_parameter inside.old of.now).faults) }
    ensures behind { OnOk result (inside.new ≡ (bodies.a_parameter inside.old of.now).behind) }
    ensures grew { OnOk result (GrewTo inside.old inside.new) }
{
    let Some(name) = &of.name else {
        return Ok(());
    };
    let gives = parameter_type(inside.scope(), &of.of);
    inside.declare(name, gives, faults)?;
    Ok(())
}

fn parameters<'a>(
    inside: &mut Inside<'a>,
    of: &'a [Parameter],
    faults: &mut Faults,
) -> Result<(), NoMemory>
    ensures noted { OnOk result (faults.new.first ≡ noted faults.old.first (bodies.parameters_told inside.old of.now).faults) }
    ensures behind { OnOk result (inside.new ≡ (bodies.parameters_told inside.old of.now).behind) }
    ensures grew { OnOk result (GrewTo inside.old inside.new) }
{
    for one in of {
        parameter(inside, one, faults)?;
    }
    Ok(())
}

fn body<'a>(
    alloc: Global,
    inside: &mut Inside<'a>,
    of: &'a Option<Body>,
    faults: &mut Faults,
) -> Result<Vec<TypedStmt>, NoMemory>
    ensures is { IfOk result (λ ss. ss.items ≡ (bodies.body_told inside.old of.now).stmts) }
    ensures noted { OnOk result (faults.new.first ≡ noted faults.old.first (bodies.body_told inside.old of.now).faults) }
    ensures behind { OnOk result (inside.new ≡ (bodies.body_told inside.old of.now).behind) }
    ensures grew { OnOk result (GrewTo inside.old inside.new) }
{
    let mut out = Vec::new(alloc);
    let Some(body) = of else {
        return Ok(out);
    };
    statements(alloc, inside, body.statements.as_slice(), &mut out, faults)?;
    Ok(out)
}

// A function's parameters, and its body where it has one.
fn whole<'a>(
    alloc: Global,
    inside: &mut Inside<'a>,
    of: &'a Function,
    faults: &mut Faults,
) -> Result<Vec<TypedStmt>, NoMemory>
    ensures is { IfOk result (λ ss. ss.items ≡ (told_whole inside.old of.now).stmts) }
    ensures noted { OnOk result (faults.new.first ≡ noted faults.old.first (told_whole inside.old of.now).faults) }
    ensures behind { OnOk result (inside.new ≡ (told_whole inside.old of.now).behind) }
    ensures grew { OnOk result (GrewTo inside.old inside.new) }
{
    parameters(inside, of.parameters.as_slice(), faults)?;
    let stmts = body(alloc, inside, &of.body, faults)?;
    Ok(stmts)
}

// The typed function of a definition.
fn push_function(
    typed: &mut Vec<TypedFunction>,
    of: &Function,
    locals: u32,
    stmts: Vec<TypedStmt>,
) -> Result<(), NoMemory>
    requires few { length typed.old.items < 2 ^ 32 }
    requires parameters { length of.now.parameters ≤ 16 }
    ensures { (x : Told) → stmts.items ≡ x.stmts → locals ≡ x.behind.count → OnOk result (typed.new.items ≡ typed.old.items ++ bodies.functions_of (length typed.old.items) (length of.now.parameters) x of.now.body) }
{
    let Some(body) = &of.body else {
        return Ok(());
    };
    typed.push(TypedFunction {
        id: FunId(typed.len() as u32),
        parameters: of.parameters.as_slice().len() as u32,
        locals,
        body: Stmts::from_vec(stmts),
        close: Item {
            id: body.close.id,
            pos: body.close.pos,
            act: Act::Close,
        },
    })?;
    Ok(())
}

/// A prototype or a definition, with its typed function; its faults are noted.
pub(crate) fn function<'a>(
    alloc: Global,
    scope: Scope<'a>,
    functions: Functions<'a>,
    typed: &mut Vec<TypedFunction>,
    of: &'a Function,
    faults: &mut Faults,
) -> Result<(Scope<'a>, Functions<'a>), NoMemory>
    requires outside { scope.locals ≡ [] }
    requires typed { length typed.old.items < 2 ^ 32 }
    requires parameters { length of.now.parameters ≤ 16 }
    ensures context { IfOk result (λ r. context r.0 r.1 ≡ signatures.with_signature (context scope.entry functions.entry) of.now) }
    ensures typed { OnOk result (typed.new.items ≡ typed.old.items ++ bodies.functions_of (length typed.old.items) (length of.now.parameters) (bodies.told_in (signatures.with_signature (context scope.entry functions.entry) of.now) of.now) of.now.body) }
    ensures noted { OnOk result (faults.new.first ≡ noted faults.old.first (signatures.function_faults (context scope.entry functions.entry) of.now ++ (bodies.told_in (signatures.with_signature (context scope.entry functions.entry) of.now) of.now).faults)) }
{
    let mut scope = scope;
    let mut functions = functions;
    let given = signature(alloc, &scope, of)?;
    note_function(&scope, &functions, of, &given, faults);
    declare_function(alloc, &mut scope, &mut functions, of, given)?;
    let gives = result_type(&scope, &of.result);
    let mut inside = Inside::begin(scope, functions, gives);
    let stmts = whole(alloc, &mut inside, of, faults)?;
    push_function(typed, of, inside.count(), stmts)?;
    Ok(inside.end())
}
