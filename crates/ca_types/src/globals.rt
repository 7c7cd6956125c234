//! Globals: what their names mean, their sizes and first values (C11 6.7.6.2, 6.7.9).

ghost use Rattle.std.specs.Prelude.{◌≡◌, ℕ, List, ◌<◌, ◌≤◌, ◌+◌, ◌*◌, ◌^◌, not, ◌||◌, is_some, [], ◌∷◌, ◌++◌, length, OnOk};
ghost use Rattle.ca_model.specs.declared.tree.GlobalStart.{GlobalStart};
ghost use Rattle.ca_model.specs.declared.types.Meaning.TheVariants.{Mutex};
ghost use Rattle.ca_model.specs.declared.types.TypeKind.TheVariants.{TooManyCells};
ghost use Rattle.ca_model.specs.typing.Faults.{fault, unless};
ghost use Rattle.ca_model.specs.typing.Globals as globals;
ghost use Rattle.ca_model.specs.typing.Known.{Known, with_each};
ghost use Rattle.ca_types.specs.Counts.{mutex_count, start_count};
ghost use Rattle.ca_types.specs.Holds.{Holds};
ghost use Rattle.ca_model.specs.typing.TypeNames.{cells_of};
ghost use Rattle.ca_model.specs.typing.Scopes.{find};
ghost use Rattle.ca_tree.specs.Names.{is_library_word};
ghost use Rattle.ca_operands.specs.Noted.{noted};

use ca_bodies::cells_of;
use ca_expressions::reserved::is_library_word;
use ca_model::{GlobalStart, Meaning, ObjectType, TypeKind, Value};
use ca_operands::{Faults, INT, Scope, THREAD, note_type, same_object, written_type};
use ca_tree::tree::{
    Base, Constant, GlobalDeclarator, GlobalForm, Globals, MutexDeclarator, Name, ThreadDeclarator,
};
use ca_tree::{GlobalId, MutexId, NoMemory};

const MOST_CELLS: u64 = 65_536;

// How many elements a global has; one that is no array has one.
fn element_count(length: Option<i32>) -> u64
    ensures is { result ≡ globals.element_count length }
    ensures most { result ≤ 2 ^ 31 }
{
    match length {
        Some(length) if length >= 0 => length as u64,
        Some(_) => 0,
        None => 1,
    }
}

// Whether a global has cells, and is not the one with which there are more than 65,536.
fn cells_allowed(before: u64, cells: u64) -> bool
    requires before { before ≤ 2 ^ 62 }
    requires cells { cells ≤ 2 ^ 62 }
    ensures { result ≡ globals.cells_allowed before cells }
{
    0 < cells && (before + cells <= MOST_CELLS || MOST_CELLS < before)
}

// What the name of a global means, by the length of an array.
fn global_means(id: GlobalId, length: Option<i32>, of: Option<ObjectType>) -> Meaning
    ensures { result ≡ globals.global_means id length of }
{
    match length {
        Some(_) => Meaning::Array(id, of),
        None => Meaning::Global(id, of),
    }
}

// The cells of a global and the value with which its first one opens. Where there are more cells than there may be, 0
// stands for them.
fn start_of(cells: u64, first: Value) -> GlobalStart
    ensures { result ≡ globals.start_of cells first }
{
    let cells = if cells <= MOST_CELLS { cells as u32 } else { 0 };
    GlobalStart { cells, first }
}

// The length of an array.
fn length_of(form: GlobalForm) -> Option<i32>
    ensures { result ≡ globals.length_of form }
{
    match form {
        GlobalForm::Array(length) => Some(length),
        GlobalForm::Plain | GlobalForm::Constant(_) => None,
    }
}

// The value with which a global opens: its constant; a pointer opens as null.
fn first_value(form: GlobalForm) -> Value
    ensures { result ≡ globals.first_value form }
{
    match form {
        GlobalForm::Constant(Constant::Number(number)) => Value::Num(number),
        GlobalForm::Plain | GlobalForm::Array(_) | GlobalForm::Constant(Constant::Null) => {
            Value::Num(0)
        }
    }
}

fn takes_constant(of: ObjectType, constant: Constant) -> bool
    ensures { result ≡ globals.takes_constant of constant }
{
    match constant {
        Constant::Number(number) => same_object(of, INT) || (0 < of.stars && number == 0),
        Constant::Null => 0 < of.stars,
    }
}

// Whether a constant fits its global: an `int` takes a number, and a pointer `NULL` or 0.
fn constant_is_right(of: Option<ObjectType>, form: GlobalForm) -> bool
    ensures { result ≡ globals.constant_is_right of form }
{
    match (of, form) {
        (Some(of), GlobalForm::Constant(constant)) => takes_constant(of, constant),
        _ => true,
    }
}

// The cells of so many elements.
fn all_cells(count: u64, cells: u32) -> u64
    requires count { count ≤ 2 ^ 31 }
    requires cells { cells ≤ 64 }
    ensures is { result ≡ count * cells }
    ensures most { result ≤ 2 ^ 37 }
{
    count * u64::from(cells)
}

// Whether a name isn't taken outside of functions, and calls no function of the library.
fn is_free<'a>(scope: &Scope<'a>, name: &'a [u8]) -> bool
    ensures { result ≡ not (is_library_word name.now || is_some (find name.now scope.now.globals)) }
{
    !(is_library_word(name) || scope.global(name).is_some())
}

fn note_name<'a>(scope: &Scope<'a>, name: &'a Name, faults: &mut Faults)
    ensures { faults.new.first ≡ noted faults.old.first (globals.name_faults scope.now name.now) }
{
    let is_free = is_free(scope, name.text.as_slice());
    faults.unless(is_free, name.pos, TypeKind::Twice);
}

// A mutex, by the number of those before it.
fn mutex<'a>(
    scope: &mut Scope<'a>,
    mutexes: &mut u32,
    of: &'a MutexDeclarator,
    faults: &mut Faults,
) -> Result<(), NoMemory>
    requires { mutexes.old < 64 }
    ensures scope { OnOk result (scope.new ≡ globals.with_name scope.old of.now.name.text (Mutex (record { 0 = mutexes.old }))) }
    ensures mutexes { OnOk result (mutexes.new ≡ mutexes.old + 1) }
    ensures noted { OnOk result (faults.new.first ≡ noted faults.old.first (globals.name_faults scope.old of.now.name)) }
{
    note_name(scope, &of.name, faults);
    scope.declare_global(of.name.text.as_slice(), Meaning::Mutex(MutexId(*mutexes)))?;
    *mutexes += 1;
    Ok(())
}

/// The globals so far that are no mutexes, and the cells of all of them.
#[derive(Drop)]
pub struct Starts {
    pub starts: Vec<GlobalStart>,
    pub cells: u64,
}

// What a global is declared as: its type, the length of an array, and the value with which it opens.
#[derive(Clone, Copy)]
struct Declared {
    of: Option<ObjectType>,
    length: Option<i32>,
    first: Value,
}

// A global that is no mutex.
fn global<'a>(
    scope: &mut Scope<'a>,
    starts: &mut Starts,
    name: &'a Name,
    declared: Declared,
    faults: &mut Faults,
) -> Result<(), NoMemory>
    requires few { length starts.old.starts.items < 1024 }
    requires cells { starts.old.cells ≤ length starts.old.starts.items * 2 ^ 37 }
    ensures scope { OnOk result (scope.new ≡ globals.with_name scope.old name.now.text (globals.global_means (record { 0 = length starts.old.starts.items }) declared.length declared.of)) }
    ensures starts { OnOk result (starts.new.starts.items ≡ starts.old.starts.items ++ globals.start_of (globals.element_count declared.length * cells_of scope.old declared.of) declared.first ∷ []) }
    ensures cells { OnOk result (starts.new.cells ≡ starts.old.cells + globals.element_count declared.length * cells_of scope.old declared.of) }
    ensures most { OnOk result (starts.new.cells ≤ length starts.new.starts.items * 2 ^ 37) }
    ensures noted { OnOk result (faults.new.first ≡ noted faults.old.first (globals.name_faults scope.old name.now ++ unless (globals.cells_allowed starts.old.cells (globals.element_count declared.length * cells_of scope.old declared.of)) (fault name.now.pos TooManyCells))) }
{
    let cells = all_cells(element_count(declared.length), cells_of(scope, declared.of));
    note_name(scope, name, faults);
    let is_allowed = cells_allowed(starts.cells, cells);
    faults.unless(is_allowed, name.pos, TypeKind::TooManyCells);
    let id = GlobalId(starts.starts.len() as u32);
    let means = global_means(id, declared.length, declared.of);
    scope.declare_global(name.text.as_slice(), means)?;
    starts.starts.push(start_of(cells, declared.first))?;
    starts.cells += cells;
    Ok(())
}

// A global `pthread_t`, or an array of them.
fn thread<'a>(
    scope: &mut Scope<'a>,
    starts: &mut Starts,
    of: &'a ThreadDeclarator,
    faults: &mut Faults,
) -> Result<(), NoMemory>
    requires few { length starts.old.starts.items < 1024 }
    requires cells { starts.old.cells ≤ length starts.old.starts.items * 2 ^ 37 }
    ensures holds { (k : Known) (mutexes : ℕ) → Holds k scope.old starts.old.starts.items starts.old.cells mutexes faults.old.first → OnOk result (Holds (globals.with_thread k of.now) scope.new starts.new.starts.items starts.new.cells mutexes faults.new.first) }
    ensures more { OnOk result (length starts.new.starts.items ≡ length starts.old.starts.items + 1) }
    ensures most { OnOk result (starts.new.cells ≤ length starts.new.starts.items * 2 ^ 37) }
{
    let declared = Declared {
        of: Some(THREAD),
        length: of.length,
        first: Value::Num(0),
    };
    global(scope, starts, &of.name, declared, faults)?;
    Ok(())
}

// A global that is neither a mutex nor a `pthread_t`.
fn variable<'a>(
    scope: &mut Scope<'a>,
    starts: &mut Starts,
    base: &'a Base,
    of: &'a GlobalDeclarator,
    faults: &mut Faults,
) -> Result<(), NoMemory>
    requires few { length starts.old.starts.items < 1024 }
    requires cells { starts.old.cells ≤ length starts.old.starts.items * 2 ^ 37 }
    ensures holds { (k : Known) (mutexes : ℕ) → Holds k scope.old starts.old.starts.items starts.old.cells mutexes faults.old.first → OnOk result (Holds (globals.with_variable base.now k of.now) scope.new starts.new.starts.items starts.new.cells mutexes faults.new.first) }
    ensures more { OnOk result (length starts.new.starts.items ≡ length starts.old.starts.items + 1) }
    ensures most { OnOk result (starts.new.cells ≤ length starts.new.starts.items * 2 ^ 37) }
{
    let declared = Declared {
        of: written_type(scope, base, of.stars),
        length: length_of(of.form),
        first: first_value(of.form),
    };
    global(scope, starts, &of.name, declared, faults)?;
    let is_right = constant_is_right(declared.of, of.form);
    faults.unless(is_right, of.name.pos, TypeKind::Mismatch);
    Ok(())
}

fn mutex_list<'a>(
    scope: &mut Scope<'a>,
    mutexes: &mut u32,
    declarators: &'a [MutexDeclarator],
    faults: &mut Faults,
) -> Result<(), NoMemory>
    requires { mutexes.old + length declarators.now ≤ 64 }
    ensures holds { (k : Known) (starts : List GlobalStart) (cells : ℕ) → Holds k scope.old starts cells mutexes.old faults.old.first → OnOk result (Holds (with_each globals.with_mutex k declarators.now) scope.new starts cells mutexes.new faults.new.first) }
    ensures more { OnOk result (mutexes.new ≡ mutexes.old + length declarators.now) }
{
    for declarator in declarators {
        mutex(scope, mutexes, declarator, faults)?;
    }
    Ok(())
}

fn thread_list<'a>(
    scope: &mut Scope<'a>,
    starts: &mut Starts,
    declarators: &'a [ThreadDeclarator],
    faults: &mut Faults,
) -> Result<(), NoMemory>
    requires few { length starts.old.starts.items + length declarators.now ≤ 1024 }
    requires cells { starts.old.cells ≤ length starts.old.starts.items * 2 ^ 37 }
    ensures holds { (k : Known) (mutexes : ℕ) → Holds k scope.old starts.old.starts.items starts.old.cells mutexes faults.old.first → OnOk result (Holds (with_each globals.with_thread k declarators.now) scope.new starts.new.starts.items starts.new.cells mutexes faults.new.first) }
    ensures more { OnOk result (length starts.new.starts.items ≡ length starts.old.starts.items + length declarators.now) }
    ensures most { OnOk result (starts.new.cells ≤ length starts.new.starts.items * 2 ^ 37) }
{
    for declarator in declarators {
        thread(scope, starts, declarator, faults)?;
    }
    Ok(())
}

fn variable_list<'a>(
    scope: &mut Scope<'a>,
    starts: &mut Starts,
    base: &'a Base,
    declarators: &'a [GlobalDeclarator],
    faults: &mut Faults,
) -> Result<(), NoMemory>
    requires few { length starts.old.starts.items + length declarators.now ≤ 1024 }
    requires cells { starts.old.cells ≤ length starts.old.starts.items * 2 ^ 37 }
    ensures holds { (k : Known) (mutexes : ℕ) → Holds k scope.old starts.old.starts.items starts.old.cells mutexes faults.old.first → OnOk result (Holds (with_each (globals.with_variable base.now) k declarators.now) scope.new starts.new.starts.items starts.new.cells mutexes faults.new.first) }
    ensures more { OnOk result (length starts.new.starts.items ≡ length starts.old.starts.items + length declarators.now) }
    ensures most { OnOk result (starts.new.cells ≤ length starts.new.starts.items * 2 ^ 37) }
{
    for declarator in declarators {
        variable(scope, starts, base, declarator, faults)?;
    }
    Ok(())
}

/// A declaration of globals; its faults are noted. With those before it there are at most 64 mutexes, and at most 1,024
/// other globals.
pub fn declare_globals<'a>(
    scope: &mut Scope<'a>,
    starts: &mut Starts,
    mutexes: &mut u32,
    of: &'a Globals,
    faults: &mut Faults,
) -> Result<(), NoMemory>
    requires mutexes { mutexes.old + mutex_count of.now ≤ 64 }
    requires starts { length starts.old.starts.items + start_count of.now ≤ 1024 }
    requires cells { starts.old.cells ≤ length starts.old.starts.items * 2 ^ 37 }
    ensures holds { (k : Known) → Holds k scope.old starts.old.starts.items starts.old.cells mutexes.old faults.old.first → OnOk result (Holds (globals.with_globals k of.now) scope.new starts.new.starts.items starts.new.cells mutexes.new faults.new.first) }
    ensures mutexes { OnOk result (mutexes.new ≡ mutexes.old + mutex_count of.now) }
    ensures starts { OnOk result (length starts.new.starts.items ≡ length starts.old.starts.items + start_count of.now) }
    ensures cells { OnOk result (starts.new.cells ≤ length starts.new.starts.items * 2 ^ 37) }
{
    match of {
        Globals::Mutexes(declarators) => {
            mutex_list(scope, mutexes, declarators.as_slice(), faults)?;
        }
        Globals::Threads(declarators) => {
            thread_list(scope, starts, declarators.as_slice(), faults)?;
        }
        Globals::Variables(base, declarators) => {
            variable_list(scope, starts, base, declarators.as_slice(), faults)?;
            note_type(scope, base, faults);
        }
    }
    Ok(())
}
