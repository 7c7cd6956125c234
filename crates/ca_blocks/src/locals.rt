//! Declarations of parameters and locals (C11 6.2.1, 6.7).

ghost use Rattle.std.specs.Prelude.{◌≡◌, ◌++◌, ◌∷◌, [], IfOk, OnOk};
ghost use Rattle.ca_model.specs.typing.Bodies.{in_order};
ghost use Rattle.ca_model.specs.typing.Locals as locals;
ghost use Rattle.ca_operands.specs.Noted.{noted};
ghost use Rattle.ca_bodies.specs.Shown.{shown_aim};
ghost use Rattle.ca_model.specs.declared.tree.Stmt.TheVariants as stmt;
ghost use Rattle.ca_model.specs.typing.Faults.{given};
ghost use Rattle.ca_model.specs.typing.RightSides.{right_faults};
ghost use Rattle.ca_blocks.specs.Shown.{GrewTo};

use crate::inside::Inside;
use ca_bodies::{Aim, right_side};
use ca_expressions::reserved::is_library_word;
use ca_model::{Act, Item, Meaning, ObjectType, Stmt, Target, TypeKind};
use ca_operands::{Faults, THREAD, note_type, written_type};
use ca_tree::tree::{Base, ItemAt, LocalDeclarator, Locals, Name, Right, ThreadLocal};
use ca_tree::{NoMemory, VarId};
use sqlite_items::Boxed;
use std::alloc::Global;

const MOST_LOCALS: u32 = 128;

pub(crate) fn item(at: ItemAt, act: Act) -> Item
    ensures { result ≡ locals.item at act }
{
    Item {
        id: at.id,
        pos: at.pos,
        act,
    }
}

impl<'a> Inside<'a> {
    // Whether a name is declared in this block, or is a call of the library.
    fn is_taken(&self, name: &[u8]) -> bool
        ensures { result ≡ locals.is_taken self.now name.now }
    {
        is_library_word(name) || self.scope.has_local_behind(self.outer, name)
    }

    // The faults of a declarator.
    fn note_declared(&self, name: &Name, faults: &mut Faults)
        ensures { faults.new.first ≡ noted faults.old.first (locals.declared_faults self.now name.now) }
    {
        let taken = self.is_taken(name.text.as_slice());
        faults.unless(!taken, name.pos, TypeKind::Twice);
        faults.unless(self.count < MOST_LOCALS, name.pos, TypeKind::TooManyLocals);
    }

    /// A parameter or local of a type behind its declarator; one more than 128 isn't declared. Its faults are noted.
    pub fn declare(
        &mut self,
        name: &'a Name,
        of: Option<ObjectType>,
        faults: &mut Faults,
    ) -> Result<(), NoMemory>
        ensures declared { OnOk result (self.new ≡ locals.declared self.old name.now of) }
        ensures noted { OnOk result (faults.new.first ≡ noted faults.old.first (locals.declared_faults self.old name.now)) }
    {
        self.note_declared(name, faults);
        if self.count < MOST_LOCALS {
            let means = Meaning::Local(VarId(self.count), of);
            self.scope.push_local(name.text.as_slice(), means)?;
            self.count += 1;
        }
        Ok(())
    }
}

// The local that is declared next, as a target.
fn local_aim(inside: &Inside<'_>, of: Option<ObjectType>) -> Aim
    ensures { shown_aim result ≡ locals.local_aim inside.now of }
{
    Aim {
        of,
        at: Some(Target::Local(VarId(inside.count))),
    }
}

// What a declarator does; without an initialiser a local is set to 0.
fn first_act<'a>(
    alloc: Global,
    inside: &Inside<'a>,
    of: Option<ObjectType>,
    value: &'a Option<Right>,
    faults: &mut Faults,
) -> Result<Act, NoMemory>
    ensures is { IfOk result (λ r. r ≡ locals.first_act inside.now of value.now) }
    ensures noted { OnOk result (faults.new.first ≡ noted faults.old.first (given value.now (right_faults inside.now.context (locals.local_aim inside.now of)))) }
{
    match value {
        None => Ok(Act::Zero(VarId(inside.count))),
        Some(right) => {
            let aim = local_aim(inside, of);
            let act = right_side(alloc, &inside.scope, &inside.functions, aim, right, faults)?;
            Ok(act)
        }
    }
}

/// A local by its declarator: its item, and its name behind it. Its faults are noted.
pub(crate) fn local<'a>(
    alloc: Global,
    inside: &mut Inside<'a>,
    base: &'a Base,
    of: &'a LocalDeclarator,
    faults: &mut Faults,
) -> Result<Item, NoMemory>
    ensures is { IfOk result (λ i. stmt.Item i ∷ [] ≡ (locals.a_local base.now inside.old of.now).stmts) }
    ensures noted { OnOk result (faults.new.first ≡ noted faults.old.first (locals.a_local base.now inside.old of.now).faults) }
    ensures behind { OnOk result (inside.new ≡ (locals.a_local base.now inside.old of.now).behind) }
    ensures grew { OnOk result (GrewTo inside.old inside.new) }
{
    note_type(&inside.scope, base, faults);
    let object = written_type(&inside.scope, base, of.stars);
    let act = Boxed::new(alloc, first_act(alloc, inside, object, &of.value, faults)?)?;
    inside.declare(&of.name, object, faults)?;
    Ok(item(of.item, act.into_inner()))
}

fn variables<'a>(
    alloc: Global,
    inside: &mut Inside<'a>,
    base: &'a Base,
    declarators: &'a [LocalDeclarator],
    out: &mut Vec<Stmt>,
    faults: &mut Faults,
) -> Result<(), NoMemory>
    ensures is { OnOk result (out.new.items ≡ out.old.items ++ (in_order (locals.a_local base.now) declarators.now inside.old).stmts) }
    ensures noted { OnOk result (faults.new.first ≡ noted faults.old.first (in_order (locals.a_local base.now) declarators.now inside.old).faults) }
    ensures behind { OnOk result (inside.new ≡ (in_order (locals.a_local base.now) declarators.now inside.old).behind) }
    ensures grew { OnOk result (GrewTo inside.old inside.new) }
{
    for declarator in declarators {
        let declared = local(alloc, inside, base, declarator, faults)?;
        out.push(Stmt::Item(declared))?;
    }
    Ok(())
}

fn thread<'a>(
    inside: &mut Inside<'a>,
    of: &'a ThreadLocal,
    faults: &mut Faults,
) -> Result<Item, NoMemory>
    ensures is { IfOk result (λ i. stmt.Item i ∷ [] ≡ (locals.a_thread inside.old of.now).stmts) }
    ensures noted { OnOk result (faults.new.first ≡ noted faults.old.first (locals.a_thread inside.old of.now).faults) }
    ensures behind { OnOk result (inside.new ≡ (locals.a_thread inside.old of.now).behind) }
    ensures grew { OnOk result (GrewTo inside.old inside.new) }
{
    let number = VarId(inside.count);
    inside.declare(&of.name, Some(THREAD), faults)?;
    Ok(item(of.item, Act::Zero(number)))
}

fn threads<'a>(
    inside: &mut Inside<'a>,
    declarators: &'a [ThreadLocal],
    out: &mut Vec<Stmt>,
    faults: &mut Faults,
) -> Result<(), NoMemory>
    ensures is { OnOk result (out.new.items ≡ out.old.items ++ (in_order locals.a_thread declarators.now inside.old).stmts) }
    ensures noted { OnOk result (faults.new.first ≡ noted faults.old.first (in_order locals.a_thread declarators.now inside.old).faults) }
    ensures behind { OnOk result (inside.new ≡ (in_order locals.a_thread declarators.now inside.old).behind) }
    ensures grew { OnOk result (GrewTo inside.old inside.new) }
{
    for declarator in declarators {
        let declared = thread(inside, declarator, faults)?;
        out.push(Stmt::Item(declared))?;
    }
    Ok(())
}

/// A declaration of locals: an item for each. Its faults are noted.
pub(crate) fn some_locals<'a>(
    alloc: Global,
    inside: &mut Inside<'a>,
    of: &'a Locals,
    out: &mut Vec<Stmt>,
    faults: &mut Faults,
) -> Result<(), NoMemory>
    ensures is { OnOk result (out.new.items ≡ out.old.items ++ (locals.some_locals of.now inside.old).stmts) }
    ensures noted { OnOk result (faults.new.first ≡ noted faults.old.first (locals.some_locals of.now inside.old).faults) }
    ensures behind { OnOk result (inside.new ≡ (locals.some_locals of.now inside.old).behind) }
    ensures grew { OnOk result (GrewTo inside.old inside.new) }
{
    match of {
        Locals::Threads(declarators) => threads(inside, declarators.as_slice(), out, faults),
        Locals::Variables(base, declarators) => {
            variables(alloc, inside, base, declarators.as_slice(), out, faults)
        }
    }
}
