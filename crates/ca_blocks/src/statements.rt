//! Statements (C11 6.8).

ghost use Rattle.ca_tree.specs.declared.tree.Locals.{Locals};
ghost use Rattle.ca_tree.specs.declared.tree.Stmt.TheVariants as read;
ghost use Rattle.std.specs.Option.{option_map};
ghost use Rattle.std.specs.Prelude.{◌≡◌, ◌++◌, [], ◌∷◌, IfOk, OnOk, Some};
ghost use Rattle.ca_model.specs.typing.Bodies.{inner, left};
ghost use Rattle.ca_model.specs.typing.Faults.{given};
ghost use Rattle.ca_model.specs.typing.Locals as items;
ghost use Rattle.ca_model.specs.typing.SimpleStatements.{simple_act, simple_faults};
ghost use Rattle.ca_model.specs.typing.Statements as told_by;
ghost use Rattle.ca_operands.specs.Noted.{noted};
ghost use Rattle.ca_blocks.specs.Shown.{GrewTo, else_told, for_told};

use crate::inside::Inside;
use crate::locals::{item, local, some_locals};
use ca_bodies::simple_statement;
use ca_model::{Act, Exp as TypedExp, Item, Stmt as TypedStmt, TypeKind, Wanted};
use ca_operands::{Faults, is_void, value_in};
use ca_tree::tree::{Exp, ForFirst, ForHead, ItemAt, Simple, Stmt};
use ca_tree::{Listed, NoMemory};
use sqlite_items::Boxed;
use std::alloc::Global;

// An item that is a condition; its faults are noted.
fn condition<'a>(
    alloc: Global,
    inside: &Inside<'a>,
    at: ItemAt,
    exp: &'a Exp,
    faults: &mut Faults,
) -> Result<Boxed<Item>, NoMemory>
    ensures is { IfOk result (λ r. r ≡ told_by.condition inside.now at exp.now) }
    ensures noted { OnOk result (faults.new.first ≡ noted faults.old.first (told_by.condition_faults inside.now exp.now)) }
{
    let value = value_in(alloc, &inside.scope, Wanted::Scalar, exp, faults)?;
    Ok(Boxed::new(alloc, item(at, Act::Cond(value)))?)
}

// The condition of a `for`; an absent one is true.
fn condition_or_one<'a>(
    alloc: Global,
    inside: &Inside<'a>,
    at: ItemAt,
    exp: &'a Option<Exp>,
    faults: &mut Faults,
) -> Result<Boxed<Item>, NoMemory>
    ensures is { IfOk result (λ r. r ≡ told_by.condition_or_one inside.now at exp.now) }
    ensures noted { OnOk result (faults.new.first ≡ noted faults.old.first (given exp.now (told_by.condition_faults inside.now))) }
{
    match exp {
        Some(exp) => {
            let found = condition(alloc, inside, at, exp, faults)?;
            Ok(found)
        }
        None => Ok(Boxed::new(alloc, item(at, Act::Cond(TypedExp::Num(1))))?),
    }
}

// An item that is a simple statement; its faults are noted.
fn simple<'a>(
    alloc: Global,
    inside: &Inside<'a>,
    at: ItemAt,
    of: &'a Simple,
    faults: &mut Faults,
) -> Result<Item, NoMemory>
    ensures is { IfOk result (λ r. r ≡ items.item at (simple_act inside.now.context of.now)) }
    ensures noted { OnOk result (faults.new.first ≡ noted faults.old.first (simple_faults inside.now.context at.pos of.now)) }
{
    let act = simple_statement(alloc, &inside.scope, &inside.functions, at.pos, of, faults)?;
    Ok(item(at, act))
}

fn gives_nothing(inside: &Inside<'_>) -> bool
    ensures { result ≡ told_by.gives_nothing inside.now.result }
{
    match inside.result {
        Some(of) => is_void(of),
        None => true,
    }
}

// A `return`; its faults are noted.
fn returned<'a>(
    alloc: Global,
    inside: &Inside<'a>,
    at: ItemAt,
    exp: &'a Option<Exp>,
    faults: &mut Faults,
) -> Result<Item, NoMemory>
    ensures is { IfOk result (λ r. r ≡ items.item at (told_by.value_if_there inside.now exp.now)) }
    ensures noted { OnOk result (faults.new.first ≡ noted faults.old.first (told_by.return_faults inside.now at.pos exp.now)) }
{
    match exp {
        Some(exp) => {
            let wanted = Wanted::OfType(inside.result);
            let value = value_in(alloc, &inside.scope, wanted, exp, faults)?;
            Ok(item(at, Act::Return(Some(value))))
        }
        None => {
            faults.unless(gives_nothing(inside), at.pos, TypeKind::Mismatch);
            Ok(item(at, Act::Return(None)))
        }
    }
}

// One statement: what stands in braces, and what is more than one.
fn single(mut stmts: Vec<TypedStmt>) -> TypedStmt
    ensures { result ≡ told_by.single stmts.items }
{
    if stmts.len() == 1 {
        if let Some(only) = stmts.pop() {
            return only;
        }
    }
    TypedStmt::Block(Listed::from_vec(stmts))
}

// What a `for` does first, in the scope of its head.
fn first_item<'a>(
    alloc: Global,
    inside: &mut Inside<'a>,
    first: &'a Option<ForFirst>,
    faults: &mut Faults,
) -> Result<Option<Boxed<Item>>, NoMemory>
    ensures is { IfOk result (λ r. r ≡ told_by.item_of (told_by.a_first inside.old first.now).stmts) }
    ensures noted { OnOk result (faults.new.first ≡ noted faults.old.first (told_by.a_first inside.old first.now).faults) }
    ensures behind { OnOk result (inside.new ≡ (told_by.a_first inside.old first.now).behind) }
    ensures grew { OnOk result (GrewTo inside.old inside.new) }
{
    let Some(first) = first else {
        return Ok(None);
    };
    let found = match first {
        ForFirst::Simple(at, of) => simple(alloc, inside, *at, of, faults)?,
        ForFirst::Local(base, of) => local(alloc, inside, base, of, faults)?,
    };
    Ok(Some(Boxed::new(alloc, found)?))
}

// The step of a `for`.
fn step_item<'a>(
    alloc: Global,
    inside: &Inside<'a>,
    step: &'a Option<(ItemAt, Simple)>,
    faults: &mut Faults,
) -> Result<Option<Boxed<Item>>, NoMemory>
    ensures is { IfOk result (λ r. r ≡ told_by.a_step inside.now step.now) }
    ensures noted { OnOk result (faults.new.first ≡ noted faults.old.first (given step.now (λ x. simple_faults inside.now.context x.0.pos x.1))) }
{
    let Some((at, of)) = step else {
        return Ok(None);
    };
    let found = simple(alloc, inside, *at, of, faults)?;
    Ok(Some(Boxed::new(alloc, found)?))
}

fn unboxed(item: Option<Boxed<Item>>) -> Option<Item>
    ensures { result ≡ item }
{
    match item {
        Some(item) => Some(item.into_inner()),
        None => None,
    }
}

// A statement that stands by itself, and the place behind it.
#[cycle(statement)]
fn branch<'a>(
    alloc: Global,
    inside: &mut Inside<'a>,
    stmt: &'a Stmt,
    faults: &mut Faults,
) -> Result<Boxed<TypedStmt>, NoMemory>
    ensures is { IfOk result (λ r. r ≡ told_by.single (told_by.told stmt.now inside.old).stmts) }
    ensures noted { OnOk result (faults.new.first ≡ noted faults.old.first (told_by.told stmt.now inside.old).faults) }
    ensures behind { OnOk result (inside.new ≡ left inside.old (told_by.told stmt.now inside.old).behind) }
{
    let was = inside.place();
    let mut stmts = Vec::new(alloc);
    statement(alloc, inside, stmt, &mut stmts, faults)?;
    inside.leave(was);
    Ok(Boxed::new(alloc, single(stmts))?)
}

/// Statements in order: their typed statements; their faults are noted.
#[cycle(statement)]
pub fn statements<'a>(
    alloc: Global,
    inside: &mut Inside<'a>,
    stmts: &'a [Stmt],
    out: &mut Vec<TypedStmt>,
    faults: &mut Faults,
) -> Result<(), NoMemory>
    ensures is { OnOk result (out.new.items ≡ out.old.items ++ (told_by.all_told stmts.now inside.old).stmts) }
    ensures noted { OnOk result (faults.new.first ≡ noted faults.old.first (told_by.all_told stmts.now inside.old).faults) }
    ensures behind { OnOk result (inside.new ≡ (told_by.all_told stmts.now inside.old).behind) }
    ensures grew { OnOk result (GrewTo inside.old inside.new) }
{
    for stmt in stmts {
        statement(alloc, inside, stmt, out, faults)?;
    }
    Ok(())
}

// A block that stands in braces.
#[cycle(statement)]
fn block<'a>(
    alloc: Global,
    inside: &mut Inside<'a>,
    stmts: &'a [Stmt],
    faults: &mut Faults,
) -> Result<TypedStmt, NoMemory>
    ensures is { IfOk result (λ r. r ∷ [] ≡ (told_by.a_block inside.old (told_by.all_told stmts.now (inner inside.old))).stmts) }
    ensures noted { OnOk result (faults.new.first ≡ noted faults.old.first (told_by.a_block inside.old (told_by.all_told stmts.now (inner inside.old))).faults) }
    ensures behind { OnOk result (inside.new ≡ (told_by.a_block inside.old (told_by.all_told stmts.now (inner inside.old))).behind) }
{
    let was = inside.enter();
    let mut block = Vec::new(alloc);
    statements(alloc, inside, stmts, &mut block, faults)?;
    inside.leave(was);
    Ok(TypedStmt::Block(Listed::from_vec(block)))
}

#[cycle(statement)]
fn while_loop<'a>(
    alloc: Global,
    inside: &mut Inside<'a>,
    body: &'a Stmt,
    at: ItemAt,
    exp: &'a Exp,
    faults: &mut Faults,
) -> Result<TypedStmt, NoMemory>
    ensures is { IfOk result (λ r. r ∷ [] ≡ (told_by.a_while inside.old at exp.now (told_by.told body.now inside.old)).stmts) }
    ensures noted { OnOk result (faults.new.first ≡ noted faults.old.first (told_by.a_while inside.old at exp.now (told_by.told body.now inside.old)).faults) }
    ensures behind { OnOk result (inside.new ≡ (told_by.a_while inside.old at exp.now (told_by.told body.now inside.old)).behind) }
{
    let cond = condition(alloc, inside, at, exp, faults)?;
    let body = branch(alloc, inside, body, faults)?;
    Ok(TypedStmt::While {
        cond: cond.into_inner(),
        body,
    })
}

#[cycle(statement)]
fn do_loop<'a>(
    alloc: Global,
    inside: &mut Inside<'a>,
    body: &'a Stmt,
    at: ItemAt,
    exp: &'a Exp,
    faults: &mut Faults,
) -> Result<TypedStmt, NoMemory>
    ensures is { IfOk result (λ r. r ∷ [] ≡ (told_by.a_do inside.old (told_by.told body.now inside.old) at exp.now).stmts) }
    ensures noted { OnOk result (faults.new.first ≡ noted faults.old.first (told_by.a_do inside.old (told_by.told body.now inside.old) at exp.now).faults) }
    ensures behind { OnOk result (inside.new ≡ (told_by.a_do inside.old (told_by.told body.now inside.old) at exp.now).behind) }
{
    let body = branch(alloc, inside, body, faults)?;
    let cond = condition(alloc, inside, at, exp, faults)?;
    Ok(TypedStmt::Do {
        body,
        cond: cond.into_inner(),
    })
}

// A `for` has a scope of its own round its head and its body.
#[cycle(statement)]
fn for_loop<'a>(
    alloc: Global,
    inside: &mut Inside<'a>,
    body: &'a Stmt,
    head: &'a ForHead,
    faults: &mut Faults,
) -> Result<TypedStmt, NoMemory>
    ensures is { IfOk result (λ r. r ∷ [] ≡ (for_told inside.old head.now body.now).stmts) }
    ensures noted { OnOk result (faults.new.first ≡ noted faults.old.first (for_told inside.old head.now body.now).faults) }
    ensures behind { OnOk result (inside.new ≡ (for_told inside.old head.now body.now).behind) }
{
    let was = inside.enter();
    let first = first_item(alloc, inside, &head.first, faults)?;
    let cond = condition_or_one(alloc, inside, head.item, &head.condition, faults)?;
    let step = step_item(alloc, inside, &head.step, faults)?;
    let body = branch(alloc, inside, body, faults)?;
    inside.leave(was);
    Ok(TypedStmt::For {
        first: unboxed(first),
        cond: cond.into_inner(),
        step: unboxed(step),
        body,
    })
}

// The statement behind an `else`.
#[cycle(statement)]
fn else_branch<'a>(
    alloc: Global,
    inside: &mut Inside<'a>,
    no: &'a Option<Boxed<Stmt>>,
    faults: &mut Faults,
) -> Result<Option<Boxed<TypedStmt>>, NoMemory>
    ensures is { IfOk result (λ r. r ≡ told_by.stmt_if_there (else_told no.now inside.old)) }
    ensures noted { OnOk result (faults.new.first ≡ noted faults.old.first (given (else_told no.now inside.old) (λ z. z.faults))) }
    ensures behind { OnOk result (inside.new ≡ left inside.old (told_by.behind_else inside.old (else_told no.now inside.old))) }
{
    match no {
        Some(no) => {
            let found = branch(alloc, inside, no.get(), faults)?;
            Ok(Some(found))
        }
        None => Ok(None),
    }
}

#[cycle(statement)]
fn statement<'a>(
    alloc: Global,
    inside: &mut Inside<'a>,
    stmt: &'a Stmt,
    out: &mut Vec<TypedStmt>,
    faults: &mut Faults,
) -> Result<(), NoMemory>
    ensures is { OnOk result (out.new.items ≡ out.old.items ++ (told_by.told stmt.now inside.old).stmts) }
    ensures noted { OnOk result (faults.new.first ≡ noted faults.old.first (told_by.told stmt.now inside.old).faults) }
    ensures behind { OnOk result (inside.new ≡ (told_by.told stmt.now inside.old).behind) }
    ensures grew { OnOk result (GrewTo inside.old inside.new) }
{
    if let Stmt::Locals(of) = stmt {
        some_locals(alloc, inside, of, out, faults)?;
        return Ok(());
    }
    let found = one_statement(alloc, inside, stmt, faults)?;
    out.push(found)?;
    Ok(())
}

// A statement that is no declaration of locals.
#[cycle(statement)]
fn one_statement<'a>(
    alloc: Global,
    inside: &mut Inside<'a>,
    stmt: &'a Stmt,
    faults: &mut Faults,
) -> Result<TypedStmt, NoMemory>
    requires { (l : Locals) → stmt.now ≡ read.Locals l → ⊥ }
    ensures is { IfOk result (λ r. r ∷ [] ≡ (told_by.told stmt.now inside.old).stmts) }
    ensures noted { OnOk result (faults.new.first ≡ noted faults.old.first (told_by.told stmt.now inside.old).faults) }
    ensures behind { OnOk result (inside.new ≡ (told_by.told stmt.now inside.old).behind) }
    ensures grew { OnOk result (GrewTo inside.old inside.new) }
{
    match stmt {
        Stmt::Block(stmts) => {
            let found = block(alloc, inside, stmts.as_slice(), faults)?;
            Ok(found)
        }
        Stmt::Locals(_) => Ok(TypedStmt::Break),
        Stmt::Empty => Ok(TypedStmt::Block(Listed::from_vec(Vec::new(alloc)))),
        Stmt::Simple(at, of) => {
            let found = simple(alloc, inside, *at, of, faults)?;
            Ok(TypedStmt::Item(found))
        }
        Stmt::Return(at, exp) => {
            let found = returned(alloc, inside, *at, exp, faults)?;
            Ok(TypedStmt::Item(found))
        }
        Stmt::Break(_) => Ok(TypedStmt::Break),
        Stmt::Continue(_) => Ok(TypedStmt::Continue),
        Stmt::If(at, exp, yes, no) => {
            let cond = condition(alloc, inside, *at, exp, faults)?;
            let yes = branch(alloc, inside, yes.get(), faults)?;
            let no = else_branch(alloc, inside, no, faults)?;
            Ok(TypedStmt::If {
                cond: cond.into_inner(),
                yes,
                no,
            })
        }
        Stmt::While(at, exp, body) => {
            let found = while_loop(alloc, inside, body.get(), *at, exp, faults)?;
            Ok(found)
        }
        Stmt::Do(body, at, exp) => {
            let found = do_loop(alloc, inside, body.get(), *at, exp, faults)?;
            Ok(found)
        }
        Stmt::For(head, body) => {
            let found = for_loop(alloc, inside, body.get(), head, faults)?;
            Ok(found)
        }
    }
}
