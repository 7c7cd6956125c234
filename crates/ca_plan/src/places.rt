//! The places of the items of a source in its text.

ghost use Rattle.std.specs.Prelude.{◌≡◌, ◌++◌, ◌∷◌, [], IfOk, map};
ghost use Rattle.ca_model.specs.Sites.{if_any, items_in, items_in_all, items_of, all_items};

use ca_model::{Checked, Function, Item, Stmt};
use ca_tree::{FunId, NoMemory, Pos};
use std::alloc::Global;

fn item(item: &Item, places: &mut Vec<Pos>) -> Result<(), NoMemory>
    ensures { IfOk result (λ u. places.new.items ≡ places.old.items ++ item.now.pos ∷ []) }
{
    places.push(item.pos)?;
    Ok(())
}

fn item_if_there(of: &Option<Item>, places: &mut Vec<Pos>) -> Result<(), NoMemory>
    ensures { IfOk result (λ u. places.new.items ≡ places.old.items ++ map (λ i. i.pos) (if_any of.now)) }
{
    match of {
        None => Ok(()),
        Some(of) => item(of, places),
    }
}

#[cycle(statement)]
fn statement(stmt: &Stmt, places: &mut Vec<Pos>) -> Result<(), NoMemory>
    ensures { IfOk result (λ u. places.new.items ≡ places.old.items ++ map (λ i. i.pos) (items_in stmt.now)) }
{
    match stmt {
        Stmt::Item(of) => {
            item(of, places)?;
            Ok(())
        }
        Stmt::Block(stmts) => {
            statements(stmts.as_slice(), places)?;
            Ok(())
        }
        Stmt::If { cond, yes, no } => {
            item(cond, places)?;
            statement(yes.get(), places)?;
            match no {
                Some(no) => {
                    statement(no.get(), places)?;
                    Ok(())
                }
                None => Ok(()),
            }
        }
        Stmt::While { cond, body } => {
            item(cond, places)?;
            statement(body.get(), places)?;
            Ok(())
        }
        Stmt::Do { body, cond } => {
            statement(body.get(), places)?;
            item(cond, places)?;
            Ok(())
        }
        Stmt::For {
            first,
            cond,
            step,
            body,
        } => {
            item_if_there(first, places)?;
            item(cond, places)?;
            item_if_there(step, places)?;
            statement(body.get(), places)?;
            Ok(())
        }
        Stmt::Break | Stmt::Continue => Ok(()),
    }
}

#[cycle(statement)]
fn statements(stmts: &[Stmt], places: &mut Vec<Pos>) -> Result<(), NoMemory>
    ensures { IfOk result (λ u. places.new.items ≡ places.old.items ++ map (λ i. i.pos) (items_in_all stmts.now)) }
{
    for stmt in stmts {
        statement(stmt, places)?;
    }
    Ok(())
}

fn function(of: &Function, places: &mut Vec<Pos>) -> Result<(), NoMemory>
    ensures { IfOk result (λ u. places.new.items ≡ places.old.items ++ map (λ i. i.pos) (items_of of.now)) }
{
    statements(of.body.as_slice(), places)?;
    item(&of.close, places)?;
    Ok(())
}

/// The places of the items of a source, in order of their numbers.
pub(crate) fn item_places(alloc: Global, checked: &Checked) -> Result<Vec<Pos>, NoMemory>
    ensures { IfOk result (λ places. places.items ≡ map (λ i. i.pos) (all_items checked.now.typed.functions)) }
{
    let mut places = Vec::new(alloc);
    for number in 0..checked.functions() {
        function(checked.function(FunId(number)), &mut places)?;
    }
    Ok(places)
}
