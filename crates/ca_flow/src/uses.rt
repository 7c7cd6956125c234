//! Which function each item is of and what it does, which items call each function, and of which functions threads are made.

ghost use Rattle.std.specs.Prelude.{◌≡◌, ◌<◌, [], IfOk, length, replicate, false, get_or};
ghost use Rattle.ca_model.specs.Sites.{if_any, items_in, items_in_all, items_of};
ghost use Rattle.ca_flow.specs.Tables.{row, with_item, with_items, uses, uses_of};

use crate::changes::{ItemKind, kind_of};
use crate::rows::{add, empty_rows};
use ca_model::{Act, Checked, Function, Item, Stmt};
use ca_tree::{FunId, ItemId, NoMemory};
use std::alloc::Global;
use std::marker::Model;

/// The function and the kind of each item in order, and for each site whether something earlier in its item reads what is
/// shared or allocates; for each function the items that call it, and whether a thread is made of it.
#[derive(Drop)]
pub(crate) struct Uses {
    functions: Vec<FunId>,
    kinds: Vec<ItemKind>,
    changes: Vec<bool>,
    calls: Vec<Vec<ItemId>>,
    created: Vec<bool>,
}

impl Model for Uses {
    ghost use Rattle.ca_flow.specs.Tables as tables;

    ghost Value = { tables.Uses };

    ghost view = { λ u. tables.uses u.functions.items u.kinds.items u.changes.items (tables.rows_of u.calls.items) u.created.items };
}

impl Uses {
    /// The items that call a function.
    pub(crate) fn calls_of(&self, f: FunId) -> &[ItemId]
        requires { f.0 < length self.now.calls }
        ensures { result.now ≡ row self.now.calls f.0 }
    {
        self.calls[f.0 as usize].as_slice()
    }

    /// The function of an item, by its place.
    pub(crate) fn function_at(&self, place: usize) -> FunId
        requires { place < length self.now.functions }
        ensures { result ≡ get_or self.now.functions place result }
    {
        self.functions[place]
    }

    /// The kinds of the items in order.
    pub(crate) fn kinds(&self) -> &[ItemKind]
        ensures { result.now ≡ self.now.kinds }
    {
        self.kinds.as_slice()
    }

    /// The kind of an item, by its place.
    pub(crate) fn kind_at(&self, place: usize) -> ItemKind
        requires { place < length self.now.kinds }
        ensures { result ≡ get_or self.now.kinds place result }
    {
        self.kinds[place]
    }

    /// Whether something earlier in the item of a site reads what is shared or allocates, by the place of the site.
    pub(crate) fn changes_at(&self, place: usize) -> bool
        requires { place < length self.now.changes }
        ensures { result ≡ get_or self.now.changes place result }
    {
        self.changes[place]
    }

    /// Whether a thread is made of a function.
    pub(crate) fn is_created(&self, f: FunId) -> bool
        requires { f.0 < length self.now.created }
        ensures { result ≡ get_or self.now.created f.0 false }
    {
        self.created[f.0 as usize]
    }

    fn add(&mut self, function: FunId, item: &Item) -> Result<(), NoMemory>
        ensures { IfOk result (λ u. self.new ≡ with_item function self.old item.now) }
    {
        self.functions.push(function)?;
        let kind = kind_of(item, &mut self.changes)?;
        self.kinds.push(kind)?;
        match &item.act {
            Act::Call(_, called, _) => add(&mut self.calls, called.0, item.id)?,
            Act::Create(_, begun, _) => {
                let k = begun.0 as usize;
                if k < self.created.len() {
                    self.created[k] = true;
                }
            }
            _ => {}
        }
        Ok(())
    }
}

fn add_if_there(uses: &mut Uses, function: FunId, item: &Option<Item>) -> Result<(), NoMemory>
    ensures { IfOk result (λ u. uses.new ≡ with_items function uses.old (if_any item.now)) }
{
    match item {
        None => Ok(()),
        Some(item) => uses.add(function, item),
    }
}

#[cycle(statement)]
fn statement(uses: &mut Uses, function: FunId, stmt: &Stmt) -> Result<(), NoMemory>
    ensures { IfOk result (λ u. uses.new ≡ with_items function uses.old (items_in stmt.now)) }
{
    match stmt {
        Stmt::Item(item) => uses.add(function, item)?,
        Stmt::Block(stmts) => statements(uses, function, stmts.as_slice())?,
        Stmt::If { cond, yes, no } => {
            uses.add(function, cond)?;
            statement(uses, function, yes.get())?;
            if let Some(no) = no {
                statement(uses, function, no.get())?;
            }
        }
        Stmt::While { cond, body } => {
            uses.add(function, cond)?;
            statement(uses, function, body.get())?;
        }
        Stmt::Do { body, cond } => {
            statement(uses, function, body.get())?;
            uses.add(function, cond)?;
        }
        Stmt::For {
            first,
            cond,
            step,
            body,
        } => {
            add_if_there(uses, function, first)?;
            uses.add(function, cond)?;
            add_if_there(uses, function, step)?;
            statement(uses, function, body.get())?;
        }
        Stmt::Break | Stmt::Continue => {}
    }
    Ok(())
}

#[cycle(statement)]
fn statements(uses: &mut Uses, function: FunId, stmts: &[Stmt]) -> Result<(), NoMemory>
    ensures { IfOk result (λ u. uses.new ≡ with_items function uses.old (items_in_all stmts.now)) }
{
    for stmt in stmts {
        statement(uses, function, stmt)?;
    }
    Ok(())
}

fn function(uses: &mut Uses, function: &Function) -> Result<(), NoMemory>
    ensures { IfOk result (λ u. uses.new ≡ with_items function.now.id uses.old (items_of function.now)) }
{
    statements(uses, function.id, function.body.as_slice())?;
    uses.add(function.id, &function.close)?;
    Ok(())
}

fn no_uses(alloc: Global, functions: u32) -> Result<Uses, NoMemory>
    ensures { IfOk result (λ u. u ≡ uses [] [] [] (replicate functions []) (replicate functions false)) }
{
    Ok(Uses {
        functions: Vec::new(alloc),
        kinds: Vec::new(alloc),
        changes: Vec::new(alloc),
        calls: empty_rows(alloc, functions)?,
        created: vec![in alloc; false; functions as usize]?,
    })
}

/// The uses in a source.
pub(crate) fn find_uses(alloc: Global, checked: &Checked) -> Result<Uses, NoMemory>
    ensures { IfOk result (λ u. u ≡ uses_of checked.now.typed.functions) }
{
    let count = checked.functions();
    let mut uses = no_uses(alloc, count)?;
    'functions: for k in 0..count {
        function(&mut uses, checked.function(FunId(k)))?;
    }
    Ok(uses)
}
