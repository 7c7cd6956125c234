//! What lowering looks up in a source with its plan.

ghost use Rattle.std.specs.Prelude.{◌≡◌, ◌+◌, ◌==◌, ◌||◌, ℕ, false, get_or, Contains, IfOk, OnOk};
ghost use Rattle.ca_tree.specs.declared.numbers.FunId.{FunId};
ghost use Rattle.ca_tree.specs.declared.numbers.ItemId.{ItemId};
ghost use Rattle.ca_tree.specs.declared.numbers.SiteId.{SiteId};
ghost use Rattle.ca_model.specs.Codes.{code_of};
ghost use Rattle.ca_model.specs.Sites.{act_sites, all_items};
ghost use Rattle.ca_model.specs.WellFormed.{IsWellFormed};
ghost use Rattle.ca_model.specs.Bounds.{IsBounded};
ghost use Rattle.ca_tables.specs.Tabled.{Tells};

use crate::counts::numbers_behind;
use ca_model::{Checked, Item, Plan, typed_programs_are_well_formed};
use ca_tree::{FunId, ItemId, NoMemory, SiteId};
use std::alloc::Global;
use std::marker::Model;

// Puts a number into a table of numbers.
fn put(table: &mut Vec<bool>, number: u32) -> Result<(), NoMemory>
    ensures { OnOk result ((n : ℕ) → get_or table.new.items n false ≡ (number == n || get_or table.old.items n false)) }
{
    let index = number as usize;
    'room: while table.len() <= index {
        table.push(false)?;
    }
    table[index] = true;
    Ok(())
}

fn table_of_items(alloc: Global, items: &[ItemId]) -> Result<Vec<bool>, NoMemory>
    ensures { IfOk result (λ table. Tells table.items (λ (i : ItemId). i.0) items.now) }
{
    let mut table = Vec::new(alloc);
    'items: for item in items {
        put(&mut table, item.0)?;
    }
    Ok(table)
}

fn table_of_functions(alloc: Global, functions: &[FunId]) -> Result<Vec<bool>, NoMemory>
    ensures { IfOk result (λ table. Tells table.items (λ (f : FunId). f.0) functions.now) }
{
    let mut table = Vec::new(alloc);
    'functions: for function in functions {
        put(&mut table, function.0)?;
    }
    Ok(table)
}

fn table_of_sites(alloc: Global, sites: &[SiteId]) -> Result<Vec<bool>, NoMemory>
    ensures { IfOk result (λ table. Tells table.items (λ (s : SiteId). s.0) sites.now) }
{
    let mut table = Vec::new(alloc);
    'sites: for site in sites {
        put(&mut table, site.0)?;
    }
    Ok(table)
}

// Whether a number stands in a table.
fn stands_in(table: &[bool], number: u32) -> bool
    ensures { result ≡ get_or table.now number false }
{
    match table.get(number as usize) {
        Some(stands) => *stands,
        None => false,
    }
}

fn number_at(table: &[u32], place: u32) -> u32
    ensures { result ≡ get_or table.now place 0 }
{
    match table.get(place as usize) {
        Some(number) => *number,
        None => 0,
    }
}

/// A source with its plan. For each item by its number the number behind its last site; and which items, functions and
/// sites the plan has.
#[derive(Drop)]
pub struct Tables<'a> {
    checked: &'a Checked,
    plan: &'a Plan,
    behind: Vec<u32>,
    saves: Vec<bool>,
    entries: Vec<bool>,
    sites: Vec<bool>,
    acquires: Vec<bool>,
}

impl<'a> Model for Tables<'a> {
    ghost use Rattle.ca_model.specs.contracts.tree.Stmt as stmt;
    ghost use Rattle.ca_model.specs.contracts.tree.Exp as exp;
    ghost use Rattle.ca_model.specs.contracts.tree.Place as place;
    ghost use Rattle.std.specs.Coded.{codes};
    ghost use Rattle.ca_tables.specs.Tabled.{Planned, AreTables};

    ghost Value = { Planned };

    ghost coded = { Prim.hlevel (codes, stmt.the_row.coded, exp.the_row.coded, place.the_row.coded) };

    ghost view = { λ t. record { source = t.checked.now.typed; plan = t.plan.now } };

    ghost invariant = { λ t. AreTables (record { source = t.checked.now.typed; plan = t.plan.now }) t.behind.items t.saves.items t.entries.items t.sites.items t.acquires.items };
}

impl<'a> Tables<'a> {
    /// The tables of a source and a plan.
    pub fn new(alloc: Global, checked: &'a Checked, plan: &'a Plan) -> Result<Tables<'a>, NoMemory>
        ensures source { IfOk result (λ t. t.source ≡ checked.now.typed) }
        ensures plan { IfOk result (λ t. t.plan ≡ plan.now) }
    {
        typed_programs_are_well_formed();
        let _program = checked.program();
        let behind = numbers_behind(alloc, checked)?;
        let saves = table_of_items(alloc, plan.saves_after.as_slice())?;
        let entries = table_of_functions(alloc, plan.saves_at_entry.as_slice())?;
        let sites = table_of_sites(alloc, plan.sites.as_slice())?;
        let acquires = table_of_items(alloc, plan.acquires.as_slice())?;
        Ok(Tables {
            checked,
            plan,
            behind,
            saves,
            entries,
            sites,
            acquires,
        })
    }

    /// Its source is well-formed and within its bounds.
    pub fn known(&self)
        ensures formed { IsWellFormed self.now.source }
        ensures bounded { IsBounded self.now.source }
    {
        let _plan = self.plan;
    }

    /// The number behind the last site of an item of the source. It takes no memory.
    pub fn behind(&self, item: &Item) -> u32
        requires { Contains (all_items self.now.source.functions) item.now }
        ensures { result ≡ (code_of self.now.source self.now.plan).first_site item.now.id + act_sites item.now.act }
    {
        number_at(&self.behind, item.id.0)
    }

    /// Whether the plan has a save after an item. It takes no memory.
    pub fn saves_after(&self, item: ItemId) -> bool
        ensures { result ≡ (code_of self.now.source self.now.plan).saves_after item }
    {
        stands_in(&self.saves, item.0)
    }

    /// Whether it has a save at the entry of a function. It takes no memory.
    pub fn saves_at_entry(&self, function: FunId) -> bool
        ensures { result ≡ (code_of self.now.source self.now.plan).saves_at_entry function }
    {
        stands_in(&self.entries, function.0)
    }

    /// Whether it has a site. It takes no memory.
    pub fn is_planned(&self, site: SiteId) -> bool
        ensures { result ≡ (code_of self.now.source self.now.plan).planned site }
    {
        stands_in(&self.sites, site.0)
    }

    /// Whether an item acquires in it. It takes no memory.
    pub fn acquires(&self, item: ItemId) -> bool
        ensures { result ≡ (code_of self.now.source self.now.plan).acquires item }
    {
        stands_in(&self.acquires, item.0)
    }
}
