//! Whether a plan fits a source.

ghost use Rattle.std.specs.Prelude.{◌≡◌, ◌↔◌, ◌-◌, IsTrue, true, []};
ghost use Rattle.ca_model.specs.Eval.{part, spot, access};
ghost use Rattle.ca_model.specs.Items.{aim_sites, access_sites};
ghost use Rattle.ca_model.specs.Sites.{if_any, sites_of_all, act_sites, items_in, items_in_all, items_of};
ghost use Rattle.ca_model.specs.Plans.{can_acquire, Fits};
ghost use Rattle.ca_model.specs.Fitting.{without, can_save, behind_item, begin_function, behind_items, behind_functions, left, ascending_to};

use crate::checked::Checked;
use crate::plan::Plan;
use crate::tree::{Act, Exp, Function, Item, Place, Stmt, Target};
use ca_tree::{FunId, ItemId, SiteId};
use std::marker::Model;

// How many sites there have to be yet, behind an access.
fn behind_access(through: bool, sites: u32) -> u32
    ensures { result ≡ sites - access through }
{
    if through {
        sites.saturating_sub(1)
    } else {
        sites
    }
}

// And behind an expression.
#[cycle(sites)]
fn behind_exp(exp: &Exp, sites: u32) -> u32
    ensures { result ≡ sites - (part exp.now).sites }
{
    match exp {
        Exp::Num(_) | Exp::Null | Exp::Local(_) | Exp::Global(_) => sites,
        Exp::Load(place, _) => behind_access(place.through, behind_place(place, sites)),
        Exp::AddressOf(place) => behind_place(place, sites),
        Exp::Negate(a) | Exp::Not(a) => behind_exp(a.get(), sites),
        Exp::Binary(_, a, b) | Exp::And(a, b) | Exp::Or(a, b) => {
            let between = behind_exp(a.get(), sites);
            behind_exp(b.get(), between)
        }
    }
}

#[cycle(sites)]
fn behind_place(place: &Place, sites: u32) -> u32
    ensures { result ≡ sites - (spot place.now).sites }
{
    let between = behind_exp(place.base.get(), sites);
    match &place.index {
        None => between,
        Some((index, _)) => behind_exp(index.get(), between),
    }
}

fn behind_exps(exps: &[Exp], sites: u32) -> u32
    ensures { result ≡ sites - sites_of_all exps.now }
{
    let mut left = sites;
    for exp in exps {
        left = behind_exp(exp, left);
    }
    left
}

fn behind_aim(target: &Target, sites: u32) -> u32
    ensures { result ≡ sites - aim_sites target.now }
{
    match target {
        Target::Local(_) => sites,
        Target::Place(place) => behind_place(place, sites),
    }
}

fn behind_target(target: &Target, sites: u32) -> u32
    ensures { result ≡ sites - access_sites target.now }
{
    match target {
        Target::Local(_) => sites,
        Target::Place(place) => behind_access(place.through, sites),
    }
}

// The sites of an item in their order are those of its parts.
fn behind_act(act: &Act, sites: u32) -> u32
    ensures { result ≡ sites - act_sites act.now }
{
    match act {
        Act::Zero(_) | Act::Unlock(_) | Act::Close => sites,
        Act::Set(target, exp) | Act::Malloc(target, exp, _) => {
            let aimed = behind_aim(target, sites);
            behind_target(target, behind_exp(exp, aimed))
        }
        Act::Update(target, _, exp) => {
            let read = behind_target(target, behind_aim(target, sites));
            behind_target(target, behind_exp(exp, read))
        }
        Act::Call(_, _, exps) => behind_exps(exps.as_slice(), sites),
        Act::Print(_, exps) => behind_exps(exps.as_slice(), sites),
        Act::Lock(_) => sites.saturating_sub(1),
        Act::Create(_, _, exp) | Act::Join(exp) | Act::Cond(exp) => behind_exp(exp, sites),
        Act::Free(exp) | Act::Assert(exp) => behind_exp(exp, sites).saturating_sub(1),
        Act::Return(None) => sites,
        Act::Return(Some(exp)) => behind_exp(exp, sites),
    }
}

// Whether a save may stand behind an item: it destroys, and isn't the last of its function.
fn can_save(act: &Act) -> bool
    ensures { result ≡ can_save act.now }
{
    match act {
        Act::Set(target, _) | Act::Update(target, _, _) | Act::Malloc(target, _, _) => {
            matches!(target, Target::Place(_))
        }
        Act::Unlock(_)
        | Act::Free(_)
        | Act::Print(..)
        | Act::Create(..)
        | Act::Join(_)
        | Act::Call(..) => true,
        Act::Zero(_) | Act::Lock(_) | Act::Assert(_) | Act::Cond(_) | Act::Return(_) | Act::Close =>
            false,
    }
}

fn can_acquire(act: &Act) -> bool
    ensures { result ≡ can_acquire act.now }
{
    matches!(act, Act::Lock(_) | Act::Malloc(..))
}

// Items from which the first is taken, where it is this one and may stand there.
fn without_item(items: &[ItemId], may_stand: bool, item: ItemId) -> &[ItemId]
    ensures { result.now ≡ without (λ j. j.0) may_stand item.0 items.now }
{
    match items.split_first() {
        None => items,
        Some((first, rest)) => {
            if may_stand && first.0 == item.0 {
                rest
            } else {
                items
            }
        }
    }
}

fn without_function(functions: &[FunId], function: FunId) -> &[FunId]
    ensures { result.now ≡ without (λ g. g.0) true function.0 functions.now }
{
    match functions.split_first() {
        None => functions,
        Some((first, rest)) => {
            if first.0 == function.0 {
                rest
            } else {
                functions
            }
        }
    }
}

// What is left of a plan's lists, and how many sites there have to be yet.
#[derive(Drop)]
struct Left<'a> {
    saves: &'a [ItemId],
    acquires: &'a [ItemId],
    entries: &'a [FunId],
    sites: u32,
}

impl<'a> Model for Left<'a> {
    ghost use Rattle.ca_model.specs.Fitting as fitting;

    ghost Value = { fitting.Left };

    ghost view = { λ l. fitting.left l.saves.now l.acquires.now l.entries.now l.sites };
}

impl<'a> Left<'a> {
    fn pass(&mut self, item: &Item)
        ensures { self.new ≡ behind_item self.old item.now }
    {
        self.saves = without_item(self.saves, can_save(&item.act), item.id);
        self.acquires = without_item(self.acquires, can_acquire(&item.act), item.id);
        self.sites = behind_act(&item.act, self.sites);
    }

    fn is_nothing(&self) -> bool
        ensures { IsTrue result ↔ (self.now ≡ left [] [] [] 0) }
    {
        self.saves.is_empty()
            && self.acquires.is_empty()
            && self.entries.is_empty()
            && self.sites == 0
    }

    fn begin(&mut self, function: FunId)
        ensures { self.new ≡ begin_function self.old function }
    {
        self.entries = without_function(self.entries, function);
    }
}

fn pass_if_there(item: &Option<Item>, left: &mut Left<'_>)
    ensures { left.new ≡ behind_items left.old (if_any item.now) }
{
    if let Some(item) = item {
        left.pass(item);
    }
}

#[cycle(statement)]
fn statement(stmt: &Stmt, left: &mut Left<'_>)
    ensures { left.new ≡ behind_items left.old (items_in stmt.now) }
{
    match stmt {
        Stmt::Item(item) => left.pass(item),
        Stmt::Block(stmts) => statements(stmts.as_slice(), left),
        Stmt::If { cond, yes, no } => {
            left.pass(cond);
            statement(yes.get(), left);
            if let Some(no) = no {
                statement(no.get(), left);
            }
        }
        Stmt::While { cond, body } => {
            left.pass(cond);
            statement(body.get(), left);
        }
        Stmt::Do { body, cond } => {
            statement(body.get(), left);
            left.pass(cond);
        }
        Stmt::For {
            first,
            cond,
            step,
            body,
        } => {
            pass_if_there(first, left);
            left.pass(cond);
            pass_if_there(step, left);
            statement(body.get(), left);
        }
        Stmt::Break | Stmt::Continue => {}
    }
}

#[cycle(statement)]
fn statements(stmts: &[Stmt], left: &mut Left<'_>)
    ensures { left.new ≡ behind_items left.old (items_in_all stmts.now) }
{
    for stmt in stmts {
        statement(stmt, left);
    }
}

fn function(function: &Function, left: &mut Left<'_>)
    ensures { left.new ≡ behind_items (begin_function left.old function.now.id) (items_of function.now) }
{
    left.begin(function.id);
    statements(function.body.as_slice(), left);
    left.pass(&function.close);
}

fn functions(functions: &[Function], left: &mut Left<'_>)
    ensures { left.new ≡ behind_functions left.old functions.now }
{
    for each in functions {
        function(each, left);
    }
}

// The last of some sites, where they ascend from 1 on; 0 where there is none.
fn last_site(sites: &[SiteId]) -> Option<u32>
    ensures { result ≡ ascending_to 0 sites.now }
{
    let mut last = 0;
    for site in sites {
        if site.0 <= last {
            return None;
        }
        last = site.0;
    }
    Some(last)
}

/// Whether a plan fits a source: its limit is at most 10,000, its lists ascend, and each number in them is there. A save
/// stands behind an item that destroys and isn't a `return` or a closing brace, and an item that acquires is a lock
/// or has a `malloc`. It takes no memory, and one walk over the source.
pub fn fits(checked: &Checked, plan: &Plan) -> bool
    ensures { IsTrue result ↔ Fits checked.now.typed plan.now }
{
    let all = checked.all_functions();
    if plan.limit > 10_000 {
        return false;
    }
    let Some(sites) = last_site(plan.sites.as_slice()) else {
        return false;
    };
    let mut left = Left {
        saves: plan.saves_after.as_slice(),
        acquires: plan.acquires.as_slice(),
        entries: plan.saves_at_entry.as_slice(),
        sites,
    };
    functions(all, &mut left);
    left.is_nothing()
}
