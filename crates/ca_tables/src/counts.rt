//! The numbers of the sites of each item.

ghost use Rattle.std.specs.Prelude.{◌≡◌, ◌-◌, ◌∷◌, IfOk, OnOk};
ghost use Rattle.ca_model.specs.Eval.{part, spot, access};
ghost use Rattle.ca_model.specs.Items.{aim_sites, access_sites};
ghost use Rattle.ca_model.specs.Sites.{if_any, sites_of_all, act_sites, items_in, items_in_all, items_of, all_items};
ghost use Rattle.ca_tables.specs.Counted.{count_item, count_items, behind_each};

use ca_model::{Act, Checked, Exp, Function, Item, Place, Stmt, Target};
use ca_tree::{FunId, NoMemory};
use std::alloc::Global;
use std::marker::Model;

// How many numbers are left behind an access.
fn left_behind_access(through: bool, left: u32) -> u32
    ensures { result ≡ left - access through }
{
    if through {
        left.saturating_sub(1)
    } else {
        left
    }
}

// And behind an expression.
#[cycle(sites)]
fn left_behind_exp(exp: &Exp, left: u32) -> u32
    ensures { result ≡ left - (part exp.now).sites }
{
    match exp {
        Exp::Num(_) | Exp::Null | Exp::Local(_) | Exp::Global(_) => left,
        Exp::Load(place, _) => left_behind_access(place.through, left_behind_place(place, left)),
        Exp::AddressOf(place) => left_behind_place(place, left),
        Exp::Negate(a) | Exp::Not(a) => left_behind_exp(a.get(), left),
        Exp::Binary(_, a, b) | Exp::And(a, b) | Exp::Or(a, b) => {
            let between = left_behind_exp(a.get(), left);
            left_behind_exp(b.get(), between)
        }
    }
}

#[cycle(sites)]
fn left_behind_place(place: &Place, left: u32) -> u32
    ensures { result ≡ left - (spot place.now).sites }
{
    let between = left_behind_exp(place.base.get(), left);
    match &place.index {
        None => between,
        Some((index, _)) => left_behind_exp(index.get(), between),
    }
}

fn left_behind_exps(exps: &[Exp], left: u32) -> u32
    ensures { result ≡ left - sites_of_all exps.now }
{
    let mut rest = left;
    for exp in exps {
        rest = left_behind_exp(exp, rest);
    }
    rest
}

fn left_behind_aim(target: &Target, left: u32) -> u32
    ensures { result ≡ left - aim_sites target.now }
{
    match target {
        Target::Local(_) => left,
        Target::Place(place) => left_behind_place(place, left),
    }
}

fn left_behind_target(target: &Target, left: u32) -> u32
    ensures { result ≡ left - access_sites target.now }
{
    match target {
        Target::Local(_) => left,
        Target::Place(place) => left_behind_access(place.through, left),
    }
}

fn left_behind_act(act: &Act, left: u32) -> u32
    ensures { result ≡ left - act_sites act.now }
{
    match act {
        Act::Zero(_) | Act::Unlock(_) | Act::Close => left,
        Act::Set(target, exp) | Act::Malloc(target, exp, _) => {
            let aimed = left_behind_aim(target, left);
            left_behind_target(target, left_behind_exp(exp, aimed))
        }
        Act::Update(target, _, exp) => {
            let read = left_behind_target(target, left_behind_aim(target, left));
            left_behind_target(target, left_behind_exp(exp, read))
        }
        Act::Call(_, _, exps) => left_behind_exps(exps.as_slice(), left),
        Act::Print(_, exps) => left_behind_exps(exps.as_slice(), left),
        Act::Lock(_) => left.saturating_sub(1),
        Act::Create(_, _, exp) | Act::Join(exp) | Act::Cond(exp) => left_behind_exp(exp, left),
        Act::Free(exp) | Act::Assert(exp) => left_behind_exp(exp, left).saturating_sub(1),
        Act::Return(None) => left,
        Act::Return(Some(exp)) => left_behind_exp(exp, left),
    }
}

// The number behind the last site of each item so far, and the next one.
#[derive(Drop)]
struct Counting {
    behind: Vec<u32>,
    next: u32,
}

impl Model for Counting {
    ghost use Rattle.ca_tables.specs.Counted.{Counted};

    ghost Value = { Counted };

    ghost view = { λ c. record { behind = c.behind.items; next = c.next } };
}

impl Counting {
    // A source whose sites have no numbers of 32 bits doesn't fit into memory.
    fn pass(&mut self, item: &Item) -> Result<(), NoMemory>
        ensures { OnOk result (self.new ≡ count_item self.old item.now) }
    {
        let left = left_behind_act(&item.act, u32::MAX - self.next);
        if left == 0 {
            return Err(NoMemory);
        }
        let next = u32::MAX - left;
        self.behind.push(next)?;
        self.next = next;
        Ok(())
    }

    fn pass_if_there(&mut self, item: &Option<Item>) -> Result<(), NoMemory>
        ensures { OnOk result (self.new ≡ count_items self.old (if_any item.now)) }
    {
        if let Some(item) = item {
            self.pass(item)?;
        }
        Ok(())
    }
}

#[cycle(statement)]
fn statement(stmt: &Stmt, counting: &mut Counting) -> Result<(), NoMemory>
    ensures { OnOk result (counting.new ≡ count_items counting.old (items_in stmt.now)) }
{
    match stmt {
        Stmt::Item(item) => {
            counting.pass(item)?;
            Ok(())
        }
        Stmt::Block(stmts) => {
            statements(stmts.as_slice(), counting)?;
            Ok(())
        }
        Stmt::If { cond, yes, no } => {
            counting.pass(cond)?;
            statement(yes.get(), counting)?;
            match no {
                Some(no) => {
                    statement(no.get(), counting)?;
                    Ok(())
                }
                None => Ok(()),
            }
        }
        Stmt::While { cond, body } => {
            counting.pass(cond)?;
            statement(body.get(), counting)?;
            Ok(())
        }
        Stmt::Do { body, cond } => {
            statement(body.get(), counting)?;
            counting.pass(cond)?;
            Ok(())
        }
        Stmt::For {
            first,
            cond,
            step,
            body,
        } => {
            counting.pass_if_there(first)?;
            counting.pass(cond)?;
            counting.pass_if_there(step)?;
            statement(body.get(), counting)?;
            Ok(())
        }
        Stmt::Break | Stmt::Continue => Ok(()),
    }
}

#[cycle(statement)]
fn statements(stmts: &[Stmt], counting: &mut Counting) -> Result<(), NoMemory>
    ensures { OnOk result (counting.new ≡ count_items counting.old (items_in_all stmts.now)) }
{
    for stmt in stmts {
        statement(stmt, counting)?;
    }
    Ok(())
}

fn function(function: &Function, counting: &mut Counting) -> Result<(), NoMemory>
    ensures { OnOk result (counting.new ≡ count_items counting.old (items_of function.now)) }
{
    statements(function.body.as_slice(), counting)?;
    counting.pass(&function.close)?;
    Ok(())
}

// For each item by its number the number behind its last site; it is 1 before the first item.
pub(crate) fn numbers_behind(alloc: Global, checked: &Checked) -> Result<Vec<u32>, NoMemory>
    ensures { IfOk result (λ v. v.items ≡ 1 ∷ behind_each 1 (all_items checked.now.typed.functions)) }
{
    let mut behind = Vec::new(alloc);
    behind.push(1)?;
    let mut counting = Counting { behind, next: 1 };
    for number in 0..checked.functions() {
        function(checked.function(FunId(number)), &mut counting)?;
    }
    Ok(counting.behind)
}
