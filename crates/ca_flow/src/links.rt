//! Where control goes on from each item.

ghost use Rattle.std.specs.Prelude.{◌≡◌, ◌++◌, ◌∷◌, IfOk, map, reverse};
ghost use Rattle.ca_model.specs.Links.{Ways, links_of, first_item, or_cond, link_to, else_first, else_links};
ghost use Rattle.ca_model.specs.declared.tree.Item.{Item};
ghost use Rattle.ca_model.specs.Destroying.{destroys, is_cell};
ghost use Rattle.ca_flow.specs.Linked.{link_at, AreWays, linked, first_of, links_from, links_from_all, first_of_all, act_links, flow_if_any};

use ca_model::{Act, Function, Item, Stmt, Target};
use ca_tree::{ItemId, NoMemory};
use sqlite_items::Boxed;
use std::alloc::Global;

/// The second item may be run directly after the first; whether the first destroys.
#[derive(Clone, Copy, Debug, PartialEq, Eq)]
pub struct Link {
    pub from: ItemId,
    pub to: ItemId,
    pub destroys: bool,
}

fn is_cell(target: &Target) -> bool
    ensures { result ≡ is_cell target.now }
{
    match target {
        Target::Local(_) => false,
        Target::Place(_) => true,
    }
}

/// Whether an item that does this destroys.
pub fn destroys(act: &Act) -> bool
    ensures { result ≡ destroys act.now }
{
    match act {
        Act::Zero(_) | Act::Lock(_) | Act::Assert(_) | Act::Cond(_) => false,
        Act::Set(target, _) | Act::Update(target, _, _) | Act::Malloc(target, _, _) => is_cell(
            target,
        ),
        _ => true,
    }
}

// Adds a link.
fn add(links: &mut Vec<Link>, i: &Item, to: ItemId) -> Result<(), NoMemory>
    ensures { IfOk result (λ u. reverse links.new.items ≡ link_at i.now to ∷ reverse links.old.items) }
{
    links.push(Link {
        from: i.id,
        to,
        destroys: destroys(&i.act),
    })?;
    Ok(())
}

// Adds the links of an item, and answers its number.
fn follow_item(links: &mut Vec<Link>, i: &Item, next: ItemId) -> Result<ItemId, NoMemory>
    ensures first { IfOk result (λ n. n ≡ i.now.id) }
    ensures added { IfOk result (λ n. (w : Ways) → w.next.id ≡ next → reverse links.new.items ≡ act_links i.now w ++ reverse links.old.items) }
{
    match &i.act {
        Act::Return(_) | Act::Close => {}
        _ => add(links, i, next)?,
    }
    Ok(i.id)
}

#[cycle(follow)]
// Adds the links of a statement, and answers its first item.
fn follow(
    links: &mut Vec<Link>,
    s: &Stmt,
    next: ItemId,
    leave: ItemId,
    again: ItemId,
) -> Result<ItemId, NoMemory>
    ensures first { IfOk result (λ n. (w : Ways) → AreWays w next leave again → n ≡ first_of s.now w) }
    ensures added { IfOk result (λ n. (w : Ways) → AreWays w next leave again → reverse links.new.items ≡ links_from s.now w ++ reverse links.old.items) }
{
    match s {
        Stmt::Item(i) => {
            let first = follow_item(links, i, next)?;
            Ok(first)
        }
        Stmt::Block(ss) => {
            let inner = ss.as_slice();
            let first = follow_all(links, inner, next, leave, again)?;
            Ok(first)
        }
        Stmt::If { cond, yes, no } => {
            let other = follow_else(links, no, next, leave, again)?;
            let inner = yes.get();
            let one = follow(links, inner, next, leave, again)?;
            add(links, cond, other)?;
            add(links, cond, one)?;
            Ok(cond.id)
        }
        Stmt::While { cond, body } => {
            let inner = body.get();
            let begin = follow(links, inner, cond.id, next, cond.id)?;
            add(links, cond, next)?;
            add(links, cond, begin)?;
            Ok(cond.id)
        }
        Stmt::Do { body, cond } => {
            let inner = body.get();
            let begin = follow(links, inner, cond.id, next, cond.id)?;
            add(links, cond, next)?;
            add(links, cond, begin)?;
            Ok(begin)
        }
        Stmt::For {
            first,
            cond,
            step,
            body,
        } => {
            let inner = body.get();
            let back = or_condition(step, cond.id);
            let begin = follow(links, inner, back, next, back)?;
            add_to(links, step, cond.id)?;
            add_to(links, first, cond.id)?;
            add(links, cond, next)?;
            add(links, cond, begin)?;
            let start = or_condition(first, cond.id);
            Ok(start)
        }
        Stmt::Break => Ok(leave),
        Stmt::Continue => Ok(again),
    }
}

#[cycle(follow)]
// Adds the links of the branch of an `else`, and answers where it begins.
fn follow_else(
    links: &mut Vec<Link>,
    no: &Option<Boxed<Stmt>>,
    next: ItemId,
    leave: ItemId,
    again: ItemId,
) -> Result<ItemId, NoMemory>
    ensures first { IfOk result (λ n. (w : Ways) → AreWays w next leave again → n ≡ (else_first (flow_if_any no.now) w).id) }
    ensures added { IfOk result (λ n. (w : Ways) → AreWays w next leave again → reverse links.new.items ≡ linked (else_links (flow_if_any no.now) w) ++ reverse links.old.items) }
{
    match no {
        None => Ok(next),
        Some(no) => {
            let inner = no.get();
            let first = follow(links, inner, next, leave, again)?;
            Ok(first)
        }
    }
}

#[cycle(follow)]
// Adds the links of statements one after another, and answers their first item.
fn follow_all(
    links: &mut Vec<Link>,
    ss: &[Stmt],
    next: ItemId,
    leave: ItemId,
    again: ItemId,
) -> Result<ItemId, NoMemory>
    ensures first { IfOk result (λ n. (w : Ways) → AreWays w next leave again → n ≡ first_of_all ss.now w) }
    ensures added { IfOk result (λ n. (w : Ways) → AreWays w next leave again → reverse links.new.items ≡ links_from_all ss.now w ++ reverse links.old.items) }
{
    let mut first = next;
    let mut left = ss.len();
    'back: while left > 0 {
        left -= 1;
        let s = &ss[left];
        first = follow(links, s, first, leave, again)?;
    }
    Ok(first)
}

fn or_condition(i: &Option<Item>, cond: ItemId) -> ItemId
    ensures { (c : Item) → c.id ≡ cond → result ≡ (or_cond i.now c).id }
{
    match i {
        None => cond,
        Some(i) => i.id,
    }
}

fn add_to(links: &mut Vec<Link>, i: &Option<Item>, cond: ItemId) -> Result<(), NoMemory>
    ensures { IfOk result (λ u. (c : Item) → c.id ≡ cond → reverse links.new.items ≡ linked (link_to i.now c) ++ reverse links.old.items) }
{
    match i {
        None => {}
        Some(i) => add(links, i, cond)?,
    }
    Ok(())
}

/// The first item of a function, and its links, the last ones first.
pub fn find_links(alloc: Global, f: &Function) -> Result<(ItemId, Vec<Link>), NoMemory>
    ensures first { IfOk result (λ r. r.0 ≡ (first_item f.now).id) }
    ensures links { IfOk result (λ r. reverse r.1.items ≡ linked (links_of f.now)) }
{
    let mut links = Vec::new(alloc);
    let body = f.body.as_slice();
    let first = follow_all(&mut links, body, f.close.id, f.close.id, f.close.id)?;
    Ok((first, links))
}
