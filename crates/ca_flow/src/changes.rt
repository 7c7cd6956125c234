//! What items do, as a plan asks for it: whether they read what is shared or allocate, at all and before each of their sites.

ghost use Rattle.std.specs.Prelude.{◌≡◌, ◌++◌, ◌∷◌, [], IfOk};
ghost use Rattle.ca_model.specs.Accesses.{At_site, A_free, An_assertion, A_lock, loads, stores, accesses, accesses_to, accesses_of_all, aim_accesses, target_loads, target_stores, act_accesses, sites_after};
ghost use Rattle.ca_model.specs.Destroying.{is_lock, has_malloc};
ghost use Rattle.ca_flow.specs.Changes.{seen, see, kind_of_act, changes_before};

use ca_model::{Act, Exp, Item, Place, Target};
use ca_tree::NoMemory;

/// What an item does, as a plan asks for it: whether it is a lock, whether it has a `malloc`, and whether it reads what is
/// shared or allocates.
#[derive(Clone, Copy, Debug, PartialEq, Eq)]
pub struct ItemKind {
    pub is_lock: bool,
    pub has_malloc: bool,
    pub can_change: bool,
}

// In each function here `changes` tells of each site so far whether something earlier in its item can change, and `changed`
// whether something in the item can change so far; so does the result.

// A load, which is a site where it goes through a pointer or an index.
fn load(changes: &mut Vec<bool>, changed: bool, through: bool) -> Result<bool, NoMemory>
    ensures { IfOk result (λ c. seen changes.new.items c ≡ see (seen changes.old.items changed) (loads through)) }
{
    if through {
        changes.push(changed)?;
    }
    Ok(true)
}

// A store.
fn store(changes: &mut Vec<bool>, changed: bool, through: bool) -> Result<bool, NoMemory>
    ensures { IfOk result (λ c. seen changes.new.items c ≡ see (seen changes.old.items changed) (stores through)) }
{
    if through {
        changes.push(changed)?;
    }
    Ok(changed)
}

#[cycle(exp)]
fn exp(e: &Exp, changes: &mut Vec<bool>, changed: bool) -> Result<bool, NoMemory>
    ensures { IfOk result (λ c. seen changes.new.items c ≡ see (seen changes.old.items changed) (accesses e.now)) }
{
    match e {
        Exp::Num(_) | Exp::Null | Exp::Local(_) | Exp::Global(_) => Ok(changed),
        Exp::Load(at, _) => {
            let changed = place(at, changes, changed)?;
            load(changes, changed, at.through)
        }
        Exp::AddressOf(at) => place(at, changes, changed),
        Exp::Negate(a) | Exp::Not(a) => exp(a.get(), changes, changed),
        Exp::Binary(_, a, b) | Exp::And(a, b) | Exp::Or(a, b) => {
            let changed = exp(a.get(), changes, changed)?;
            exp(b.get(), changes, changed)
        }
    }
}

// What is done to find a place: its base, and then its index.
#[cycle(exp)]
fn place(at: &Place, changes: &mut Vec<bool>, changed: bool) -> Result<bool, NoMemory>
    ensures { IfOk result (λ c. seen changes.new.items c ≡ see (seen changes.old.items changed) (accesses_to at.now).1) }
{
    let changed = exp(at.base.get(), changes, changed)?;
    match &at.index {
        None => Ok(changed),
        Some((index, _)) => exp(index.get(), changes, changed),
    }
}

fn exps(es: &[Exp], changes: &mut Vec<bool>, changed: bool) -> Result<bool, NoMemory>
    ensures { IfOk result (λ c. seen changes.new.items c ≡ see (seen changes.old.items changed) (accesses_of_all es.now)) }
{
    let mut changed = changed;
    'each: for e in es {
        changed = exp(e, changes, changed)?;
    }
    Ok(changed)
}

fn aim(target: &Target, changes: &mut Vec<bool>, changed: bool) -> Result<bool, NoMemory>
    ensures { IfOk result (λ c. seen changes.new.items c ≡ see (seen changes.old.items changed) (aim_accesses target.now)) }
{
    match target {
        Target::Local(_) => Ok(changed),
        Target::Place(at) => place(at, changes, changed),
    }
}

fn load_target(target: &Target, changes: &mut Vec<bool>, changed: bool) -> Result<bool, NoMemory>
    ensures { IfOk result (λ c. seen changes.new.items c ≡ see (seen changes.old.items changed) (target_loads target.now)) }
{
    match target {
        Target::Local(_) => Ok(changed),
        Target::Place(at) => load(changes, changed, at.through),
    }
}

fn store_target(target: &Target, changes: &mut Vec<bool>, changed: bool) -> Result<bool, NoMemory>
    ensures { IfOk result (λ c. seen changes.new.items c ≡ see (seen changes.old.items changed) (target_stores target.now)) }
{
    match target {
        Target::Local(_) => Ok(changed),
        Target::Place(at) => store(changes, changed, at.through),
    }
}

// An expression, and then a site that reads nothing.
fn exp_and_site(e: &Exp, changes: &mut Vec<bool>, changed: bool) -> Result<bool, NoMemory>
    ensures free { IfOk result (λ c. seen changes.new.items c ≡ see (seen changes.old.items changed) (accesses e.now ++ At_site A_free ∷ [])) }
    ensures assertion { IfOk result (λ c. seen changes.new.items c ≡ see (seen changes.old.items changed) (accesses e.now ++ At_site An_assertion ∷ [])) }
{
    let changed = exp(e, changes, changed)?;
    changes.push(changed)?;
    Ok(changed)
}

#[tactic(auto, using(crate::proofs::SeenChanges::see_append))]
fn act(act: &Act, changes: &mut Vec<bool>, changed: bool) -> Result<bool, NoMemory>
    ensures { IfOk result (λ c. seen changes.new.items c ≡ see (seen changes.old.items changed) (act_accesses act.now)) }
{
    match act {
        Act::Zero(_) | Act::Unlock(_) | Act::Close => Ok(changed),
        Act::Return(None) => Ok(changed),
        Act::Set(target, e) => {
            let changed = aim(target, changes, changed)?;
            let changed = exp(e, changes, changed)?;
            store_target(target, changes, changed)
        }
        Act::Malloc(target, e, _) => {
            let changed = aim(target, changes, changed)?;
            exp(e, changes, changed)?;
            store_target(target, changes, true)
        }
        Act::Update(target, _, e) => {
            let changed = aim(target, changes, changed)?;
            let changed = load_target(target, changes, changed)?;
            let changed = exp(e, changes, changed)?;
            store_target(target, changes, changed)
        }
        Act::Call(_, _, es) => exps(es.as_slice(), changes, changed),
        Act::Print(_, es) => exps(es.as_slice(), changes, changed),
        Act::Lock(_) => {
            changes.push(changed)?;
            Ok(changed)
        }
        Act::Create(_, _, e) | Act::Join(e) | Act::Cond(e) => exp(e, changes, changed),
        Act::Return(Some(e)) => exp(e, changes, changed),
        Act::Free(e) | Act::Assert(e) => exp_and_site(e, changes, changed),
    }
}

fn is_lock(act: &Act) -> bool
    ensures { result ≡ is_lock act.now }
{
    matches!(act, Act::Lock(_))
}

fn has_malloc(act: &Act) -> bool
    ensures { result ≡ has_malloc act.now }
{
    matches!(act, Act::Malloc(_, _, _))
}

/// What an item does; and at the end of `changes`, for each of its sites, whether something earlier in the item reads what is
/// shared or allocates.
pub(crate) fn kind_of(item: &Item, changes: &mut Vec<bool>) -> Result<ItemKind, NoMemory>
    ensures kind { IfOk result (λ k. k ≡ kind_of_act item.now.act) }
    ensures sites { IfOk result (λ k. changes.new.items ≡ changes.old.items ++ changes_before (sites_after item.now [] (act_accesses item.now.act))) }
{
    let can_change = act(&item.act, changes, false)?;
    Ok(ItemKind {
        is_lock: is_lock(&item.act),
        has_malloc: has_malloc(&item.act),
        can_change,
    })
}
