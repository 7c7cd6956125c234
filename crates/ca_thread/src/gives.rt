//! The list of a retry.

ghost use Rattle.std.specs.Prelude.{◌≡◌, [], IfOk};
ghost use Rattle.ca_model.specs.Hardened.{same_given, is_part, latest_first};
ghost use Rattle.ca_model.specs.declared.values.Given.{Given as Thing};
ghost use Rattle.ca_thread.specs.Gives.{behind, has, with_new};
ghost use Rattle.ca_wants.specs.Met.{met};

use ca_model::Given;
use ca_tree::NoMemory;
use ca_wants::is_first;
use std::alloc::Global;
use std::collections::BTreeSet;

fn same_given(a: &Given, b: &Given) -> bool
    ensures { result ≡ same_given a.now b.now }
{
    match (a, b) {
        (Given::Mutex(m), Given::Mutex(n)) => m.0 == n.0,
        (Given::Block(m), Given::Block(n)) => *m == *n,
        (Given::Mutex(_), Given::Block(_)) | (Given::Block(_), Given::Mutex(_)) => false,
    }
}

// What is left of a list behind one thing: its first is taken away, where it is this one.
fn behind<'a>(gives: &'a [Given], one: &Given) -> &'a [Given]
    ensures { result.now ≡ behind gives.now one.now }
{
    match gives.split_first() {
        None => gives,
        Some((first, rest)) => { if same_given(first, one) { rest } else { gives } }
    }
}

fn is_used_up(gives: &[Given]) -> bool
    ensures { result ≡ is_part gives.now [] }
{
    match gives.split_first() {
        None => true,
        Some(_) => false,
    }
}

/// Whether some things are others with some left out, in their order.
pub(crate) fn is_part(gives: &[Given], of: &[Given]) -> bool
    ensures { result ≡ is_part gives.now of.now }
{
    let mut left = gives;
    'of: for one in of {
        left = behind(left, one);
    }
    is_used_up(left)
}

// One thing more, where it is met for the first time.
fn add_new(
    mutexes: &mut BTreeSet<u32>,
    blocks: &mut BTreeSet<u32>,
    list: &mut Vec<Given>,
    one: Given,
) -> Result<(), NoMemory>
    requires known { (g : Thing) → met mutexes.old blocks.old g ≡ has list.old.items g }
    ensures list { IfOk result (λ u. list.new.items ≡ with_new list.old.items one) }
    ensures known { IfOk result (λ u. (g : Thing) → met mutexes.new blocks.new g ≡ has list.new.items g) }
{
    let first = is_first(mutexes, blocks, one)?;
    if !first {
        return Ok(());
    }
    list.push(one)?;
    Ok(())
}

/// Things that were taken, each at its latest place, the latest first. In time of the list, but for the search among the
/// things that were met.
pub(crate) fn latest_first(alloc: Global, taken: &[Given]) -> Result<Vec<Given>, NoMemory>
    ensures { IfOk result (λ gs. gs.items ≡ latest_first taken.now) }
{
    let mut mutexes = BTreeSet::new(alloc);
    let mut blocks = BTreeSet::new(alloc);
    let mut list = Vec::new(alloc);
    let mut left = taken.len();
    'taken: while left > 0 {
        left -= 1;
        add_new(&mut mutexes, &mut blocks, &mut list, taken[left])?;
    }
    Ok(list)
}
