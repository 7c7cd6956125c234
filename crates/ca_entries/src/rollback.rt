//! What a retry gives back.

ghost use Rattle.std.specs.Prelude.{◌≡◌, IfOk};
ghost use Rattle.ca_model.specs.declared.values.Given.{Given as Thing};
ghost use Rattle.ca_model.specs.Shared.{Shared};
ghost use Rattle.ca_model.specs.ComingEntries.{is_held};
ghost use Rattle.ca_entries.specs.Shares.{IsSharedBy, given_back};

use crate::entries::Parts;
use ca_model::{Addr, Given, Gives, Value};
use ca_tree::{Listed, NoMemory};
use ca_wants::is_first;
use std::alloc::Global;
use std::collections::BTreeSet;

// Whether a thread still holds a thing: it owns the mutex, or the block of the heap is live.
fn is_held(parts: Parts<'_>, thread: u32, thing: Given) -> bool
    ensures { (g : Shared) → IsSharedBy g parts.entry.memory.now parts.entry.owners.now parts.entry.threads → result ≡ is_held g thread thing }
{
    match thing {
        Given::Mutex(m) => parts.owners.owner_if_there(m) == Some(thread),
        Given::Block(block) => parts
            .memory
            .can_release(Value::Addr(Addr { block, offset: 0 })),
    }
}

/// What a retry of a thread gives back: of what it has taken, what it still holds, each thing once, the latest first. In
/// time of the list, but for the search among the things that were met.
pub fn gives(
    alloc: Global,
    parts: Parts<'_>,
    thread: u32,
    taken: &[Given],
) -> Result<Gives, NoMemory>
    ensures { IfOk result (λ gs. (g : Shared) → IsSharedBy g parts.entry.memory.now parts.entry.owners.now parts.entry.threads → gs ≡ given_back g thread taken.now) }
{
    let mut mutexes = BTreeSet::new(alloc);
    let mut blocks = BTreeSet::new(alloc);
    let mut given = Vec::new(alloc);
    let mut left = taken.len();
    'things: while left > 0 {
        left -= 1;
        let thing = taken[left];
        let first = is_first(&mut mutexes, &mut blocks, thing)?;
        if first && is_held(parts, thread, thing) {
            given.push(thing)?;
        }
    }
    Ok(Listed::from_vec(given))
}
