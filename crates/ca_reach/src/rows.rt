//! Rows of numbers, flags of numbers, and the items whose flags are set.

ghost use Rattle.std.specs.Prelude.{◌≡◌, ◌<◌, ◌≤◌, ◌+◌, ◌-◌, ◌↔◌, ◌⊎◌, [], ℕ, length, map, Contains, IfOk, replicate};
ghost use Rattle.std.specs.List.Sorted.{IsStrictlyIncreasing};
ghost use Rattle.ca_reach.specs.Reach.{IsSet, row, rows_of, Adds};

use ca_tree::{ItemId, NoMemory};
use std::alloc::Global;

/// A table of so many rows, each without a number. The only error is want of memory.
pub fn empty_rows(alloc: Global, count: u32) -> Result<Vec<Vec<u32>>, NoMemory>
    ensures { IfOk result (λ rows. rows_of rows.items ≡ replicate count []) }
{
    let mut rows = Vec::new(alloc);
    'rows: for _ in 0..count {
        rows.push(Vec::new(alloc))?;
    }
    Ok(rows)
}

/// Adds a number at the end of a row; a table without that row stays as it is. The only error is want of memory. It takes
/// constant time, but for a row that grows.
pub fn add(rows: &mut Vec<Vec<u32>>, n: u32, m: u32) -> Result<(), NoMemory>
    ensures length { IfOk result (λ u. length rows.new.items ≡ length rows.old.items) }
    ensures added { IfOk result (λ u. Adds (rows_of rows.old.items) (rows_of rows.new.items) n m) }
{
    let k = n as usize;
    if k < rows.len() {
        rows[k].push(m)?;
    }
    Ok(())
}

/// Sets the flag of a number, if there is one. It takes no memory, and constant time.
pub fn put(flags: &mut Vec<bool>, n: u32)
    ensures length { length flags.new.items ≡ length flags.old.items }
    ensures sets { (m : ℕ) → IsSet flags.new.items m ↔ (IsSet flags.old.items m ⊎ ((m ≡ n) × (n < length flags.old.items))) }
{
    let k = n as usize;
    if k < flags.len() {
        flags[k] = true;
    }
}

/// The items whose flags are set, in ascending order, where the flags are those of items numbered from a lowest one on. A
/// flag behind the highest number that there can be is no item's. The only error is want of memory.
pub fn items_at(alloc: Global, flags: &[bool], lowest: u32) -> Result<Vec<ItemId>, NoMemory>
    ensures exact { IfOk result (λ items. (n : ℕ) → n < 4294967296 → Contains (map (λ i. i.0) items.items) n ↔ ((lowest ≤ n) × IsSet flags.now (n - lowest))) }
    ensures ascend { IfOk result (λ items. IsStrictlyIncreasing (map (λ i. i.0) items.items)) }
{
    let mut items = Vec::new(alloc);
    let mut number = lowest;
    'flags: for b in flags {
        if *b {
            items.push(ItemId(number))?;
        }
        let Some(next) = number.checked_add(1) else {
            return Ok(items);
        };
        number = next;
    }
    Ok(items)
}
