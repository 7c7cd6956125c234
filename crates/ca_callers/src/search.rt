//! One layer of a search: the items that are reached with so many calls gone up.

ghost use Rattle.std.specs.Prelude.{◌≡◌, ◌<◌, ◌++◌, ◌↔◌, ◌⊎◌, ℕ, true, false, length, map, Contains, IfOk, replicate};
ghost use Rattle.ca_reach.specs.Reach.{row, rows_of, Reached};
ghost use Rattle.ca_callers.specs.Callers.{AreSmall, InOneRow, IsClosed, IsLayer, Sets};

use crate::tables::Tables;
use ca_reach::{items_at, put, reached, row};
use ca_tree::{FunId, ItemId, NoMemory};
use std::alloc::Global;

/// Flags of the items that stand before some, of those behind which paths stop, and of the functions at whose entry they do.
#[derive(Drop)]
pub(crate) struct Marks {
    pub(crate) before: Vec<bool>,
    pub(crate) after: Vec<bool>,
    pub(crate) entries: Vec<bool>,
}

/// No marks yet.
pub(crate) fn no_marks(alloc: Global, tables: &Tables) -> Result<Marks, NoMemory>
    ensures before { IfOk result (λ marks. marks.before.items ≡ replicate (length tables.now.back.items) false) }
    ensures after { IfOk result (λ marks. marks.after.items ≡ replicate (length tables.now.back.items) false) }
    ensures entries { IfOk result (λ marks. marks.entries.items ≡ replicate tables.now.functions false) }
{
    let size = tables.back.len();
    Ok(Marks {
        before: vec![in alloc; false; size]?,
        after: vec![in alloc; false; size]?,
        entries: vec![in alloc; false; tables.functions as usize]?,
    })
}

/// The numbers of items.
pub(crate) fn numbers(alloc: Global, items: &[ItemId]) -> Result<Vec<u32>, NoMemory>
    ensures { IfOk result (λ ns. ns.items ≡ map (λ i. i.0) items.now) }
{
    let mut numbers = Vec::new(alloc);
    'items: for item in items {
        numbers.push(item.0)?;
    }
    Ok(numbers)
}

/// The functions with the numbers of items.
pub(crate) fn functions(alloc: Global, items: &[ItemId]) -> Result<Vec<FunId>, NoMemory>
    ensures { IfOk result (λ fs. map (λ f. f.0) fs.items ≡ map (λ i. i.0) items.now) }
{
    let mut functions = Vec::new(alloc);
    'items: for item in items {
        functions.push(FunId(item.0))?;
    }
    Ok(functions)
}

// The items that are reached from some starts. Nothing is reached from none.
fn items_reached(alloc: Global, back: &[Vec<u32>], starts: &[u32]) -> Result<Vec<ItemId>, NoMemory>
    ensures { IfOk result (λ items. (n : ℕ) → n < 4294967296 → Contains (map (λ i. i.0) items.items) n ↔ Reached (rows_of back.now) starts.now n) }
{
    if starts.is_empty() {
        return Ok(Vec::new(alloc));
    }
    let flags = reached(alloc, back, starts)?;
    let items = items_at(alloc, &flags, 0)?;
    Ok(items)
}

// Adds numbers at the end of others.
fn push_all(numbers: &mut Vec<u32>, more: &[u32]) -> Result<(), NoMemory>
    ensures { IfOk result (λ u. numbers.new.items ≡ numbers.old.items ++ more.now) }
{
    'more: for n in more {
        numbers.push(*n)?;
    }
    Ok(())
}

// What stands in the rows of items.
fn in_rows(alloc: Global, rows: &[Vec<u32>], items: &[ItemId]) -> Result<Vec<u32>, NoMemory>
    ensures { IfOk result (λ ns. (m : ℕ) → Contains ns.items m ↔ InOneRow (rows_of rows.now) (Contains (map (λ i. i.0) items.now)) m) }
{
    let mut numbers = Vec::new(alloc);
    'items: for item in items {
        push_all(&mut numbers, row(rows, item.0))?;
    }
    Ok(numbers)
}

// Sets the flags of numbers.
fn put_all(flags: &mut Vec<bool>, numbers: &[u32])
    ensures length { length flags.new.items ≡ length flags.old.items }
    ensures sets { Sets flags.old.items flags.new.items (Contains numbers.now) }
{
    'numbers: for n in numbers {
        put(flags, *n);
    }
}

// Whether one doesn't go up from an item.
fn is_closed(above: &[Vec<u32>], item: ItemId, last: bool) -> bool
    ensures { (result ≡ true) ↔ IsClosed (rows_of above.now) last item.0 }
{
    last || row(above, item.0).is_empty()
}

// The items from which one doesn't go up.
fn closed(
    alloc: Global,
    above: &[Vec<u32>],
    items: &[ItemId],
    last: bool,
) -> Result<Vec<ItemId>, NoMemory>
    ensures { IfOk result (λ some. (n : ℕ) → Contains (map (λ i. i.0) some.items) n ↔ (Contains (map (λ i. i.0) items.now) n × IsClosed (rows_of above.now) last n)) }
{
    let mut some = Vec::new(alloc);
    'items: for item in items {
        if is_closed(above, *item, last) {
            some.push(*item)?;
        }
    }
    Ok(some)
}

// The calls that are gone up to: none at the last layer.
fn calls_above(
    alloc: Global,
    above: &[Vec<u32>],
    items: &[ItemId],
    last: bool,
) -> Result<Vec<u32>, NoMemory>
    ensures { IfOk result (λ ns. (m : ℕ) → Contains ns.items m ↔ ((last ≡ false) × InOneRow (rows_of above.now) (Contains (map (λ i. i.0) items.now)) m)) }
{
    if last {
        return Ok(Vec::new(alloc));
    }
    let calls = in_rows(alloc, above, items)?;
    Ok(calls)
}

/// Marks what stands before the items that are reached from some starts, the items behind which paths stop there, and the
/// entries at which they do, and gives the starts of the next layer. It takes constant time where there are no starts.
pub(crate) fn layer(
    alloc: Global,
    tables: &Tables,
    marks: &mut Marks,
    starts: &[u32],
    last: bool,
) -> Result<Vec<u32>, NoMemory>
    requires { AreSmall tables.now }
    ensures { IfOk result (λ next. IsLayer tables.now starts.now last marks.old marks.new next.items) }
{
    let items = items_reached(alloc, &tables.back, starts)?;
    let passed = in_rows(alloc, &tables.back, &items)?;
    put_all(&mut marks.before, &passed);
    let stops = in_rows(alloc, &tables.stops, &items)?;
    put_all(&mut marks.after, &stops);
    let ends = closed(alloc, &tables.above, &items, last)?;
    let entries = in_rows(alloc, &tables.begun, &ends)?;
    put_all(&mut marks.entries, &entries);
    let calls = calls_above(alloc, &tables.above, &items, last)?;
    put_all(&mut marks.before, &calls);
    Ok(calls)
}
