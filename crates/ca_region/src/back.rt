//! The search back along the links of a function.

ghost use Rattle.std.specs.Prelude.{◌≡◌, ◌<◌, ◌≤◌, ◌+◌, ◌-◌, ◌↔◌, ℕ, true, not, length, map, Contains, IfOk, IsTrue};
ghost use Rattle.std.specs.List.Sorted.{IsStrictlyIncreasing};
ghost use Rattle.ca_tree.specs.declared.numbers.ItemId.{ItemId as AnItem};
ghost use Rattle.ca_reach.specs.Reach.{IsSet, row, rows_of};
ghost use Rattle.ca_model.specs.Codes.{Typed};
ghost use Rattle.ca_model.specs.Sites.{items_of};
ghost use Rattle.ca_model.specs.Links.{first_item};
ghost use Rattle.ca_model.specs.Paths.{Before, PointAfter, OnPath};
ghost use Rattle.ca_model.specs.declared.tree.Item.{Item};
ghost use Rattle.ca_model.specs.declared.tree.Function.{Function};
ghost use Rattle.ca_flow.specs.Flows.{IsFlowOf};
ghost use Rattle.ca_region.specs.Regions.{IsAt, IsBack, IsEnd};

use ca_flow::{Graph, Link, Region};
use ca_reach::{add, empty_rows, items_at, put, reached, row};
use ca_tree::{ItemId, Listed, NoMemory};
use std::alloc::Global;

// Whether a path goes back over a link: its first item doesn't destroy.
fn is_passed(link: &Link) -> bool
    ensures { result ≡ not link.now.destroys }
{
    !link.destroys
}

// The rows of the links back over items that don't destroy, numbered from the lowest item on.
fn back_rows(
    alloc: Global,
    links: &[Link],
    lowest: u32,
    count: u32,
) -> Result<Vec<Vec<u32>>, NoMemory>
    ensures length { IfOk result (λ rows. length rows.items ≡ count) }
    ensures exact { IfOk result (λ rows. (n : ℕ) (m : ℕ) → Contains (row (rows_of rows.items) n) m ↔ ((n < count) × IsBack lowest links.now n m)) }
{
    let mut rows = empty_rows(alloc, count)?;
    'links: for link in links {
        if is_passed(link) {
            add(
                &mut rows,
                link.to.0.saturating_sub(lowest),
                link.from.0.saturating_sub(lowest),
            )?;
        }
    }
    Ok(rows)
}

// Whether a number is set.
fn is_set(flags: &[bool], n: u32) -> bool
    ensures { (result ≡ true) ↔ IsSet flags.now n }
{
    match flags.get(n as usize) {
        None => false,
        Some(b) => *b,
    }
}

// Whether a number is the start or is set.
fn is_at(start: u32, flags: &[bool], n: u32) -> bool
    ensures { (result ≡ true) ↔ IsAt start flags.now n }
{
    n == start || is_set(flags, n)
}

// Whether a link leads from an item that destroys to the start or to one that is set.
fn is_end(lowest: u32, link: &Link, start: u32, flags: &[bool]) -> bool
    ensures { (result ≡ true) ↔ ((link.now.destroys ≡ true) × IsAt start flags.now (link.now.to.0 - lowest)) }
{
    let to = link.to.0.saturating_sub(lowest);
    link.destroys && is_at(start, flags, to)
}

// The items that destroy and are linked to the start or to those that are set.
fn ends(
    alloc: Global,
    links: &[Link],
    lowest: u32,
    count: u32,
    start: u32,
    flags: &[bool],
) -> Result<Vec<bool>, NoMemory>
    ensures length { IfOk result (λ set. length set.items ≡ count) }
    ensures exact { IfOk result (λ set. (m : ℕ) → IsSet set.items m ↔ ((m < count) × IsEnd lowest links.now (λ n. IsAt start flags.now n) m)) }
{
    let mut set = vec![in alloc; false; count as usize]?;
    'links: for link in links {
        if is_end(lowest, link, start, flags) {
            put(&mut set, link.from.0.saturating_sub(lowest));
        }
    }
    Ok(set)
}

/// What stands before an item in its function: the items on the backward paths of at least one link from it, which stop at
/// each item that destroys; the items at which they stop; and whether the first item of the function stands on such a path,
/// the item itself included. Both lists ascend. The graph is that of the item's function, as each graph of a `Code` is for
/// the items of its function. The only error is want of memory. It takes time in the items of the function and the links
/// between them.
pub fn region(alloc: Global, graph: &Graph, from: ItemId) -> Result<Region, NoMemory>
    ensures items { IfOk result (λ r. (p : Typed) (f : Function) (s : Item) → IsFlowOf p f graph.now → Contains (items_of f) s → s.id ≡ from → (i : AnItem) → i.0 < 4294967296 → Contains r.items i ↔ ((j : Item) × (j.id ≡ i) × Before p 0 s j)) }
    ensures after { IfOk result (λ r. (p : Typed) (f : Function) (s : Item) → IsFlowOf p f graph.now → Contains (items_of f) s → s.id ≡ from → (i : AnItem) → i.0 < 4294967296 → Contains r.after i ↔ ((j : Item) × (j.id ≡ i) × PointAfter p 0 s j)) }
    ensures entry { IfOk result (λ r. (p : Typed) (f : Function) (s : Item) → IsFlowOf p f graph.now → Contains (items_of f) s → s.id ≡ from → IsTrue r.reaches_entry ↔ OnPath p 0 s (first_item f, 0)) }
    ensures items_ascend { IfOk result (λ r. IsStrictlyIncreasing (map (λ i. i.0) r.items)) }
    ensures after_ascend { IfOk result (λ r. IsStrictlyIncreasing (map (λ i. i.0) r.after)) }
{
    let links = graph.links();
    let lowest = graph.lowest();
    let count = graph.count();
    let rows = back_rows(alloc, links, lowest, count)?;
    let start = from.0.saturating_sub(lowest);
    let flags = reached(alloc, &rows, row(&rows, start))?;
    let set = ends(alloc, links, lowest, count, start, &flags)?;
    let items = items_at(alloc, &flags, lowest)?;
    let after = items_at(alloc, &set, lowest)?;
    let first = graph.first();
    let reaches_entry = is_at(start, &flags, first.0.saturating_sub(lowest));
    Ok(Region {
        items: Listed::from_vec(items),
        after: Listed::from_vec(after),
        reaches_entry,
    })
}
