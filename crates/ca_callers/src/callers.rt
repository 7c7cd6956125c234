//! What stands before items through callers, and the points of sites.

ghost use Rattle.std.specs.Prelude.{◌≡◌, ◌<◌, ◌≤◌, ◌+◌, ◌↔◌, ℕ, map, Contains, IfOk, MatchOption};
ghost use Rattle.std.specs.List.Sorted.{IsStrictlyIncreasing};
ghost use Rattle.ca_tree.specs.declared.numbers.ItemId.{ItemId as AnItem};
ghost use Rattle.ca_tree.specs.declared.numbers.FunId.{FunId as AFun};
ghost use Rattle.ca_model.specs.declared.tree.Item.{Item};
ghost use Rattle.ca_model.specs.declared.tree.Function.{Function};
ghost use Rattle.ca_model.specs.Accesses.{Site};
ghost use Rattle.ca_model.specs.Paths.{Before, PointAfter, PointAtEntry};
ghost use Rattle.ca_model.specs.Plans.{IsItem, IsSite};
ghost use Rattle.ca_callers.specs.Callers.{AreMarks, ForOne};
ghost use Rattle.ca_callers.specs.Runs.{IsInRun, IsOnly};

use crate::search::{Marks, functions, layer, no_marks, numbers};
use crate::tables::{Tables, make_tables};
use ca_flow::{Code, Points};
use ca_reach::{items_at, row};
use ca_tree::{ItemId, Listed, NoMemory, SiteId};
use std::alloc::Global;
use std::marker::Model;
use std::snapshot::Snapshot;

/// The links and calls of a whole source, by the numbers of its items. Contracts see the source.
#[derive(Drop)]
pub struct Callers {
    code: Snapshot<Code>,
    tables: Tables,
}

impl Model for Callers {
    ghost use Rattle.ca_model.specs.Codes.{Typed};
    ghost use Rattle.ca_model.specs.contracts.tree.Function as typed_function;
    ghost use Rattle.std.specs.Coded.{codes};
    ghost use Rattle.ca_callers.specs.Callers.{AreTables};

    ghost Value = { Typed };

    ghost coded = { Prim.hlevel (codes, typed_function.the_row.coded) };

    ghost view = { λ c. c.code.value.source };

    ghost invariant = { λ c. AreTables c.code.value.source c.tables };
}

// The number that a row has, where it has one alone.
fn only_in(numbers: &[u32]) -> Option<u32>
    ensures { MatchOption result ((n : ℕ) → IsOnly numbers.now n → ⊥) (λ n. IsOnly numbers.now n) }
{
    let Some(first) = numbers.first() else {
        return None;
    };
    'numbers: for n in numbers {
        if *n != *first {
            return None;
        }
    }
    Some(*first)
}

impl Callers {
    /// The links and calls of the source of some code. The only error is want of memory. It takes time in the items of the
    /// source, and the links and calls between them.
    pub fn new(alloc: Global, code: &Code) -> Result<Callers, NoMemory>
        ensures { IfOk result (λ c. c ≡ code.now.source) }
    {
        let tables = make_tables(alloc, code)?;
        Ok(Callers {
            code: Snapshot::of(code),
            tables,
        })
    }

    // The marks of all layers.
    fn marks(&self, alloc: Global, from: &[ItemId], depth: u32) -> Result<Marks, NoMemory>
        requires from { (i : AnItem) → Contains from.now i → (x : Item) × IsItem self.now x i }
        requires depth { depth ≤ 8 }
        ensures { IfOk result (λ marks. AreMarks self.now depth from.now (depth + 1) marks) }
    {
        let mut marks = no_marks(alloc, &self.tables)?;
        let mut starts = numbers(alloc, from)?;
        'layers: for k in 0..depth + 1 {
            let last = k == depth;
            starts = layer(alloc, &self.tables, &mut marks, &starts, last)?;
        }
        Ok(marks)
    }

    /// The item before another one in a straight run, if there is one: it alone is linked to the other one and doesn't
    /// destroy, and no function begins with the other one. The points of both are the same. It takes no memory, and time in
    /// the links to the item.
    pub fn before_in_run(&self, item: ItemId) -> Option<ItemId>
        ensures { (i : Item) → IsItem self.now i item → MatchOption result ((j : Item) → IsInRun self.now i j → ⊥) (λ n. (j : Item) × IsItem self.now j n × IsInRun self.now i j) }
    {
        if !row(&self.tables.stops, item.0).is_empty() {
            return None;
        }
        if !row(&self.tables.begun, item.0).is_empty() {
            return None;
        }
        let Some(number) = only_in(row(&self.tables.back, item.0)) else {
            return None;
        };
        Some(ItemId(number))
    }

    /// What stands before some items of the source, through up to so many callers: the items on the backward paths of at
    /// least one step from one of them, which stop at each item that destroys and go from the first item of a function with
    /// which no thread begins to the calls of it; the items behind which these paths stop, since they destroy; and the
    /// functions at whose entry they stop, since they don't go up from there. Each list ascends. The only error is want of
    /// memory. It takes time in the items of the source, and for each number of calls gone up in the items reached with it,
    /// their links and their calls; a number of calls with which nothing is reached takes none.
    pub fn points(&self, alloc: Global, from: &[ItemId], depth: u32) -> Result<Points, NoMemory>
        requires from { (i : AnItem) → Contains from.now i → (x : Item) × IsItem self.now x i }
        requires depth { depth ≤ 8 }
        ensures items { IfOk result (λ r. (i : AnItem) → i.0 < 4294967296 → Contains r.items i ↔ ((j : Item) × (j.id ≡ i) × ForOne self.now from.now (λ x. Before self.now depth x j))) }
        ensures after { IfOk result (λ r. (i : AnItem) → i.0 < 4294967296 → Contains r.after i ↔ ((j : Item) × (j.id ≡ i) × ForOne self.now from.now (λ x. PointAfter self.now depth x j))) }
        ensures entries { IfOk result (λ r. (n : AFun) → n.0 < 4294967296 → Contains r.entries n ↔ ((f : Function) × (f.id ≡ n) × ForOne self.now from.now (λ x. PointAtEntry self.now depth x f))) }
        ensures items_ascend { IfOk result (λ r. IsStrictlyIncreasing (map (λ i. i.0) r.items)) }
        ensures after_ascend { IfOk result (λ r. IsStrictlyIncreasing (map (λ i. i.0) r.after)) }
        ensures entries_ascend { IfOk result (λ r. IsStrictlyIncreasing (map (λ f. f.0) r.entries)) }
    {
        let marks = self.marks(alloc, from, depth)?;
        let items = items_at(alloc, &marks.before, 0)?;
        let after = items_at(alloc, &marks.after, 0)?;
        let begun = items_at(alloc, &marks.entries, 0)?;
        let entries = functions(alloc, &begun)?;
        Ok(Points {
            items: Listed::from_vec(items),
            after: Listed::from_vec(after),
            entries: Listed::from_vec(entries),
        })
    }
}

/// What stands before a site of a source, through up to so many callers, and its points, as `points` finds them of its item.
/// The only error is want of memory. It takes time in the items of the source, and the links and calls between them.
pub fn points_of(alloc: Global, code: &Code, site: SiteId, depth: u32) -> Result<Points, NoMemory>
    requires site { (s : Site) × IsSite code.now.source s site }
    requires depth { depth ≤ 8 }
    ensures items { IfOk result (λ r. (s : Site) → IsSite code.now.source s site → (i : AnItem) → i.0 < 4294967296 → Contains r.items i ↔ ((j : Item) × (j.id ≡ i) × Before code.now.source depth s.item j)) }
    ensures after { IfOk result (λ r. (s : Site) → IsSite code.now.source s site → (i : AnItem) → i.0 < 4294967296 → Contains r.after i ↔ ((j : Item) × (j.id ≡ i) × PointAfter code.now.source depth s.item j)) }
    ensures entries { IfOk result (λ r. (s : Site) → IsSite code.now.source s site → (n : AFun) → n.0 < 4294967296 → Contains r.entries n ↔ ((f : Function) × (f.id ≡ n) × PointAtEntry code.now.source depth s.item f)) }
    ensures items_ascend { IfOk result (λ r. IsStrictlyIncreasing (map (λ i. i.0) r.items)) }
    ensures after_ascend { IfOk result (λ r. IsStrictlyIncreasing (map (λ i. i.0) r.after)) }
    ensures entries_ascend { IfOk result (λ r. IsStrictlyIncreasing (map (λ f. f.0) r.entries)) }
{
    let (function, node) = code.site_at(site);
    let item = code.graph(function).node(node).item;
    let callers = Callers::new(alloc, code)?;
    let points = callers.points(alloc, &[item], depth)?;
    Ok(points)
}
