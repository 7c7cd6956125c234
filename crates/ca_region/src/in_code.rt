//! The search back from an item of a source.

ghost use Rattle.std.specs.Prelude.{◌≡◌, ◌<◌, ◌↔◌, length, map, Contains, IfOk, IsTrue};
ghost use Rattle.std.specs.List.Sorted.{IsStrictlyIncreasing};
ghost use Rattle.ca_tree.specs.declared.numbers.ItemId.{ItemId as AnItem};
ghost use Rattle.ca_model.specs.Sites.{items_of};
ghost use Rattle.ca_model.specs.Links.{first_item};
ghost use Rattle.ca_model.specs.Paths.{Before, PointAfter, OnPath};
ghost use Rattle.ca_model.specs.Plans.{IsItem};
ghost use Rattle.ca_model.specs.declared.tree.Item.{Item};
ghost use Rattle.ca_model.specs.declared.tree.Function.{Function};

use crate::back::region;
use ca_flow::{Code, Region};
use ca_tree::{ItemId, NoMemory};
use std::alloc::Global;

/// What stands before an item of a source in its function, as `region` finds it. The only error is want of memory. It
/// takes time in the items of the function and the links between them.
pub fn region_in(alloc: Global, code: &Code, item: ItemId) -> Result<Region, NoMemory>
    requires { (x : Item) × IsItem code.now.source x item }
    ensures items { IfOk result (λ r. (s : Item) → IsItem code.now.source s item → (i : AnItem) → i.0 < 4294967296 → Contains r.items i ↔ ((j : Item) × (j.id ≡ i) × Before code.now.source 0 s j)) }
    ensures after { IfOk result (λ r. (s : Item) → IsItem code.now.source s item → (i : AnItem) → i.0 < 4294967296 → Contains r.after i ↔ ((j : Item) × (j.id ≡ i) × PointAfter code.now.source 0 s j)) }
    ensures entry { IfOk result (λ r. (s : Item) (f : Function) → IsItem code.now.source s item → Contains code.now.source.functions f → Contains (items_of f) s → IsTrue r.reaches_entry ↔ OnPath code.now.source 0 s (first_item f, 0)) }
    ensures items_ascend { IfOk result (λ r. IsStrictlyIncreasing (map (λ i. i.0) r.items)) }
    ensures after_ascend { IfOk result (λ r. IsStrictlyIncreasing (map (λ i. i.0) r.after)) }
{
    let _graphs = code.graphs();
    let graph = code.graph(code.function_of(item));
    let found = region(alloc, graph, item)?;
    Ok(found)
}
