//! The search for all items at once.

ghost use Rattle.std.specs.Prelude.{◌≤◌, ◌↔◌, IfOk};
ghost use Rattle.ca_reach.specs.Reach.{IsSet};
ghost use Rattle.ca_model.specs.Paths.{Before};
ghost use Rattle.ca_model.specs.Plans.{IsItem};
ghost use Rattle.ca_model.specs.declared.tree.Item.{Item};

use crate::layers::with_entries;
use crate::onward::{follow_marked, onward_rows, row_count};
use ca_flow::Code;
use ca_reach::reached;
use ca_tree::NoMemory;
use std::alloc::Global;

/// Which items of a source have a marked item before them, on paths that go up through at most so many calls: a flag for
/// each item by its number, and one for number 0, which is no item's. `marked` has a flag for each number of an item; a
/// number outside it isn't marked. The only error is want of memory. It makes one search onward for each number of calls
/// gone up, from the most down, so it takes time in the depth and one, times the items, links and calls of the source.
pub fn stands_before(
    alloc: Global,
    code: &Code,
    marked: &[bool],
    depth: u32,
) -> Result<Vec<bool>, NoMemory>
    requires { depth ≤ 8 }
    ensures { IfOk result (λ flags. (x : Item) → IsItem code.now.source x x.id → IsSet flags.items x.id.0 ↔ ((j : Item) × Before code.now.source depth x j × IsSet marked.now j.id.0)) }
{
    let _graphs = code.graphs();
    let count = row_count(code);
    let rows = onward_rows(alloc, code, count)?;
    let followers = follow_marked(alloc, &rows, marked, count)?;
    let mut flags = reached(alloc, &rows, &followers)?;
    'layers: for _ in 0..depth {
        let starts = with_entries(alloc, &followers, code, marked, &flags)?;
        flags = reached(alloc, &rows, &starts)?;
    }
    Ok(flags)
}
