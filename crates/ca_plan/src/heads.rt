//! Items with the same points: those of a straight run.

ghost use Rattle.std.specs.Prelude.{◌≡◌, ◌+◌, ◌<◌, IfOk, length};
ghost use Rattle.ca_model.specs.declared.tree.Item.{Item};
ghost use Rattle.ca_model.specs.Plans.{IsItem};
ghost use Rattle.ca_plan.specs.Finding.{AreHeads, IsHeadOf};

use ca_callers::Callers;
use ca_tree::{ItemId, NoMemory};
use std::alloc::Global;

// The item that an item has its points from, where that is known of the items with lower numbers: that of the item before it
// in a run, and else itself.
fn head_of(callers: &Callers, heads: &[ItemId], item: ItemId) -> ItemId
    requires { AreHeads callers.now heads.now }
    ensures { (x : Item) → IsItem callers.now x item → IsHeadOf callers.now x result }
{
    let Some(before) = callers.before_in_run(item) else {
        return item;
    };
    match heads.get(before.0 as usize) {
        None => item,
        Some(head) => *head,
    }
}

/// For each item the first item of its run, by the numbers of items up to the highest one. It takes time in the items and
/// the links between them.
pub(crate) fn heads(alloc: Global, callers: &Callers, highest: u32) -> Result<Vec<ItemId>, NoMemory>
    requires { highest < 4294967295 }
    ensures heads { IfOk result (λ heads. AreHeads callers.now heads.items) }
    ensures length { IfOk result (λ heads. length heads.items ≡ highest + 1) }
{
    let mut heads = Vec::new(alloc);
    'items: for number in 0..highest + 1 {
        let head = head_of(callers, &heads, ItemId(number));
        heads.push(head)?;
    }
    Ok(heads)
}
