//! The projection of a list, in one pass from its end.

ghost use Rattle.std.specs.Prelude.{◌≡◌, ◌||◌, not, cond, nat_eq, IfOk, ℕ, false};
ghost use Rattle.std.specs.BTreeSet.{contains};
ghost use Rattle.std.specs.Ordering.{nat_cmp};
ghost use Rattle.ca_model.specs.Projection.{is_mark, if_mark, projection};

use ca_model::{Event, EventAct, Events};
use ca_thread::copy_event;
use ca_tree::NoMemory;
use std::alloc::Global;
use std::collections::BTreeSet;

// Whether an entry is kept, by the threads that retry behind it with no save between; and which do so from it on.
fn is_kept(event: &Event, retrying: &mut BTreeSet<u32>) -> Result<bool, NoMemory>
    ensures kept { IfOk result (λ kept. kept ≡ not (is_mark event.now.act || contains nat_cmp retrying.old event.now.thread)) }
    ensures before { IfOk result (λ kept. (t : ℕ) → contains nat_cmp retrying.new t ≡ cond (nat_eq event.now.thread t) (if_mark event.now.act (contains nat_cmp retrying.old t)) (contains nat_cmp retrying.old t)) }
{
    match &event.act {
        EventAct::Save => {
            retrying.remove(&event.thread);
            Ok(false)
        }
        EventAct::Retry { .. } => {
            retrying.insert(event.thread)?;
            Ok(false)
        }
        _ => Ok(!retrying.contains(&event.thread)),
    }
}

/// The projection of a list: without each retry, without the entries of its thread since the last save before it, and
/// without the saves. The other entries keep their order. It is one pass, in which an entry takes time of the logarithm
/// of the threads.
pub fn projection(alloc: Global, events: &[Event]) -> Result<Events, NoMemory>
    ensures { IfOk result (λ list. list ≡ projection events.now) }
{
    let mut kept = Vec::new(alloc);
    let mut retrying = BTreeSet::new(alloc);
    'entries: for left in (0..events.len()).rev() {
        let event = &events[left];
        if is_kept(event, &mut retrying)? {
            kept.push(copy_event(alloc, event)?)?;
        }
    }
    kept.reverse();
    Ok(Events::from_vec(kept))
}
