//! Laws of expressions and items, each the contract of a function that does nothing.

ghost use Rattle.std.specs.Prelude.{ℕ, List};
ghost use Rattle.ca_tree.specs.declared.numbers.ItemId.{ItemId};
ghost use Rattle.ca_model.specs.declared.values.Value.{Value};
ghost use Rattle.ca_model.specs.Destroying.{AnswersAlike, IsHarmlessUnless, DestroysLast};
ghost use Rattle.ca_model.specs.Eval.{eval};
ghost use Rattle.ca_model.specs.Items.{act_run};
ghost use Rattle.ca_model.specs.Laws.{InOrder, WantsAll};
ghost use Rattle.ca_model.specs.Numbering.{SitesHaveTheirNumbers, HasItsOwnSites, AsksAscending};
ghost use Rattle.ca_model.specs.Codes.{Typed};
ghost use Rattle.ca_model.specs.WellFormed.{IsWellFormed};

use crate::tree::{Act, Exp};

/// Answers that an expression doesn't need are left over; and where it wants an event, no first part of its answers was enough.
pub fn answers_in_order(e: &Exp)
    ensures left_over { (l : List Value) (s : ℕ) → InOrder (eval l e.now s) }
    ensures all_needed { (l : List Value) (s : ℕ) → WantsAll (eval l e.now s) }
{}

/// So do those of an item.
pub fn items_answer_in_order(a: &Act)
    ensures left_over { (i : ItemId) (l : List Value) (s : ℕ) → InOrder (act_run a.now i l s) }
    ensures all_needed { (i : ItemId) (l : List Value) (s : ℕ) → WantsAll (act_run a.now i l s) }
{}

/// An item has as many numbers as sites, and stands at these sites alone, each of its kind.
pub fn sites_are_their_own(a: &Act)
    ensures { HasItsOwnSites a.now }
{}

/// In a well-formed source the numbers of an item's sites are their places in the list of its sites.
pub fn sites_have_their_numbers()
    ensures { (p : Typed) → IsWellFormed p → SitesHaveTheirNumbers p }
{}

/// The events of an item ask with its site numbers in ascending order.
pub fn sites_come_in_order(a: &Act)
    ensures { (i : ItemId) (l : List Value) (s : ℕ) → AsksAscending (act_run a.now i l s) }
{}

/// An item that doesn't destroy wants neither a destroying entry nor a call; and an entry destroys exactly where the want that it answers does.
pub fn other_items_destroy_nothing(a: &Act)
    ensures items { IsHarmlessUnless a.now }
    ensures entries { AnswersAlike }
{}

/// Once the destroying effect of an item, or the call that it makes, has its answer, the item is done: it is its last shared effect.
pub fn the_destroying_effect_is_last(a: &Act)
    ensures { (i : ItemId) (l : List Value) (s : ℕ) → DestroysLast (act_run a.now i l s) }
{}
