//! The points of a condition of a loop.

ghost use Rattle.std.specs.Prelude.{◌≡◌, ◌↔◌, [], ◌∷◌};
ghost use Rattle.ca_model.specs.declared.tree.Item.{Item};
ghost use Rattle.ca_model.specs.declared.tree.Function.{Function};
ghost use Rattle.ca_model.specs.WellFormed.{IsWellFormed};
ghost use Rattle.ca_model.specs.Accesses.{all_sites};
ghost use Rattle.ca_model.specs.Paths.{Before, PointAfter, PointAtEntry};
ghost use Rattle.ca_examples.specs.LoopPoints.{program, site, begins, tests, writes, main_function};

/// The source is well-formed. Before the condition stands the item in front of the loop alone.
/// A backward path from the condition ends at the write in the loop's body, and at the entry of `main`, and nowhere else.
pub fn the_loop_has_two_points()
    ensures formed { IsWellFormed program }
    ensures one_site { all_sites program ≡ site ∷ [] }
    ensures one_before { (j : Item) → Before program 3 tests j ↔ (j ≡ begins) }
    ensures points_after { (j : Item) → PointAfter program 3 tests j ↔ (j ≡ writes) }
    ensures points_at_entry { (f : Function) → PointAtEntry program 3 tests f ↔ (f ≡ main_function) }
{}
