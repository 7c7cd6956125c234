//! Laws of attempts: what a projection leaves, and how often a thread retries.

ghost use Rattle.std.specs.Prelude.{◌≡◌, List};
ghost use Rattle.ca_model.specs.declared.values.Event.{Event};
ghost use Rattle.ca_model.specs.Activations.{RetriesAreBounded};
ghost use Rattle.ca_model.specs.Codes.{Typed};
ghost use Rattle.ca_model.specs.Frames.{Code};
ghost use Rattle.ca_model.specs.Projection.{projection, HasNoMarks};

/// A projection has neither saves nor retries. A list without them is its own projection; so projecting twice is projecting once.
pub fn projections_have_no_marks()
    ensures none { (es : List Event) → HasNoMarks (projection es) }
    ensures unmarked { (es : List Event) → HasNoMarks es → projection es ≡ es }
    ensures once { (es : List Event) → projection (projection es) ≡ projection es }
{}

/// No activation of a site retries past the limit of the plan.
pub fn retries_are_bounded()
    ensures { (p : Typed) (code : Code) → RetriesAreBounded p code }
{}
