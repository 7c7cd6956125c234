//! Laws of what a list is answered with.

ghost use Rattle.std.specs.Prelude.{◌≡◌, ℕ, List};
ghost use Rattle.ca_model.specs.declared.plan.Plan.{Plan};
ghost use Rattle.ca_model.specs.declared.values.Event.{Event};
ghost use Rattle.ca_model.specs.declared.values.Ending.{Ending};
ghost use Rattle.ca_model.specs.Codes.{Typed};
ghost use Rattle.ca_check.specs.Verdicts.{IsRunTo, IsFirstNoStep};
ghost use Rattle.ca_check.specs.Projections.{HasOneProjection};
ghost use Rattle.ca_check.specs.Lifts.{HasOneLift};

/// A list of entries that is a run has one ending, and each entry of it is a step. In any other list at most one entry is the first that
/// is no step.
pub fn a_list_has_one_verdict()
    ensures one_ending { (p : Typed) (plan : Plan) (events : List Event) (a b : Ending) → IsRunTo p plan events a → IsRunTo p plan events b → a ≡ b }
    ensures not_both { (p : Typed) (plan : Plan) (events : List Event) (end : Ending) (index : ℕ) → IsRunTo p plan events end → IsFirstNoStep p plan events index → ⊥ }
    ensures one_index { (p : Typed) (plan : Plan) (events : List Event) (i j : ℕ) → IsFirstNoStep p plan events i → IsFirstNoStep p plan events j → i ≡ j }
{}

/// A list has one projection or one refusal, but for want of memory.
pub fn a_list_has_one_projection()
    ensures { (p : Typed) (plan : Plan) (events : List Event) → HasOneProjection p plan events }
{}

/// A list has one lifted list or one refusal, but for want of memory.
pub fn a_list_has_one_lift()
    ensures { (p : Typed) (plan : Plan) (events : List Event) → HasOneLift p plan events }
{}
