//! Laws of plans.

ghost use Rattle.std.specs.Prelude.{◌≡◌};
ghost use Rattle.ca_model.specs.declared.plan.Plan.{Plan};
ghost use Rattle.ca_model.specs.Codes.{Typed};
ghost use Rattle.ca_model.specs.Plans.{Fits, IsSound, Options, IsPlanOf};
ghost use Rattle.ca_model.specs.SourceRuns.{no_plan};
ghost use Rattle.ca_model.specs.WellFormed.{IsWellFormed};

/// The plan of a source and options fits the source and is sound, and there is at most one.
pub fn the_plan_of_a_source_is_sound()
    ensures fits { (p : Typed) (o : Options) (plan : Plan) → IsPlanOf p o plan → Fits p plan }
    ensures sound { (p : Typed) → IsWellFormed p → (o : Options) (plan : Plan) → IsPlanOf p o plan → IsSound p plan }
    ensures one { (p : Typed) (o : Options) (plan other : Plan) → IsPlanOf p o plan → IsPlanOf p o other → plan ≡ other }
{}

/// The plan without a save fits every source, and is sound.
pub fn the_empty_plan_is_sound()
    ensures fits { (p : Typed) → Fits p no_plan }
    ensures sound { (p : Typed) → IsSound p no_plan }
{}
