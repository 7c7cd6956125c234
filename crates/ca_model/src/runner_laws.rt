//! Laws of the runner.

ghost use Rattle.std.specs.Prelude.{◌≡◌, ℕ, List, ◌<◌, ◌+◌, ◌^◌, length};
ghost use Rattle.ca_model.specs.declared.plan.Plan.{Plan};
ghost use Rattle.ca_model.specs.declared.values.Ending.{Ending};
ghost use Rattle.ca_model.specs.declared.values.Event.{Event};
ghost use Rattle.ca_model.specs.Codes.{Typed, code_of};
ghost use Rattle.ca_model.specs.Hardened.{hardened, Hardened};
ghost use Rattle.ca_model.specs.Machine.{State, Run};
ghost use Rattle.ca_model.specs.Opening.{opening, EndsAs};
ghost use Rattle.ca_model.specs.Runner.{IsRunOf, phase_of, run_ending};
ghost use Rattle.ca_model.specs.Schedules.{Schedule};

/// The runner gives one list and one ending for each schedule: never two, and always one where a run has so few entries that each block finds a number below 2 ^ 32.
pub fn the_runner_is_a_function()
    ensures at_most_one { (p : Typed) (plan : Plan) (c : Schedule) (events patience : ℕ) (first second : List Event) (x y : Ending) →
        IsRunOf p plan c events patience first x → IsRunOf p plan c events patience second y → (first ≡ second) × (x ≡ y) }
    ensures at_least_one { (p : Typed) (plan : Plan) (c : Schedule) (events patience : ℕ) → events + length p.globals < 2 ^ 32 →
        (list : List Event) × (end : Ending) × IsRunOf p plan c events patience list end }
{}

/// What the runner gives is a hardened run, which has finished or failed exactly where its ending says so, and else is still open.
/// Its ending is that of the run: at a deadlock no entry is possible, and at the runner's own limits some entry still is.
pub fn the_runner_gives_a_run()
    ensures run { (p : Typed) (plan : Plan) (c : Schedule) (events patience : ℕ) (list : List Event) (end : Ending) → IsRunOf p plan c events patience list end →
        (new : State Hardened) × Run (hardened (code_of p plan)) (opening (hardened (code_of p plan)) p) list new × (new.shared.phase ≡ phase_of end) }
    ensures ending { (p : Typed) (plan : Plan) (c : Schedule) (events patience : ℕ) (list : List Event) (end : Ending) → events + length p.globals < 2 ^ 32 → IsRunOf p plan c events patience list end →
        (new : State Hardened) × Run (hardened (code_of p plan)) (opening (hardened (code_of p plan)) p) list new × EndsAs (hardened (code_of p plan)) new (run_ending end) }
{}
