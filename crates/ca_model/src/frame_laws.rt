//! Laws of silent steps and of the frames of a run.

ghost use Rattle.std.specs.Prelude.{◌≡◌, ℕ, List, [], Some, All, slice_get};
ghost use Rattle.ca_tree.specs.declared.numbers.FunId.{FunId};
ghost use Rattle.ca_model.specs.declared.plan.Plan.{Plan};
ghost use Rattle.ca_model.specs.declared.values.Event.{Event};
ghost use Rattle.ca_model.specs.declared.values.Value.{Value};
ghost use Rattle.ca_model.specs.Asks.{Want, Is, Wants};
ghost use Rattle.ca_model.specs.Begun.{BeginsEachOnce, InProgress};
ghost use Rattle.ca_model.specs.Codes.{Typed, code_of};
ghost use Rattle.ca_model.specs.Follows.{FollowsLinks};
ghost use Rattle.ca_model.specs.Frames.{Code, Frame, begun, gives_way, settled, answered, frame_of};
ghost use Rattle.ca_model.specs.Hardened.{hardened, Hardened};
ghost use Rattle.ca_model.specs.Items.{Done};
ghost use Rattle.ca_model.specs.Laws.{Stands};
ghost use Rattle.ca_model.specs.Machine.{State, Run};
ghost use Rattle.ca_model.specs.Opening.{opening};
ghost use Rattle.ca_model.specs.WellFormed.{IsWellFormed};

/// After an answer to what it wanted, and at its start, a frame goes on by itself until it wants something again. A silent step doesn't change what that is.
pub fn silent_steps_end()
    ensures after_an_answer { (code : Code) (f : Frame) (w : Want) (x : Value) → begun code f ≡ Wants w →
        Stands (begun code (answered code f x)) }
    ensures at_the_start { (code : Code) (f : FunId) (xs : List Value) →
        Stands (begun code (frame_of code f xs)) }
    ensures one_step_on { (code : Code) (f : Frame) (d : Done) → begun code f ≡ Is d [] →
        settled code (gives_way f d []) ≡ settled code f }
{}

/// Between two answers, and from its start to its first event, a frame begins no item twice.
pub fn items_begin_once()
    ensures { (p : Typed) → IsWellFormed p → (plan : Plan) → BeginsEachOnce (code_of p plan) }
{}

/// Control follows the links: the items that a frame comes to one after another are linked, from the first item of its function on.
pub fn control_follows_links()
    ensures { (p : Typed) → IsWellFormed p → (plan : Plan) → FollowsLinks p (code_of p plan) }
{}

/// In a run from the opening each frame of each thread is in progress: its function has begun, and each of its events has been answered.
pub fn frames_are_in_progress()
    ensures { (p : Typed) (plan : Plan) (es : List Event) (s : State Hardened) →
        Run (hardened (code_of p plan)) (opening (hardened (code_of p plan)) p) es s →
        (t : ℕ) (h : Hardened) → slice_get s.threads t ≡ Some h → All (InProgress (code_of p plan)) h.frames }
{}
