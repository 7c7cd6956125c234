//! Laws of steps and runs, of the source machine and of the hardened one.

ghost use Rattle.std.specs.Prelude.{◌≡◌, ℕ, ℤ, Some};
ghost use Rattle.ca_model.specs.declared.plan.Plan.{Plan};
ghost use Rattle.ca_model.specs.declared.values.Addr.{Addr};
ghost use Rattle.ca_model.specs.declared.values.Value.{Value};
ghost use Rattle.ca_model.specs.Codes.{Typed, code_of};
ghost use Rattle.ca_model.specs.FrameCounts.{FramesAreTold};
ghost use Rattle.ca_model.specs.Frames.{Code};
ghost use Rattle.ca_model.specs.Hardened.{hardened};
ghost use Rattle.ca_model.specs.Kept.{RunsKeep};
ghost use Rattle.ca_model.specs.Machine.{IsFixed, PartsMakeRuns, RunsComeApart};
ghost use Rattle.ca_model.specs.Matched.{MatchedRun, RunMatched};
ghost use Rattle.ca_model.specs.Shared.{Blocks, cell, with_cell};
ghost use Rattle.ca_model.specs.Source.{source};
ghost use Rattle.ca_model.specs.SourceRuns.{rules_of};
ghost use Rattle.ca_model.specs.Unhardened.{RunsAlike};
ghost use Rattle.ca_model.specs.Waits.{WaitsAt, HardenedWaits, NoneWaitsInVain};
ghost use Rattle.ca_model.specs.WellFormed.{IsWellFormed};

/// The same event from the same state gives one next state.
pub fn steps_are_fixed()
    ensures of_source { (code : Code) → IsFixed (source code) }
    ensures of_hardened { (code : Code) → IsFixed (hardened code) }
{}

/// Private runs of the threads whose entries are legal and due make a run, where each thread starts as its creator wanted.
pub fn parts_make_a_run()
    ensures of_source { (code : Code) → PartsMakeRuns (source code) }
    ensures of_hardened { (code : Code) → PartsMakeRuns (hardened code) }
{}

/// A run comes apart into private runs, one a thread, whose entries are legal and due; and its threads are where these lead.
pub fn runs_come_apart()
    ensures of_source { (code : Code) → RunsComeApart (source code) }
    ensures of_hardened { (code : Code) → RunsComeApart (hardened code) }
{}

/// A legal trace, and private runs of its entries that match it, make a run of the hardened machine from its opening.
pub fn matched_parts_make_a_run()
    ensures { (p : Typed) (code : Code) → MatchedRun p code }
{}

/// And the other way round: a run of the hardened machine from its opening has a legal trace, and private runs of its entries that match it.
pub fn a_run_has_matched_parts()
    ensures { (p : Typed) (code : Code) → RunMatched p code }
{}

/// Without a plan the hardened machine has the runs of the source, and they end alike.
pub fn without_a_plan_it_is_the_source()
    ensures { (p : Typed) → RunsAlike p }
{}

/// In a run from the opening that hasn't ended, each thread that hasn't ended can make an entry or waits, and none does both; so no entry is possible exactly where all of them wait. A thread waits at a join of a created thread that hasn't ended, or at a held lock; of the hardened machine, where no rollback is allowed there.
pub fn none_waits_in_vain()
    ensures hardened { (p : Typed) → IsWellFormed p → (plan : Plan) →
        NoneWaitsInVain (hardened (code_of p plan)) (HardenedWaits (code_of p plan)) p }
    ensures source { (p : Typed) → IsWellFormed p →
        NoneWaitsInVain (rules_of p) (λ s t. WaitsAt s ((rules_of p).want t)) p }
{}

/// No run takes back a block's number, kind or size, an output, or a thread that was made or has ended. A dead block stays dead.
pub fn nothing_is_taken_back()
    ensures of_source { (code : Code) → RunsKeep (source code) }
    ensures of_hardened { (code : Code) → RunsKeep (hardened code) }
{}

/// The entries of a run from the opening tell how many frames each thread has, and how many all threads have together.
pub fn entries_tell_the_frames()
    ensures of_source { (p : Typed) (code : Code) → FramesAreTold (source code) (λ t. t) p }
    ensures of_hardened { (p : Typed) (code : Code) → FramesAreTold (hardened code) (λ h. h.frames) p }
{}

/// A write is read back, and changes that cell alone.
pub fn a_write_changes_its_cell_alone()
    ensures read_back { (m : Blocks) (a : Addr) (x y : Value) → cell m a.block a.offset ≡ Some y →
        cell (with_cell m a x) a.block a.offset ≡ Some x }
    ensures others { (m : Blocks) (a : Addr) (x : Value) (b : ℕ) (n : ℤ) → (b ≡ a.block → n ≡ a.offset → ⊥) →
        cell (with_cell m a x) b n ≡ cell m b n }
{}
