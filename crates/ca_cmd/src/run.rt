// Runs a source, and puts the report of its run.
ghost use Rattle.std.specs.Prelude.{◌≡◌, ◌≤◌, ℕ, List, IfOk};
ghost use Rattle.ca_io.specs.Ports.{load_port, put_port};
ghost use Rattle.ca_model.specs.Hardened.{Hardened};
ghost use Rattle.ca_model.specs.Machine.{State};
ghost use Rattle.ca_model.specs.Opening.{EndsAs};
ghost use Rattle.ca_model.specs.Plans.{Fits};
ghost use Rattle.ca_model.specs.Runner.{run_ending};
ghost use Rattle.ca_machine.specs.Machines.{Reaches, rules};
ghost use Rattle.ca_commands.specs.Options.{run_options, runner_options};
ghost use Rattle.ca_commands.specs.Words.{Means, Run};
ghost use Rattle.ca_cmd.specs.Runs.{schedule_of, most_events, IsRunAs};
ghost use Rattle.ca_cmd.specs.Serving.{ask_port, Serves};

use crate::hardening::hardening;
use crate::reading::open_source;
use crate::refusals::ServeNo;
use ca_commands::{RunWords, RunnerWords};
use ca_io::{Files, PutNo, Sink};
use ca_machine::Machine;
use ca_model::{Checked, Ending, Plan, typed_programs_are_well_formed};
use ca_report::write_report;
use ca_sched::Schedule;
use ca_shapes::each_program_of_a_text_is_written;
use ca_tree::NoMemory;
use std::alloc::Global;

// The most entries of a run, where the words don't say.
const MOST_EVENTS: u32 = 200_000;

// After so many entries of others a thread has waited out at a held lock, where the words don't say.
const PATIENCE: u32 = 10;

/// A source after its run, and how the run has ended.
#[derive(Drop)]
pub struct SourceRun {
    pub machine: Machine,
    pub ending: Ending,
}

// The schedule that the words say.
fn schedule(alloc: Global, words: &RunnerWords) -> Result<Schedule, NoMemory>
    ensures { IfOk result (λ s. s ≡ schedule_of (runner_options words.now)) }
{
    match (&words.schedule, words.seed) {
        (Some(threads), _) => Ok(Schedule::list(threads.as_slice().to_vec(alloc)?)),
        (None, Some(seed)) => Ok(Schedule::seed(seed)),
        (None, None) => Ok(Schedule::list(Vec::new(alloc))),
    }
}

// The run of a source under a plan that the words say, alone on one thread.
fn run(
    alloc: Global,
    checked: &Checked,
    plan: &Plan,
    words: &RunnerWords,
) -> Result<SourceRun, NoMemory>
    requires fits { Fits checked.now.typed plan.now }
    requires few { most_events (runner_options words.now) ≤ 2000000 }
    ensures run { IfOk result (λ r. IsRunAs checked.now.typed plan.now (runner_options words.now) r) }
    ensures ended { IfOk result (λ r. (s : State Hardened) → Reaches r.machine s → EndsAs (rules r.machine) s (run_ending r.ending)) }
{
    typed_programs_are_well_formed();
    let _program = checked.program();
    let mut schedule = schedule(alloc, words)?;
    let mut machine = Machine::start(alloc, checked, plan)?;
    let events = words.events.unwrap_or(MOST_EVENTS);
    let patience = words.patience.unwrap_or(PATIENCE);
    let ending = machine.run_alone(alloc, &mut schedule, events, patience)?;
    Ok(SourceRun { machine, ending })
}

/// Runs the source in a file, hardened or as it is, as the words say, and puts the report of its run.
pub fn serve_run<F: Files, O: Sink>(
    alloc: Global,
    words: &RunWords,
    files: &mut F,
    out: &mut O,
) -> Result<u8, ServeNo>
    requires { (said : List (List ℕ)) × Means said (Run (run_options words.now)) }
    ensures served { (said : List (List ℕ)) → Means said (Run (run_options words.now)) → Serves said
        (load_port F.holds F.faults files.old files.new)
        (ask_port F.asked files.old files.new)
        (put_port O.written O.faults out.old out.new) (Run (run_options words.now)) result }
    ensures kept { F.holds files.new ≡ F.holds files.old }
{
    each_program_of_a_text_is_written();
    let checked = match open_source(alloc, words.name.as_str(), files) {
        Ok(checked) => checked,
        Err(no) => return Err(no),
    };
    let plan = match hardening(alloc, &checked, words.plain, &words.plan) {
        Ok(plan) => plan,
        Err(no) => return Err(no),
    };
    let ran = match run(alloc, &checked, &plan, &words.runner) {
        Ok(ran) => ran,
        Err(NoMemory) => return Err(ServeNo::NoMemory),
    };
    match write_report(alloc, &ran.machine, ran.ending, out) {
        Ok(()) => Ok(ran.ending.status()),
        Err(PutNo::Failed) => Err(ServeNo::Put),
        Err(PutNo::NoMemory) => Err(ServeNo::NoMemory),
    }
}
