// Checks, projects and lifts a trace of a source, and makes the text of what it is.
ghost use Rattle.std.specs.Prelude.{◌≡◌, ℕ, List, IfOk};
ghost use Rattle.ca_io.specs.Ports.{load_port};
ghost use Rattle.ca_model.specs.Plans.{Fits};
ghost use Rattle.ca_commands.specs.Options.{command};
ghost use Rattle.ca_commands.specs.Words.{Means, CheckOptions, TraceOptions, Check, Project, Lift};
ghost use Rattle.ca_cmd.specs.Commands.{HasTrace};
ghost use Rattle.ca_cmd.specs.Traced.{accepted_text, events_text};
ghost use Rattle.ca_cmd.specs.Serving.{ask_port, Prepares, Transforms, Makes};

use crate::hardening::hardening;
use crate::names::{is_plain, plan_words, source_name, trace_name};
use crate::reading::{no_trace, open_source, open_trace};
use crate::refusals::{ServeNo, TraceFault};
use ca_check::{CheckNo, LiftNo, check, lift, project};
use ca_commands::CommandWords;
use ca_events::write_trace;
use ca_io::Files;
use ca_model::{Checked, Ending, Event, Events, Plan};
use ca_shapes::each_program_of_a_text_is_written;
use ca_tree::{NoMemory, Text};
use std::alloc::Global;

/// A source with its plan, and the entries of a trace.
#[derive(Drop)]
pub struct Prepared {
    pub checked: Checked,
    pub plan: Plan,
    pub events: Events,
}

// What is told of a trace that is accepted.
fn accepted(alloc: Global, count: usize, ending: Ending) -> Result<Text, NoMemory>
    ensures { IfOk result (λ text. text ≡ accepted_text count ending) }
{
    let word = ending.word();
    let text = format!(in alloc; "accepted {count} {word}\n")?;
    Ok(Text::from_vec(text.into_bytes()))
}

// The text of a trace.
fn trace_text(alloc: Global, events: &[Event]) -> Result<Text, NoMemory>
    ensures { IfOk result (λ text. text ≡ events_text events.now) }
{
    let text = write_trace(alloc, events)?;
    Ok(Text::from_vec(text.into_bytes()))
}

// Whether the trace is a run, and how it ends.
fn checked(alloc: Global, given: &Prepared) -> Result<Text, ServeNo>
    requires { Fits given.now.checked.typed given.now.plan }
    ensures { (o : CheckOptions) → Transforms (Check o) given.now.checked.typed given.now.plan given.now.events result }
{
    let events = given.events.as_slice();
    let ending = match check(alloc, &given.checked, &given.plan, events) {
        Ok(ending) => ending,
        Err(CheckNo::NotARun { index }) => return Err(no_trace(TraceFault::NoStep { index })),
        Err(CheckNo::NoMemory) => return Err(ServeNo::NoMemory),
    };
    match accepted(alloc, events.len(), ending) {
        Ok(text) => Ok(text),
        Err(NoMemory) => Err(ServeNo::NoMemory),
    }
}

// Its projection, where it is a run.
fn projected(alloc: Global, given: &Prepared) -> Result<Text, ServeNo>
    requires { Fits given.now.checked.typed given.now.plan }
    ensures { (o : TraceOptions) → Transforms (Project o) given.now.checked.typed given.now.plan given.now.events result }
{
    let projection = match project(alloc, &given.checked, &given.plan, given.events.as_slice()) {
        Ok(projection) => projection,
        Err(CheckNo::NotARun { index }) => return Err(no_trace(TraceFault::NoStep { index })),
        Err(CheckNo::NoMemory) => return Err(ServeNo::NoMemory),
    };
    match trace_text(alloc, projection.as_slice()) {
        Ok(text) => Ok(text),
        Err(NoMemory) => Err(ServeNo::NoMemory),
    }
}

// Its lifted list, where it is a run of the source without a fault.
fn lifted(alloc: Global, given: &Prepared) -> Result<Text, ServeNo>
    requires { Fits given.now.checked.typed given.now.plan }
    ensures { (o : TraceOptions) → Transforms (Lift o) given.now.checked.typed given.now.plan given.now.events result }
{
    let list = match lift(alloc, &given.checked, &given.plan, given.events.as_slice()) {
        Ok(list) => list,
        Err(LiftNo::NotARun { index }) => return Err(no_trace(TraceFault::NoStep { index })),
        Err(LiftNo::Fault { index }) => return Err(no_trace(TraceFault::Fault { index })),
        Err(LiftNo::NoMemory) => return Err(ServeNo::NoMemory),
    };
    match trace_text(alloc, list.as_slice()) {
        Ok(text) => Ok(text),
        Err(NoMemory) => Err(ServeNo::NoMemory),
    }
}

// What a command makes of the trace.
fn made(alloc: Global, words: &CommandWords, given: &Prepared) -> Result<Text, ServeNo>
    requires trace { HasTrace (command words.now) }
    requires fits { Fits given.now.checked.typed given.now.plan }
    ensures { Transforms (command words.now) given.now.checked.typed given.now.plan given.now.events result }
{
    match words {
        CommandWords::Check(_) => checked(alloc, given),
        CommandWords::Project(_) => projected(alloc, given),
        CommandWords::Lift(_) | CommandWords::Run(_) | CommandWords::Sites(_) => {
            lifted(alloc, given)
        }
    }
}

// Loads and reads the source and the trace that a command names, and makes the plan of the source.
fn prepare<F: Files>(
    alloc: Global,
    words: &CommandWords,
    files: &mut F,
) -> Result<Prepared, ServeNo>
    requires said { (said : List (List ℕ)) × Means said (command words.now) }
    requires trace { HasTrace (command words.now) }
    ensures prepared { (said : List (List ℕ)) → Means said (command words.now) → Prepares said
        (load_port F.holds F.faults files.old files.new)
        (ask_port F.asked files.old files.new) (command words.now) result }
    ensures fits { IfOk result (λ given. Fits given.checked.typed given.plan) }
    ensures kept { F.holds files.new ≡ F.holds files.old }
{
    let checked = match open_source(alloc, source_name(words), files) {
        Ok(checked) => checked,
        Err(no) => return Err(no),
    };
    let plan = match hardening(alloc, &checked, is_plain(words), plan_words(words)) {
        Ok(plan) => plan,
        Err(no) => return Err(no),
    };
    let events = match open_trace(alloc, trace_name(words), files) {
        Ok(events) => events,
        Err(no) => return Err(no),
    };
    Ok(Prepared {
        checked,
        plan,
        events,
    })
}

/// Makes the text of what the trace in a file is for the source in another, hardened or as it is, as the words say: how many
/// entries it has and how it ends, its projection, or its lifted list.
pub fn traced_text<F: Files>(
    alloc: Global,
    words: &CommandWords,
    files: &mut F,
) -> Result<Text, ServeNo>
    requires said { (said : List (List ℕ)) × Means said (command words.now) }
    requires trace { HasTrace (command words.now) }
    ensures made { (said : List (List ℕ)) → Means said (command words.now) → Makes said
        (load_port F.holds F.faults files.old files.new)
        (ask_port F.asked files.old files.new) (command words.now) result }
    ensures kept { F.holds files.new ≡ F.holds files.old }
{
    each_program_of_a_text_is_written();
    let given = match prepare(alloc, words, files) {
        Ok(given) => given,
        Err(no) => return Err(no),
    };
    match made(alloc, words, &given) {
        Ok(text) => Ok(text),
        Err(no) => Err(no),
    }
}
