//! The report of a run, put a line at a time.

ghost use Rattle.std.specs.Prelude.{◌≡◌, Some, map, slice_get, IfOk, OnOk, OnErr, IsErrOf, string_bytes};
ghost use Rattle.std.specs.List.{flat_map};
ghost use Rattle.std.specs.Io.KnownBytes.{Appends};
ghost use Rattle.ca_io.specs.Outside.{Rose, AppendsPart};
ghost use Rattle.ca_model.specs.declared.values.Ending.TheVariants as ends;
ghost use Rattle.ca_model.specs.Asks.{Want};
ghost use Rattle.ca_model.specs.Hardened.{Hardened};
ghost use Rattle.ca_model.specs.Machine.{State};
ghost use Rattle.ca_model.specs.Opening.{EndsAs};
ghost use Rattle.ca_model.specs.Reports as reports;
ghost use Rattle.ca_model.specs.Reports.{lines_of, report};
ghost use Rattle.ca_model.specs.Runner.{run_ending};
ghost use Rattle.ca_model.specs.Traces as traces;
ghost use Rattle.ca_model.specs.Shared.{Shared};
ghost use Rattle.ca_machine.specs.Machines.{Reaches, rules};
ghost use Rattle.ca_machine.specs.Coming.{IsRunning, IsWait};

use ca_events::write_event;
use ca_io::{PutNo, Sink};
use ca_machine::{Machine, Waits};
use ca_model::{Ending, Event, none_waits_in_vain};
use ca_tree::NoMemory;
use std::alloc::Global;

// The line of a thread that waits.
fn line_of_wait(alloc: Global, thread: u32, wait: Waits) -> Result<String, NoMemory>
    ensures { IfOk result (λ text. (s : Shared) (w : Want) → IsWait s wait w → string_bytes text ≡ reports.wait_line s thread w) }
{
    let words = match wait {
        Waits::Lock { mutex, owner } => {
            let number = mutex.0;
            format!(in alloc; "lock m{number} held {owner}")?
        }
        Waits::Join(other) => format!(in alloc; "join {other}")?,
    };
    let line = format!(in alloc; "waits {thread} {words}\n")?;
    Ok(line)
}

// For what a thread that hasn't ended waits at a deadlock.
fn wait_at(machine: &Machine, thread: u32) -> Waits
    requires deadlock { (s : State Hardened) → Reaches machine.now s → EndsAs (rules machine.now) s ends.Deadlock }
    requires running { (s : State Hardened) → Reaches machine.now s → IsRunning s thread }
    ensures { (s : State Hardened) (h : Hardened) → Reaches machine.now s → slice_get s.threads thread ≡ Some h → IsWait s.shared result ((rules machine.now).want h) }
{
    let _shared = machine.shared();
    none_waits_in_vain();
    match machine.waits(thread) {
        Some(wait) => wait,
        None => unreachable!(),
    }
}

// The lines of the threads that wait at a deadlock.
fn wait_lines(alloc: Global, machine: &Machine) -> Result<Vec<String>, NoMemory>
    requires { (s : State Hardened) → Reaches machine.now s → EndsAs (rules machine.now) s ends.Deadlock }
    ensures { IfOk result (λ lines. (s : State Hardened) → Reaches machine.now s → map string_bytes lines.items ≡ reports.wait_lines (rules machine.now) s ends.Deadlock) }
{
    let mut lines = Vec::new(alloc);
    'threads: for thread in 0..machine.shared().threads() {
        if !machine.shared().has_ended(thread) {
            let line = line_of_wait(alloc, thread, wait_at(machine, thread))?;
            lines.push(line)?;
        }
    }
    Ok(lines)
}

// The lines of the threads that wait, where the run is at a deadlock.
fn lines_of_waits(alloc: Global, machine: &Machine, ending: Ending) -> Result<Vec<String>, NoMemory>
    requires { (s : State Hardened) → Reaches machine.now s → EndsAs (rules machine.now) s (run_ending ending) }
    ensures { IfOk result (λ lines. (s : State Hardened) → Reaches machine.now s → map string_bytes lines.items ≡ reports.wait_lines (rules machine.now) s ending) }
{
    match ending {
        Ending::Deadlock => wait_lines(alloc, machine),
        _ => Ok(Vec::new(alloc)),
    }
}

// The lines of a trace.
fn trace_lines(alloc: Global, events: &[Event]) -> Result<Vec<String>, NoMemory>
    ensures { IfOk result (λ lines. map string_bytes lines.items ≡ traces.trace_lines events.now) }
{
    let mut lines = Vec::new(alloc);
    let count = events.len();
    lines.push(format!(in alloc; "trace {count}\n")?)?;
    'events: for event in events {
        lines.push(write_event(alloc, event)?)?;
    }
    Ok(lines)
}

// The lines of a report.
fn report_lines(alloc: Global, machine: &Machine, ending: Ending) -> Result<Vec<String>, NoMemory>
    requires { (s : State Hardened) → Reaches machine.now s → EndsAs (rules machine.now) s (run_ending ending) }
    ensures { IfOk result (λ lines. (s : State Hardened) → Reaches machine.now s → map string_bytes lines.items ≡ lines_of machine.now.trace ending (reports.wait_lines (rules machine.now) s ending) s.shared.output) }
{
    let mut lines = trace_lines(alloc, machine.shared().trace())?;
    let word = ending.word();
    lines.push(format!(in alloc; "ending {word}\n")?)?;
    let mut waits = lines_of_waits(alloc, machine, ending)?;
    lines.append(&mut waits)?;
    let bytes = machine.shared().output().len();
    lines.push(format!(in alloc; "output {bytes}\n")?)?;
    Ok(lines)
}

// Puts the lines one at a time.
fn put_all<O: Sink>(lines: &[String], out: &mut O) -> Result<(), PutNo>
    ensures whole { OnOk result (Appends (O.written out.old) (O.written out.new)
        (flat_map string_bytes lines.now)) }
    ensures passed { OnOk result (O.faults out.new ≡ O.faults out.old) }
    ensures part { OnErr result (AppendsPart (O.written out.old) (O.written out.new)
        (flat_map string_bytes lines.now)) }
    ensures failed { IsErrOf result PutNo.Failed → Rose (O.faults out.old) (O.faults out.new) }
{
    'lines: for text in lines {
        match out.put(text.as_str().as_bytes()) {
            Ok(()) => {}
            Err(PutNo::Failed) => return Err(PutNo::Failed),
            Err(PutNo::NoMemory) => return Err(PutNo::NoMemory),
        }
    }
    Ok(())
}

/// Puts the report of a run: its trace, its ending, for a deadlock what each thread waits for, and its output, each line
/// one put and the output one more where it isn't empty. The ending is the machine's, or one of the runner's own where
/// that is `Unended`. After a refusal `out` has a front of that text more.
pub fn write_report<O: Sink>(
    alloc: Global,
    machine: &Machine,
    ending: Ending,
    out: &mut O,
) -> Result<(), PutNo>
    requires { (s : State Hardened) → Reaches machine.now s → EndsAs (rules machine.now) s (run_ending ending) }
    ensures whole { OnOk result ((s : State Hardened) → Reaches machine.now s → Appends (O.written out.old) (O.written out.new) (report (rules machine.now) s machine.now.trace ending)) }
    ensures passed { OnOk result (O.faults out.new ≡ O.faults out.old) }
    ensures part { OnErr result ((s : State Hardened) → Reaches machine.now s → AppendsPart (O.written out.old) (O.written out.new) (report (rules machine.now) s machine.now.trace ending)) }
    ensures failed { IsErrOf result PutNo.Failed → Rose (O.faults out.old) (O.faults out.new) }
{
    let Ok(lines) = report_lines(alloc, machine, ending) else {
        return Err(PutNo::NoMemory);
    };
    match put_all(&lines, out) {
        Ok(()) => out.put(machine.shared().output()),
        Err(PutNo::Failed) => Err(PutNo::Failed),
        Err(PutNo::NoMemory) => Err(PutNo::NoMemory),
    }
}
