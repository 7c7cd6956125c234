// Loads and reads the files that a command names: a source with its tokens, the program that they are, and its typing; and a trace.
ghost use Rattle.std.specs.Prelude.{◌≡◌, ◌≤◌};
ghost use Rattle.ca_io.specs.Ports.{load_port};
ghost use Rattle.ca_cmd.specs.Reading.{ReadsAs, ReadsTrace};
ghost use Rattle.ca_cmd.specs.Serving.{ask_port, Opens, Traces};

use crate::refusals::{Refusal, ServeNo, SourceFault, TraceFault};
use ca_grammar::the_end_stands_last;
use ca_io::{Files, LoadNo};
use ca_lex::{LexNo, tokens};
use ca_model::{Checked, Events};
use ca_read::{ReadNo, program};
use ca_shapes::each_program_of_a_text_is_written;
use ca_traces::{TraceNo, read_trace};
use ca_types::{TypeNo, check_types};
use std::alloc::Global;

/// The most bytes that a source may have.
const SOURCE_LIMIT: usize = 1_048_576;

/// The most bytes that a trace may have.
const TRACE_LIMIT: usize = 268_435_456;

// A source is refused.
fn no_source(fault: SourceFault) -> ServeNo
    ensures { result ≡ ServeNo.Refused (Refusal.Source fault) }
{
    ServeNo::Refused(Refusal::Source(fault))
}

/// A trace is refused.
pub fn no_trace(fault: TraceFault) -> ServeNo
    ensures { result ≡ ServeNo.Refused (Refusal.Trace fault) }
{
    ServeNo::Refused(Refusal::Trace(fault))
}

// The source that a text is, or its first fault: as a text of tokens, or else as a program, or else of types.
fn read_source(alloc: Global, text: &[u8]) -> Result<Checked, ServeNo>
    ensures { ReadsAs text.now result }
{
    the_end_stands_last();
    each_program_of_a_text_is_written();
    let tokens = match tokens(alloc, text) {
        Ok(found) => found,
        Err(LexNo::Fault(fault)) => return Err(no_source(SourceFault::NoTokens(fault))),
        Err(LexNo::NoMemory) => return Err(ServeNo::NoMemory),
    };
    let program = match program(alloc, &tokens) {
        Ok(found) => found,
        Err(ReadNo::Fault(fault)) => return Err(no_source(SourceFault::NoProgram(fault))),
        Err(ReadNo::NoMemory) => return Err(ServeNo::NoMemory),
    };
    match check_types(alloc, program) {
        Ok(checked) => Ok(checked),
        Err(TypeNo::Fault(fault)) => Err(no_source(SourceFault::Untyped(fault))),
        Err(TypeNo::NoMemory) => Err(ServeNo::NoMemory),
    }
}

/// Loads and reads the source in a file.
pub fn open_source<F: Files>(alloc: Global, name: &str, files: &mut F) -> Result<Checked, ServeNo>
    ensures opened { Opens (load_port F.holds F.faults files.old files.new)
        (ask_port F.asked files.old files.new) name.now result }
    ensures kept { F.holds files.new ≡ F.holds files.old }
    ensures later { F.faults files.old ≤ F.faults files.new }
{
    match files.load(name, SOURCE_LIMIT) {
        Ok(bytes) => read_source(alloc, &bytes),
        Err(LoadNo::Failed) => Err(no_source(SourceFault::Unread)),
        Err(LoadNo::TooLong) => Err(no_source(SourceFault::TooLong)),
        Err(LoadNo::NoMemory) => Err(ServeNo::NoMemory),
    }
}

// The entries that a text is, or its first line without a reading.
fn read_entries(alloc: Global, text: &[u8]) -> Result<Events, ServeNo>
    ensures { ReadsTrace text.now result }
{
    match read_trace(alloc, text) {
        Ok(events) => Ok(events),
        Err(TraceNo::Fault { line }) => Err(no_trace(TraceFault::NoLine { line })),
        Err(TraceNo::NoMemory) => Err(ServeNo::NoMemory),
    }
}

/// Loads and reads the trace in a file.
pub fn open_trace<F: Files>(alloc: Global, name: &str, files: &mut F) -> Result<Events, ServeNo>
    ensures opened { Traces (load_port F.holds F.faults files.old files.new)
        (ask_port F.asked files.old files.new) name.now result }
    ensures kept { F.holds files.new ≡ F.holds files.old }
    ensures later { F.faults files.old ≤ F.faults files.new }
{
    match files.load(name, TRACE_LIMIT) {
        Ok(bytes) => read_entries(alloc, &bytes),
        Err(LoadNo::Failed) => Err(no_trace(TraceFault::Unread)),
        Err(LoadNo::TooLong) => Err(no_trace(TraceFault::TooLong)),
        Err(LoadNo::NoMemory) => Err(ServeNo::NoMemory),
    }
}
