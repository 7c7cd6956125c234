// Refusals: their texts, put to one sink, and their statuses.
ghost use Rattle.std.specs.Prelude.{◌≡◌, ◌⊎◌, ◌++◌, ◌+◌, codes};
ghost use Rattle.std.specs.Fmt.{decimal};
ghost use Rattle.ca_model.specs.Traces.{line_end};
ghost use Rattle.ca_commands.specs.Options.{command};
ghost use Rattle.ca_cmd.specs.FaultTexts.{fault_at};
ghost use Rattle.ca_cmd.specs.Commands.{message, memory_text, refusal_status, source_text, trace_text, Refused};
ghost use Rattle.ca_io.specs.Ports.{put_port};
ghost use Rattle.ca_cmd.specs.Serving.{Closes, Tells};
ghost use Rattle.ca_cmd.specs.declared.refusals.Refusal.TheVariants as refused;

use crate::fault_texts::{lex_words, read_words, type_words};
use crate::names::{source_name, trace_name};
use ca_commands::CommandWords;
use ca_grammar::ReadFault;
use ca_io::{PutNo, Sink};
use ca_model::TypeFault;
use ca_tree::{LexFault, Pos};
use std::alloc::{AllocError, Global};

/// Why the file of a source is refused.
#[derive(Clone, Copy, Debug, PartialEq, Eq)]
pub enum SourceFault {
    /// It could not be loaded.
    Unread,
    /// It is longer than the limit.
    TooLong,
    /// It has no tokens: its first fault.
    NoTokens(LexFault),
    /// Its tokens are no program within the limits: their first fault.
    NoProgram(ReadFault),
    /// It is a program that has no typing: its first fault.
    Untyped(TypeFault),
}

/// Why the file of a trace is refused.
#[derive(Clone, Copy, Debug, PartialEq, Eq)]
pub enum TraceFault {
    /// It could not be loaded.
    Unread,
    /// It is longer than the limit.
    TooLong,
    /// This line, counted from 1, is the first without a reading.
    NoLine { line: u32 },
    /// This entry, counted from 0, is the first that is no step.
    NoStep { index: u32 },
    /// This entry, counted from 0, is a fault, and can't be lifted.
    Fault { index: u32 },
}

/// Why a command is refused.
#[derive(Clone, Copy, Debug, PartialEq, Eq)]
pub enum Refusal {
    /// By the file of its source.
    Source(SourceFault),
    /// This is the first of the numbers named that is no site's.
    NoSuchSite { number: u32 },
    /// By the file of its trace.
    Trace(TraceFault),
}

/// Why a command was not served.
#[derive(Clone, Copy, Debug, PartialEq, Eq)]
pub enum ServeNo {
    /// It is refused, and nothing was put.
    Refused(Refusal),
    /// A put failed.
    Put,
    /// An allocation was refused.
    NoMemory,
}

/// Puts one text, and answers the status.
pub fn close<E: Sink>(err: &mut E, status: u8, text: &[u8]) -> u8
    ensures { Closes status text.now result (put_port E.written E.faults err.old err.new) }
{
    match err.put(text) {
        Ok(()) => status,
        Err(PutNo::Failed) => 7,
        Err(PutNo::NoMemory) => 8,
    }
}

/// Puts the text on want of memory, and answers its status: 8, or 7 where the put failed.
pub fn out_of_memory<E: Sink>(err: &mut E) -> u8
    ensures { Closes 8 memory_text result (put_port E.written E.faults err.old err.new) }
{
    close(err, 8, b"conair: out of memory\n")
}

// Puts the text of a refusal that names a file, or a number.
fn tell<E: Sink>(alloc: Global, err: &mut E, status: u8, front: &str, name: &str, back: &str) -> u8
    ensures { Closes status (message front.now name.now back.now) result
        (put_port E.written E.faults err.old err.new)
        ⊎ Closes 8 memory_text result (put_port E.written E.faults err.old err.new) }
{
    match format!(in alloc; "{front}{name}{back}\n") {
        Ok(text) => close(err, status, text.as_str().as_bytes()),
        Err(AllocError) => out_of_memory(err),
    }
}

// Puts the text of a fault at a place in the file.
fn tell_fault<E: Sink>(alloc: Global, err: &mut E, name: &str, pos: Pos, words: &str) -> u8
    ensures { Closes 3 (message (codes "conair: ") name.now (fault_at pos words.now)) result
        (put_port E.written E.faults err.old err.new)
        ⊎ Closes 8 memory_text result (put_port E.written E.faults err.old err.new) }
{
    let line = pos.line;
    let column = pos.column;
    match format!(in alloc; ":{line}:{column}: {words}") {
        Ok(back) => tell(alloc, err, 3, "conair: ", name, back.as_str()),
        Err(AllocError) => out_of_memory(err),
    }
}

// Puts the text of a source that is refused.
fn tell_source<E: Sink>(alloc: Global, name: &str, fault: SourceFault, err: &mut E) -> u8
    ensures { Closes (refusal_status (refused.Source fault)) (source_text name.now fault) result
        (put_port E.written E.faults err.old err.new)
        ⊎ Closes 8 memory_text result (put_port E.written E.faults err.old err.new) }
{
    match fault {
        SourceFault::Unread => tell(alloc, err, 6, "conair: cannot read ", name, ""),
        SourceFault::TooLong => tell(
            alloc,
            err,
            3,
            "conair: ",
            name,
            ": longer than 1048576 bytes",
        ),
        SourceFault::NoTokens(fault) => {
            tell_fault(alloc, err, name, fault.pos, lex_words(fault.kind))
        }
        SourceFault::NoProgram(fault) => tell_fault(
            alloc,
            err,
            name,
            fault.pos,
            read_words(fault.kind),
        ),
        SourceFault::Untyped(fault) => {
            tell_fault(alloc, err, name, fault.pos, type_words(fault.kind))
        }
    }
}

// Puts the text of a trace that is refused at a line or an entry.
fn tell_part<E: Sink>(
    alloc: Global,
    err: &mut E,
    name: &str,
    part: &str,
    number: u64,
    rest: &str,
) -> u8
    ensures { Closes 9 (message (codes "conair: ") name.now (part.now ++ (decimal number ++ rest.now))) result
        (put_port E.written E.faults err.old err.new)
        ⊎ Closes 8 memory_text result (put_port E.written E.faults err.old err.new) }
{
    match format!(in alloc; "{part}{number}{rest}") {
        Ok(back) => tell(alloc, err, 9, "conair: ", name, back.as_str()),
        Err(AllocError) => out_of_memory(err),
    }
}

// Puts the text of a trace that is refused at an entry, which is told by its number from 1.
fn tell_entry<E: Sink>(alloc: Global, err: &mut E, name: &str, index: u32, rest: &str) -> u8
    ensures { Closes 9 (message (codes "conair: ") name.now (codes ": entry " ++ (decimal (index + 1) ++ rest.now))) result
        (put_port E.written E.faults err.old err.new)
        ⊎ Closes 8 memory_text result (put_port E.written E.faults err.old err.new) }
{
    tell_part(alloc, err, name, ": entry ", u64::from(index) + 1, rest)
}

// Puts the text of a trace that is refused.
fn tell_trace<E: Sink>(alloc: Global, name: &str, fault: TraceFault, err: &mut E) -> u8
    ensures { Closes (refusal_status (refused.Trace fault)) (trace_text name.now fault) result
        (put_port E.written E.faults err.old err.new)
        ⊎ Closes 8 memory_text result (put_port E.written E.faults err.old err.new) }
{
    match fault {
        TraceFault::Unread => tell(alloc, err, 6, "conair: cannot read ", name, ""),
        TraceFault::TooLong => tell(
            alloc,
            err,
            9,
            "conair: ",
            name,
            ": longer than 268435456 bytes",
        ),
        TraceFault::NoLine { line } => tell_part(
            alloc,
            err,
            name,
            ": line ",
            u64::from(line),
            " is not a trace line",
        ),
        TraceFault::NoStep { index } => tell_entry(alloc, err, name, index, " is not a step"),
        TraceFault::Fault { index } => tell_entry(alloc, err, name, index, " is a fault"),
    }
}

// Puts the text of a number that is no site's.
fn tell_site<E: Sink>(alloc: Global, number: u32, err: &mut E) -> u8
    ensures { Closes 2 (codes "conair: no site s" ++ (decimal number ++ line_end)) result
        (put_port E.written E.faults err.old err.new)
        ⊎ Closes 8 memory_text result (put_port E.written E.faults err.old err.new) }
{
    match format!(in alloc; "{number}") {
        Ok(digits) => tell(alloc, err, 2, "conair: no site s", digits.as_str(), ""),
        Err(AllocError) => out_of_memory(err),
    }
}

/// Puts the text of a refusal, and answers its status.
pub fn refuse<E: Sink>(alloc: Global, words: &CommandWords, refusal: Refusal, err: &mut E) -> u8
    ensures { Tells (Refused (command words.now) refusal) result (put_port E.written E.faults err.old err.new) }
{
    match refusal {
        Refusal::Source(fault) => tell_source(alloc, source_name(words), fault, err),
        Refusal::NoSuchSite { number } => tell_site(alloc, number, err),
        Refusal::Trace(fault) => tell_trace(alloc, trace_name(words), fault, err),
    }
}
