//! Entries as lines.

ghost use Rattle.std.specs.Prelude.{◌≡◌, ◌++◌, IfOk, codes, string_bytes};
ghost use Rattle.std.specs.List.{flat_map};
ghost use Rattle.ca_model.specs.Traces.{address_text, value_text, hex_digits, hex_text, fault_text, given_text, gives_text, act_text, event_line, trace_lines};

use ca_model::{Addr, Event, EventAct, FaultKind, Given, Value};
use ca_tree::NoMemory;
use std::alloc::{AllocError, Global};

fn words_of_address(alloc: Global, at: &Addr) -> Result<String, AllocError>
    ensures { IfOk result (λ text. string_bytes text ≡ address_text at.now) }
{
    let block = at.block;
    let offset = at.offset;
    format!(in alloc; "@{block}.{offset}")
}

fn words_of_value(alloc: Global, value: &Value) -> Result<String, AllocError>
    ensures { IfOk result (λ text. string_bytes text ≡ value_text value.now) }
{
    match value {
        Value::Num(n) => {
            let number = *n;
            format!(in alloc; "{number}")
        }
        Value::Addr(at) => words_of_address(alloc, at),
    }
}

// Two digits to the base 16 a byte.
fn digits_of_bytes(alloc: Global, bytes: &[u8]) -> Result<String, AllocError>
    ensures { IfOk result (λ text. string_bytes text ≡ hex_digits bytes.now) }
{
    let mut text = String::new(alloc);
    'bytes: for byte in bytes {
        let pair = format!(in alloc; "{byte:02x}")?;
        text.push_str(pair.as_str())?;
    }
    Ok(text)
}

fn words_of_bytes(alloc: Global, bytes: &[u8]) -> Result<String, AllocError>
    ensures { IfOk result (λ text. string_bytes text ≡ hex_text bytes.now) }
{
    if bytes.is_empty() {
        format!(in alloc; "-")
    } else {
        digits_of_bytes(alloc, bytes)
    }
}

fn word_of_fault(kind: FaultKind) -> &'static str
    ensures { result.now ≡ fault_text kind }
{
    match kind {
        FaultKind::Assert => "assert",
        FaultKind::Pointer => "pointer",
        FaultKind::Mutex => "mutex",
        FaultKind::Arith => "arith",
        FaultKind::Kind => "kind",
        FaultKind::Thread => "thread",
    }
}

fn words_of_given(alloc: Global, given: &Given) -> Result<String, AllocError>
    ensures { IfOk result (λ text. string_bytes text ≡ given_text given.now) }
{
    match given {
        Given::Mutex(m) => {
            let number = m.0;
            format!(in alloc; "m{number}")
        }
        Given::Block(block) => {
            let number = *block;
            format!(in alloc; "@{number}.0")
        }
    }
}

// Each thing after a space.
fn words_of_gives(alloc: Global, gives: &[Given]) -> Result<String, AllocError>
    ensures { IfOk result (λ text. string_bytes text ≡ gives_text gives.now) }
{
    let mut text = String::new(alloc);
    'gives: for given in gives {
        let words = words_of_given(alloc, given)?;
        text.push_str(" ")?;
        text.push_str(words.as_str())?;
    }
    Ok(text)
}

// An access of a cell.
fn words_of_access(
    alloc: Global,
    word: &str,
    at: &Addr,
    value: &Value,
) -> Result<String, AllocError>
    ensures { IfOk result (λ text. string_bytes text ≡ word.now ++ (address_text at.now ++ (codes " " ++ value_text value.now))) }
{
    let place = words_of_address(alloc, at)?;
    let held = words_of_value(alloc, value)?;
    format!(in alloc; "{word}{place} {held}")
}

// The words of an entry, after its thread.
fn words_of_act(alloc: Global, act: &EventAct) -> Result<String, AllocError>
    ensures { IfOk result (λ text. string_bytes text ≡ act_text act.now) }
{
    match act {
        EventAct::Read { at, value } => words_of_access(alloc, "read ", at, value),
        EventAct::Write { at, value } => words_of_access(alloc, "write ", at, value),
        EventAct::Lock(m) => {
            let number = m.0;
            format!(in alloc; "lock m{number}")
        }
        EventAct::Unlock(m) => {
            let number = m.0;
            format!(in alloc; "unlock m{number}")
        }
        EventAct::Malloc { cells, at } => {
            let count = *cells;
            let given = words_of_value(alloc, at)?;
            format!(in alloc; "malloc {count} {given}")
        }
        EventAct::Free { at } => {
            let given = words_of_value(alloc, at)?;
            format!(in alloc; "free {given}")
        }
        EventAct::Print(text) => {
            let digits = words_of_bytes(alloc, text.as_slice())?;
            format!(in alloc; "print {digits}")
        }
        EventAct::Create(thread) => {
            let number = *thread;
            format!(in alloc; "create {number}")
        }
        EventAct::Join(thread) => {
            let number = *thread;
            format!(in alloc; "join {number}")
        }
        EventAct::Call(f) => {
            let number = f.0;
            format!(in alloc; "call f{number}")
        }
        EventAct::Return(value) => {
            let given = words_of_value(alloc, value)?;
            format!(in alloc; "return {given}")
        }
        EventAct::Turn => format!(in alloc; "turn"),
        EventAct::End => format!(in alloc; "end"),
        EventAct::Fault(kind) => {
            let word = word_of_fault(*kind);
            format!(in alloc; "fault {word}")
        }
        EventAct::Save => format!(in alloc; "save"),
        EventAct::Retry { site, gives } => {
            let number = site.0;
            let things = words_of_gives(alloc, gives.as_slice())?;
            format!(in alloc; "retry s{number}{things}")
        }
    }
}

/// The line of an entry in the text of a trace, with the end of the line.
pub fn write_event(alloc: Global, event: &Event) -> Result<String, NoMemory>
    ensures { IfOk result (λ text. string_bytes text ≡ event_line event.now) }
{
    let thread = event.thread;
    let words = words_of_act(alloc, &event.act)?;
    let line = format!(in alloc; "{thread} {words}\n")?;
    Ok(line)
}

/// The text of a trace: a line that counts its entries, and a line for each.
pub fn write_trace(alloc: Global, events: &[Event]) -> Result<String, NoMemory>
    ensures { IfOk result (λ text. string_bytes text ≡ flat_map (λ line. line) (trace_lines events.now)) }
{
    let count = events.len();
    let mut text = format!(in alloc; "trace {count}\n")?;
    'events: for event in events {
        let line = write_event(alloc, event)?;
        text.push_str(line.as_str())?;
    }
    Ok(text)
}
