//! A text as a trace.

ghost use Rattle.std.specs.Prelude.{◌≡◌, ◌⊎◌, ℕ, ◌≤◌, ◌++◌, List, MatchOption, IfOk, IsTrue, ◌↔◌, codes};
ghost use Rattle.ca_model.specs.declared.values.Event.{Event};
ghost use Rattle.ca_model.specs.Traces.{event_line, line_end};
ghost use Rattle.ca_traces.specs.Finding.{Finds};
ghost use Rattle.ca_traces.specs.Writable.{IsWritable};
ghost use Rattle.ca_traces.specs.Readings.{MayFollow, count_line, most_entries, IsReading, LacksReading, IsAnswer};

use crate::acts::act;
use crate::numbers::{cut, unsigned};
use ca_model::{Event, Events};
use ca_tree::NoMemory;
use std::alloc::{AllocFailed, Global};

/// Why a text isn't read as a trace.
#[derive(Debug, PartialEq, Drop)]
pub enum TraceNo {
    /// This line, counted from 1, is the first that has no reading. Where the text ends before a line that it has to have,
    /// it is that line.
    Fault { line: u32 },
    /// An allocation was refused. It may come at any text.
    NoMemory,
}

impl From<NoMemory> for TraceNo {
    ghost use Rattle.std.specs.Prelude.{◌≡◌};
    ghost use Rattle.ca_traces.specs.declared.reading.TraceNo.{TraceNo};
    ghost use Rattle.ca_traces.specs.declared.reading.TraceNo.TheVariants.{NoMemory};

    ghost from_gives = { λ x r. r ≡ NoMemory };

    fn from(_: NoMemory) -> Self {
        TraceNo::NoMemory
    }
}

impl<T: Drop> From<AllocFailed<T>> for TraceNo {
    ghost use Rattle.std.specs.Prelude.{◌≡◌};
    ghost use Rattle.ca_traces.specs.declared.reading.TraceNo.{TraceNo};
    ghost use Rattle.ca_traces.specs.declared.reading.TraceNo.TheVariants.{NoMemory};

    ghost from_gives = { λ x r. r ≡ NoMemory };

    fn from(_: AllocFailed<T>) -> Self {
        TraceNo::NoMemory
    }
}

/// The most entries of a trace that is read.
const MOST_ENTRIES: u32 = 2_000_000;

// The number of entries, and what is behind the first line.
fn counted(text: &[u8]) -> Option<(u32, &[u8])>
    ensures { MatchOption result ((n : ℕ) (rest : List ℕ) → n ≤ most_entries → text.now ≡ count_line n ++ rest → ⊥) (λ p. (p.0 ≤ most_entries) × (text.now ≡ count_line p.0 ++ p.1.now)) }
{
    let (line, rest) = cut(text, b'\n')?;
    let digits = line.strip_prefix(b"trace ".as_slice())?;
    let count = unsigned(digits)?;
    if count <= MOST_ENTRIES {
        Some((count, rest))
    } else {
        None
    }
}

// An entry as a line without its end.
fn event(alloc: Global, line: &[u8]) -> Result<Option<Event>, NoMemory>
    ensures { IfOk result (λ r. Finds (λ e. IsWritable e × (event_line e ≡ line.now ++ line_end)) r) }
{
    let Some((word, words)) = cut(line, b' ') else {
        return Ok(None);
    };
    let Some(thread) = unsigned(word) else {
        return Ok(None);
    };
    let Some(act) = act(alloc, words)? else {
        return Ok(None);
    };
    Ok(Some(Event { thread, act }))
}

// An entry, and what is behind its line.
fn entry(alloc: Global, text: &[u8]) -> Result<Option<(Event, &[u8])>, NoMemory>
    ensures { IfOk result (λ r. MatchOption r ((e : Event) (more : List ℕ) → IsWritable e → text.now ≡ event_line e ++ more → ⊥) (λ p. IsWritable p.0 × (text.now ≡ event_line p.0 ++ p.1.now))) }
{
    let Some((line, rest)) = cut(text, b'\n') else {
        return Ok(None);
    };
    let Some(event) = event(alloc, line)? else {
        return Ok(None);
    };
    Ok(Some((event, rest)))
}

// Whether this may stand behind the last entry.
fn may_follow(rest: &[u8]) -> bool
    ensures { IsTrue result ↔ MayFollow rest.now }
{
    rest.is_empty() || rest.starts_with(b"ending ".as_slice())
}

// The answer for a text.
fn read(alloc: Global, text: &[u8]) -> Result<Events, TraceNo>
    ensures { IsAnswer text.now result }
{
    let Some((count, mut rest)) = counted(text) else {
        return Err(TraceNo::Fault { line: 1 });
    };
    let mut events = Vec::new(alloc);
    'entries: for k in 0..count {
        let Some((event, behind)) = entry(alloc, rest)? else {
            return Err(TraceNo::Fault { line: k + 2 });
        };
        events.push(event)?;
        rest = behind;
    }
    if may_follow(rest) {
        Ok(Events::from_vec(events))
    } else {
        Err(TraceNo::Fault { line: count + 2 })
    }
}

/// The entries of a trace, from its text, or from a text in which bytes that begin with `ending ` follow. The first line is
/// `trace <n>` with n at most 2,000,000, each of the next n is the line of an entry that `write_event` of `ca_events`
/// writes, and each ends with a line feed. It is one pass, and takes memory for the entries that it has read alone.
///
/// `Fault` comes for any other text, with the first line that has no reading. What stands behind the last entry counts as
/// a line.
pub fn read_trace(alloc: Global, text: &[u8]) -> Result<Events, TraceNo>
    ensures answer { IsAnswer text.now result }
    ensures ok { (events : List Event) → IsReading text.now events → (result ≡ Ok events) ⊎ (result ≡ Err TraceNo.NoMemory) }
    ensures fault { (line : ℕ) → LacksReading text.now line → (result ≡ Err (TraceNo.Fault line)) ⊎ (result ≡ Err TraceNo.NoMemory) }
{
    read(alloc, text)
}
