//! What an entry does, as the words behind its thread.

ghost use Rattle.std.specs.Prelude.{◌≡◌, ◌++◌, IfOk, codes, true};
ghost use Rattle.ca_model.specs.Traces.{address_text, value_text, fault_text, act_text};
ghost use Rattle.ca_traces.specs.Finding.{Finds};
ghost use Rattle.ca_traces.specs.Writable.{AddressFits, ValueFits, ActFits};
ghost use Rattle.ca_traces.specs.Verbs.{verb_text, is_bare};

use crate::lists::{printed, retry};
use crate::numbers::{address, block_start, cut, freed, long, numbered, unsigned, value};
use ca_model::{Addr, EventAct, FaultKind, Value};
use ca_tree::{FunId, MutexId, NoMemory};
use std::alloc::Global;

/// The first word of an act that has one or two words behind it.
#[derive(Clone, Copy)]
pub(crate) enum Verb {
    Read,
    Write,
    Lock,
    Unlock,
    Malloc,
    Free,
    Create,
    Join,
    Call,
    Return,
    Fault,
}

fn spelled(word: &[u8]) -> Option<Verb>
    ensures { Finds (λ v. verb_text v ≡ word.now) result }
{
    match word {
        b"read" => Some(Verb::Read),
        b"write" => Some(Verb::Write),
        b"lock" => Some(Verb::Lock),
        b"unlock" => Some(Verb::Unlock),
        b"malloc" => Some(Verb::Malloc),
        b"free" => Some(Verb::Free),
        b"create" => Some(Verb::Create),
        b"join" => Some(Verb::Join),
        b"call" => Some(Verb::Call),
        b"return" => Some(Verb::Return),
        b"fault" => Some(Verb::Fault),
        _ => None,
    }
}

fn fault_kind(word: &[u8]) -> Option<FaultKind>
    ensures { Finds (λ k. fault_text k ≡ word.now) result }
{
    match word {
        b"assert" => Some(FaultKind::Assert),
        b"pointer" => Some(FaultKind::Pointer),
        b"mutex" => Some(FaultKind::Mutex),
        b"arith" => Some(FaultKind::Arith),
        b"kind" => Some(FaultKind::Kind),
        b"thread" => Some(FaultKind::Thread),
        _ => None,
    }
}

// The act that is this word alone.
fn bare(word: &[u8]) -> Option<EventAct>
    ensures { Finds (λ a. (is_bare a ≡ true) × (act_text a ≡ word.now)) result }
{
    match word {
        b"turn" => Some(EventAct::Turn),
        b"end" => Some(EventAct::End),
        b"save" => Some(EventAct::Save),
        _ => None,
    }
}

// An address and a value.
fn access(words: &[u8]) -> Option<(Addr, Value)>
    ensures { Finds (λ p. AddressFits p.0 × ValueFits p.1 × (address_text p.0 ++ (codes " " ++ value_text p.1) ≡ words.now)) result }
{
    let (place, held) = cut(words, b' ')?;
    let at = address(place)?;
    let value = value(held)?;
    Some((at, value))
}

// A number of cells, and null or the start of a block.
fn allocation(words: &[u8]) -> Option<EventAct>
    ensures { Finds (λ a. ActFits a × (act_text a ≡ codes "malloc " ++ words.now)) result }
{
    let (count, given) = cut(words, b' ')?;
    let cells = long(count)?;
    let at = block_start(given)?;
    Some(EventAct::Malloc { cells, at })
}

// What is told without memory.
fn plain(verb: Verb, words: &[u8]) -> Option<EventAct>
    ensures { Finds (λ a. ActFits a × (act_text a ≡ verb_text verb ++ (codes " " ++ words.now))) result }
{
    match verb {
        Verb::Read => {
            let (at, value) = access(words)?;
            Some(EventAct::Read { at, value })
        }
        Verb::Write => {
            let (at, value) = access(words)?;
            Some(EventAct::Write { at, value })
        }
        Verb::Lock => Some(EventAct::Lock(MutexId(numbered(words, b'm')?))),
        Verb::Unlock => Some(EventAct::Unlock(MutexId(numbered(words, b'm')?))),
        Verb::Malloc => allocation(words),
        Verb::Free => Some(EventAct::Free { at: freed(words)? }),
        Verb::Create => Some(EventAct::Create(unsigned(words)?)),
        Verb::Join => Some(EventAct::Join(unsigned(words)?)),
        Verb::Call => Some(EventAct::Call(FunId(numbered(words, b'f')?))),
        Verb::Return => Some(EventAct::Return(value(words)?)),
        Verb::Fault => Some(EventAct::Fault(fault_kind(words)?)),
    }
}

/// What an entry does, as the words behind its thread.
pub(crate) fn act(alloc: Global, words: &[u8]) -> Result<Option<EventAct>, NoMemory>
    ensures { IfOk result (λ r. Finds (λ a. ActFits a × (act_text a ≡ words.now)) r) }
{
    let Some((word, rest)) = cut(words, b' ') else {
        return Ok(bare(words));
    };
    if word == b"print".as_slice() {
        return printed(alloc, rest);
    }
    if word == b"retry".as_slice() {
        return retry(alloc, rest);
    }
    let Some(verb) = spelled(word) else {
        return Ok(None);
    };
    Ok(plain(verb, rest))
}
