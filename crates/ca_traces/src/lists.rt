//! Acts whose words may be of any length: the bytes of an output, and what a retry gives back.

ghost use Rattle.std.specs.Prelude.{◌≡◌, ◌<◌, ◌++◌, ◌∷◌, [], All, IfOk, codes, false};
ghost use Rattle.std.specs.Fmt.{digit_glyph};
ghost use Rattle.ca_model.specs.Traces.{hex_digits, given_text, gives_text, act_text};
ghost use Rattle.ca_traces.specs.Finding.{Finds};
ghost use Rattle.ca_traces.specs.Writable.{GivenFits, ActFits};

use crate::numbers::{behind, cut, numbered, unsigned};
use ca_model::{EventAct, Given, Gives};
use ca_tree::{MutexId, NoMemory, SiteId, Text};
use std::alloc::Global;

// A digit to the base 16, in lower case.
fn hex_digit(byte: u8) -> Option<u8>
    ensures { Finds (λ d. (d < 16) × (digit_glyph false d ≡ byte)) result }
{
    match byte {
        b'0'..=b'9' => Some(byte - b'0'),
        b'a'..=b'f' => Some(byte - b'a' + 10),
        _ => None,
    }
}

// Two digits.
fn hex_byte(high: u8, low: u8) -> Option<u8>
    ensures { Finds (λ b. (b < 256) × (hex_digits (b ∷ []) ≡ high ∷ low ∷ [])) result }
{
    let front = hex_digit(high)?;
    let back = hex_digit(low)?;
    Some(16 * front + back)
}

// Two digits a byte.
fn hex_bytes(alloc: Global, digits: &[u8]) -> Result<Option<Text>, NoMemory>
    ensures { IfOk result (λ r. Finds (λ bytes. All (λ b. b < 256) bytes × (hex_digits bytes ≡ digits.now)) r) }
{
    let mut bytes = Vec::new(alloc);
    let mut rest = digits;
    'pairs: while let [high, low, more @ ..] = rest {
        let Some(byte) = hex_byte(*high, *low) else {
            return Ok(None);
        };
        bytes.push(byte)?;
        rest = more;
    }
    if rest.is_empty() {
        Ok(Some(Text::from_vec(bytes)))
    } else {
        Ok(None)
    }
}

/// An output: its bytes, or `-` for none.
pub(crate) fn printed(alloc: Global, word: &[u8]) -> Result<Option<EventAct>, NoMemory>
    ensures { IfOk result (λ r. Finds (λ a. ActFits a × (act_text a ≡ codes "print " ++ word.now)) r) }
{
    if word == b"-".as_slice() {
        return Ok(Some(EventAct::Print(Text::from_vec(Vec::new(alloc)))));
    }
    if word.is_empty() {
        return Ok(None);
    }
    let Some(bytes) = hex_bytes(alloc, word)? else {
        return Ok(None);
    };
    Ok(Some(EventAct::Print(bytes)))
}

// A mutex, or the start of a block.
fn given(word: &[u8]) -> Option<Given>
    ensures { Finds (λ g. GivenFits g × (given_text g ≡ word.now)) result }
{
    if let Some(number) = numbered(word, b'm') {
        return Some(Given::Mutex(MutexId(number)));
    }
    let place = behind(word, b'@')?;
    let (digits, offset) = cut(place, b'.')?;
    let block = unsigned(digits)?;
    if offset == b"0".as_slice() {
        Some(Given::Block(block))
    } else {
        None
    }
}

// Things with a space between them, of which there is one or more.
fn gives(alloc: Global, words: &[u8]) -> Result<Option<Gives>, NoMemory>
    ensures { IfOk result (λ r. Finds (λ gs. All GivenFits gs × (gives_text gs ≡ codes " " ++ words.now)) r) }
{
    let mut gives = Vec::new(alloc);
    let mut rest = words;
    'things: while let Some((word, more)) = cut(rest, b' ') {
        let Some(thing) = given(word) else {
            return Ok(None);
        };
        gives.push(thing)?;
        rest = more;
    }
    let Some(thing) = given(rest) else {
        return Ok(None);
    };
    gives.push(thing)?;
    Ok(Some(Gives::from_vec(gives)))
}

/// A retry: its site, and each thing that is given back after a space.
pub(crate) fn retry(alloc: Global, words: &[u8]) -> Result<Option<EventAct>, NoMemory>
    ensures { IfOk result (λ r. Finds (λ a. ActFits a × (act_text a ≡ codes "retry " ++ words.now)) r) }
{
    let Some((word, things)) = cut(words, b' ') else {
        let Some(site) = numbered(words, b's') else {
            return Ok(None);
        };
        let gives = Gives::from_vec(Vec::new(alloc));
        return Ok(Some(EventAct::Retry {
            site: SiteId(site),
            gives,
        }));
    };
    let Some(site) = numbered(word, b's') else {
        return Ok(None);
    };
    let Some(gives) = gives(alloc, things)? else {
        return Ok(None);
    };
    Ok(Some(EventAct::Retry {
        site: SiteId(site),
        gives,
    }))
}
