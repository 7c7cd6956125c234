//! Numbers, addresses and values. A word is read as a whole.

ghost use Rattle.std.specs.Prelude.{◌≡◌, ℕ, ◌<◌, ◌^◌, ◌==◌, List, ◌∷◌, not, true, MatchOption, FitsSigned};
ghost use Rattle.std.specs.Int.{w32, w64};
ghost use Rattle.std.specs.List.{prefix_len};
ghost use Rattle.std.specs.Fmt.{decimal, signed_decimal};
ghost use Rattle.ca_model.specs.Traces.{address_text, value_text};
ghost use Rattle.ca_traces.specs.Finding.{Finds, IsCut, lacks};
ghost use Rattle.ca_traces.specs.Writable.{AddressFits, ValueFits, IsBlockStart, MayBeFreed};

use ca_model::{Addr, Value};
use itoa::Buffer;
use std::str;

// How many bytes stand before the first one of this kind, or before the end.
fn front_len(text: &[u8], at: u8) -> usize
    ensures { result ≡ prefix_len (λ b. not (b == at)) text.now }
{
    text.iter().take_while(|b| **b != at).count()
}

/// What stands before and behind the first byte of this kind, if there is one.
pub(crate) fn cut(text: &[u8], at: u8) -> Option<(&[u8], &[u8])>
    ensures { MatchOption result (lacks at text.now ≡ true) (λ p. IsCut at text.now p.0.now p.1.now) }
{
    let len = front_len(text, at);
    if len < text.len() {
        Some((&text[..len], &text[len + 1..]))
    } else {
        None
    }
}

/// What stands behind the first byte, if it is this one.
pub(crate) fn behind(text: &[u8], first: u8) -> Option<&[u8]>
    ensures { MatchOption result ((rest : List ℕ) → text.now ≡ first ∷ rest → ⊥) (λ rest. text.now ≡ first ∷ rest.now) }
{
    let (byte, rest) = text.split_first()?;
    if *byte == first { Some(rest) } else { None }
}

/// A number of 32 bits.
pub(crate) fn unsigned(word: &[u8]) -> Option<u32>
    ensures { Finds (λ n. (n < 2 ^ 32) × (decimal n ≡ word.now)) result }
{
    let Ok(text) = str::from_utf8(word) else {
        return None;
    };
    let Ok(number) = text.parse::<u32>() else {
        return None;
    };
    if Buffer::new().format(number) == text {
        Some(number)
    } else {
        None
    }
}

/// A signed number of 32 bits.
pub(crate) fn signed(word: &[u8]) -> Option<i32>
    ensures { Finds (λ n. FitsSigned w32 n × (signed_decimal n ≡ word.now)) result }
{
    let Ok(text) = str::from_utf8(word) else {
        return None;
    };
    let Ok(number) = text.parse::<i32>() else {
        return None;
    };
    if Buffer::new().format(number) == text {
        Some(number)
    } else {
        None
    }
}

/// A signed number of 64 bits.
pub(crate) fn long(word: &[u8]) -> Option<i64>
    ensures { Finds (λ n. FitsSigned w64 n × (signed_decimal n ≡ word.now)) result }
{
    let Ok(text) = str::from_utf8(word) else {
        return None;
    };
    let Ok(number) = text.parse::<i64>() else {
        return None;
    };
    if Buffer::new().format(number) == text {
        Some(number)
    } else {
        None
    }
}

/// A letter and a number.
pub(crate) fn numbered(word: &[u8], letter: u8) -> Option<u32>
    ensures { Finds (λ n. (n < 2 ^ 32) × (letter ∷ decimal n ≡ word.now)) result }
{
    let digits = behind(word, letter)?;
    unsigned(digits)
}

/// `@<block>.<offset>`
pub(crate) fn address(word: &[u8]) -> Option<Addr>
    ensures { Finds (λ a. AddressFits a × (address_text a ≡ word.now)) result }
{
    let digits = behind(word, b'@')?;
    let (front, rest) = cut(digits, b'.')?;
    let block = unsigned(front)?;
    let offset = signed(rest)?;
    Some(Addr { block, offset })
}

/// A number or an address.
pub(crate) fn value(word: &[u8]) -> Option<Value>
    ensures { Finds (λ x. ValueFits x × (value_text x ≡ word.now)) result }
{
    if let Some(at) = address(word) {
        return Some(Value::Addr(at));
    }
    let number = signed(word)?;
    Some(Value::Num(number))
}

/// Null, or an address.
pub(crate) fn freed(word: &[u8]) -> Option<Value>
    ensures { Finds (λ x. MayBeFreed x × (value_text x ≡ word.now)) result }
{
    if let Some(at) = address(word) {
        return Some(Value::Addr(at));
    }
    if word == b"0".as_slice() {
        Some(Value::Num(0))
    } else {
        None
    }
}

/// Null, or the first cell of a block.
pub(crate) fn block_start(word: &[u8]) -> Option<Value>
    ensures { Finds (λ x. IsBlockStart x × (value_text x ≡ word.now)) result }
{
    if word == b"0".as_slice() {
        return Some(Value::Num(0));
    }
    let at = address(word)?;
    if at.offset == 0 {
        Some(Value::Addr(at))
    } else {
        None
    }
}
