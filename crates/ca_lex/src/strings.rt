//! A string at the head of a text, with its escapes.

ghost use Rattle.std.specs.Prelude.{◌≡◌, ◌+◌, ◌<◌, ◌^◌, List, IfOk, MatchOption, slice_index, length};
ghost use Rattle.ca_tree.specs.Tokens.{Unit_of_string, escaped};
ghost use Rattle.ca_lex.specs.Strings.{StringAt, AreUnits, ClosesAt, NoClose, UnitsGive};

use ca_tree::{Listed, NoMemory, Text};
use std::alloc::Global;

/// What a text that begins with `"` begins with (C11 6.4.5).
#[derive(Debug, PartialEq, Drop)]
pub(crate) enum Quoted {
    /// A string of this length, and the bytes that it stands for.
    Closed { len: usize, bytes: Text },
    /// A string that its line doesn't end.
    Open,
    /// A string whose first escape that is none has its `\` here.
    Bad { at: usize },
}

// What the character behind a `\` stands for (C11 6.4.4.4).
fn escape(c: u8) -> Option<u8>
    ensures { result ≡ escaped c }
{
    match c {
        b'n' => Some(b'\n'),
        b't' => Some(b'\t'),
        b'\\' => Some(b'\\'),
        b'"' => Some(b'"'),
        _ => None,
    }
}

// How many bytes stand before the `"` that ends the string, behind the one that begins it.
fn units_len(text: &[u8]) -> Option<usize>
    ensures { MatchOption result (NoClose text.now) (λ n. ClosesAt text.now n) }
{
    let mut rest = text;
    'units: while let Some((first, more)) = rest.split_first() {
        if *first == b'"' {
            return Some(text.len() - rest.len());
        }
        if *first == b'\n' {
            return None;
        }
        if *first != b'\\' {
            rest = more;
            continue;
        }
        let Some((second, behind)) = more.split_first() else {
            return None;
        };
        if *second == b'\n' {
            return None;
        }
        rest = behind;
    }
    None
}

// What the characters between the quotes stand for.
fn unescaped(alloc: Global, units: &[u8]) -> Result<Quoted, NoMemory>
    requires are { (us : List Unit_of_string) × AreUnits units.now us }
    requires room { length units.now + 2 < 2 ^ 64 }
    ensures { IfOk result (λ found. UnitsGive units.now found) }
{
    let mut bytes = Vec::new(alloc);
    let mut rest = units;
    'units: while let Some((first, more)) = rest.split_first() {
        let at = units.len() - rest.len() + 1;
        if *first != b'\\' {
            bytes.push(*first)?;
            rest = more;
            continue;
        }
        let Some((second, behind)) = more.split_first() else {
            return Ok(Quoted::Bad { at });
        };
        let Some(byte) = escape(*second) else {
            return Ok(Quoted::Bad { at });
        };
        bytes.push(byte)?;
        rest = behind;
    }
    Ok(Quoted::Closed {
        len: units.len() + 2,
        bytes: Listed::from_vec(bytes),
    })
}

/// The string that the text begins with.
pub(crate) fn string(alloc: Global, text: &[u8]) -> Result<Quoted, NoMemory>
    requires { slice_index text.now 0 ≡ 34 }
    ensures { IfOk result (λ found. StringAt text.now found) }
{
    let Some((_, more)) = text.split_first() else {
        return Ok(Quoted::Open);
    };
    let Some(len) = units_len(more) else {
        return Ok(Quoted::Open);
    };
    let (units, _) = more.split_at(len);
    unescaped(alloc, units)
}
