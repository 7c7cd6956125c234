//! The limits that are counted at a token.

ghost use Rattle.std.specs.Prelude.{◌≡◌, Some, None};
ghost use Rattle.ca_tree.specs.Counts.{most};
ghost use Rattle.ca_grammar.specs.Plan.{and_name};
ghost use Rattle.ca_expressions.specs.Reading.{IsExceeded};

use ca_grammar::{Count, Counted};

const MOST_DEPTH: u32 = 64;

// The greatest number of a thing.
fn most(of: Counted) -> usize
    ensures { result ≡ most of }
{
    match of {
        Counted::Items => 65_536,
        Counted::Functions => 256,
        Counted::Globals => 1024,
        Counted::Mutexes | Counted::Structs | Counted::Fields | Counted::Nesting => 64,
        Counted::Parameters => 16,
        Counted::Arguments => 8,
        Counted::StringBytes => 256,
        Counted::NameBytes => 63,
    }
}

// The first count that is above its limit.
fn first_exceeded(counts: &[Count]) -> Option<Counted>
    ensures { IsExceeded counts.now None result }
{
    for count in counts {
        if count.number > most(count.of) {
            return Some(count.of);
        }
    }
    None
}

/// The first limit that a token exceeds at which these things are counted, and with which an expression is so deep.
pub fn exceeded(counts: &[Count], deep: Option<u32>) -> Option<Counted>
    ensures { IsExceeded counts.now deep result }
{
    if let Some(depth) = deep
        && depth > MOST_DEPTH
    {
        return Some(Counted::Nesting);
    }
    first_exceeded(counts)
}

/// The first limit that a name exceeds at which these things are counted.
pub fn exceeded_by_name(counts: &[Count], name: &[u8]) -> Option<Counted>
    ensures { IsExceeded (and_name counts.now name.now) None result }
{
    if let Some(limit) = first_exceeded(counts) {
        return Some(limit);
    }
    if name.len() > most(Counted::NameBytes) {
        return Some(Counted::NameBytes);
    }
    None
}
