//! What is counted in a program so far, and steps at which something is counted.

ghost use Rattle.std.specs.Prelude.{◌≡◌, ◌<◌, ◌≤◌, ℕ, ◌^◌, suc, length, IfOk, None};
ghost use Rattle.ca_grammar.specs.Plan.{counted};
ghost use Rattle.ca_tree.specs.Counts.{nothing_yet as nothing_of, one_more_global as one_more_global_of, one_more_mutex as one_more_mutex_of, one_more_struct as one_more_struct_of, one_more_function as one_more_function_of};
ghost use Rattle.ca_expressions.specs.Reading.{IsExceeded};
ghost use Rattle.ca_read.specs.Declaring.{totals_of, AreWithin, StarsAndName, Separates};

use ca_expressions::limits::exceeded;
use ca_expressions::names::wanted_name;
use ca_expressions::steps::mark;
use ca_expressions::stop::Stop;
use ca_grammar::{Count, Counted};
use ca_phrases::types::stars;
use ca_tree::tree::Name;
use ca_tree::{Mark, Token};
use std::alloc::Global;

/// How many there are so far.
#[derive(Clone, Copy)]
pub(crate) struct Totals {
    pub items: u32,
    pub functions: u32,
    pub globals: u32,
    pub mutexes: u32,
    pub structs: u32,
}

/// Nothing is counted.
pub(crate) fn nothing_yet() -> Totals
    ensures count { totals_of result ≡ nothing_of }
    ensures within { AreWithin result }
{
    Totals {
        items: 0,
        functions: 0,
        globals: 0,
        mutexes: 0,
        structs: 0,
    }
}

/// A global more.
pub(crate) fn one_more_global(totals: Totals) -> Totals
    requires within { AreWithin totals }
    requires room { totals.globals < 1024 }
    ensures count { totals_of result ≡ one_more_global_of (totals_of totals) }
    ensures within { AreWithin result }
{
    Totals {
        globals: totals.globals + 1,
        ..totals
    }
}

/// A mutex more.
pub(crate) fn one_more_mutex(totals: Totals) -> Totals
    requires within { AreWithin totals }
    requires room { totals.mutexes < 64 }
    ensures count { totals_of result ≡ one_more_mutex_of (totals_of totals) }
    ensures within { AreWithin result }
{
    Totals {
        mutexes: totals.mutexes + 1,
        ..totals
    }
}

/// A struct more.
pub(crate) fn one_more_struct(totals: Totals) -> Totals
    requires within { AreWithin totals }
    requires room { totals.structs < 64 }
    ensures count { totals_of result ≡ one_more_struct_of (totals_of totals) }
    ensures within { AreWithin result }
{
    Totals {
        structs: totals.structs + 1,
        ..totals
    }
}

/// A function more, with items up to these.
pub(crate) fn one_more_function(totals: Totals, items: u32) -> Totals
    requires within { AreWithin totals }
    requires room { totals.functions < 256 }
    requires items { items ≤ 65536 }
    ensures count { totals_of result ≡ one_more_function_of (totals_of totals) items }
    ensures within { AreWithin result }
{
    Totals {
        items,
        functions: totals.functions + 1,
        ..totals
    }
}

/// The next thing of a kind, behind so many.
pub(crate) fn next(of: Counted, before: u32) -> Count
    requires { before ≤ 65536 }
    ensures { result ≡ counted of (suc before) }
{
    Count {
        of,
        number: before as usize + 1,
    }
}

/// Stars, and a name.
pub(crate) fn stars_and_name<'t>(
    alloc: Global,
    tokens: &'t [Token],
) -> Result<(usize, Name, &'t [Token]), Stop<'t>>
    ensures reads { StarsAndName tokens.now result }
    ensures shorter { IfOk result (λ x. length x.2.now < length tokens.now) }
{
    let (stars, rest) = stars(tokens);
    let (name, rest) = wanted_name(alloc, &[], rest)?;
    Ok((stars, name, rest))
}

/// Whether a comma stands here, and else this mark, at which these things are counted.
pub(crate) fn comma_or<'t>(
    end: Mark,
    counts: &[Count],
    tokens: &'t [Token],
) -> Result<(bool, &'t [Token]), Stop<'t>>
    ensures reads { Separates end counts.now tokens.now result }
    ensures shorter { IfOk result (λ x. length x.1.now < length tokens.now) }
    ensures kept { IfOk result (λ x. IsExceeded counts.now None None) }
{
    if let Some((_, rest)) = mark(Mark::Comma, tokens) {
        if let Some(limit) = exceeded(counts, None) {
            return Err(Stop::Over(limit, tokens));
        }
        return Ok((true, rest));
    }
    let Some((_, rest)) = mark(end, tokens) else {
        return Err(Stop::At(tokens));
    };
    if let Some(limit) = exceeded(counts, None) {
        return Err(Stop::Over(limit, tokens));
    }
    Ok((false, rest))
}
