//! Readers of names.

ghost use Rattle.std.specs.Prelude.{◌≡◌, ◌<◌, length, IfOk, None};
ghost use Rattle.ca_grammar.specs.Expressions.{name as name_of};
ghost use Rattle.ca_grammar.specs.Plan.{and_name};
ghost use Rattle.ca_expressions.specs.Reading.{IsExceeded, WantsName};

use crate::limits::exceeded_by_name;
use crate::steps::name;
use crate::stop::Stop;
use ca_grammar::Count;
use ca_tree::tree::Name;
use ca_tree::{Listed, NoMemory, Pos, Text, Token};
use std::alloc::Global;

/// A name of its own text.
pub fn named(alloc: Global, pos: Pos, text: &Text) -> Result<Name, NoMemory>
    ensures { IfOk result (λ x. x ≡ name_of pos text.now) }
{
    let text = Listed::from_vec(Vec::from_slice(alloc, text.as_slice())?);
    Ok(Name { pos, text })
}

/// A name that has to be there, with what is counted at it.
pub fn wanted_name<'t>(
    alloc: Global,
    counts: &[Count],
    tokens: &'t [Token],
) -> Result<(Name, &'t [Token]), Stop<'t>>
    ensures reads { WantsName counts.now tokens.now result }
    ensures shorter { IfOk result (λ x. length x.1.now < length tokens.now) }
    ensures kept { IfOk result (λ x. IsExceeded counts.now None None) }
{
    let Some((pos, text, rest)) = name(tokens) else {
        return Err(Stop::At(tokens));
    };
    if let Some(limit) = exceeded_by_name(counts, text.as_slice()) {
        return Err(Stop::Over(limit, tokens));
    }
    Ok((named(alloc, pos, text)?, rest))
}
