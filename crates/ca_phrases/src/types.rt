//! Readers of types and declared names.

ghost use Rattle.std.specs.Prelude.{◌<◌, ◌≤◌, List, length, IfOk};
ghost use Rattle.ca_tree.specs.declared.tree.Base.TheVariants.{Int};
ghost use Rattle.ca_grammar.specs.Words.{Takes, Lacks, star};
ghost use Rattle.ca_grammar.specs.Limits.{the_limits};
ghost use Rattle.ca_grammar.specs.Goals.{Stars, Starred_name, Base_at, Type_name};
ghost use Rattle.ca_grammar.specs.Reads.{plan, Reads, Yes};
ghost use Rattle.ca_expressions.specs.Reading.{Reading};

use ca_expressions::limits::{exceeded, exceeded_by_name};
use ca_expressions::names::{named, wanted_name};
use ca_expressions::steps::{mark, name, word};
use ca_expressions::stop::Stop;
use ca_grammar::Count;
use ca_tree::tree::{Base, Name, Type};
use ca_tree::{Mark, Pos, Token};
use std::alloc::Global;

/// Stars, as many before as these.
pub fn more_stars(before: usize, tokens: &[Token]) -> (usize, &[Token])
    requires { before ≤ 1 }
    ensures reads { Reads the_limits (Stars before) (plan (Stars before)) tokens.now (Yes result.0 result.1.now) }
    ensures shorter { length result.1.now ≤ length tokens.now }
{
    let mut count = before;
    let mut rest = tokens;
    'stars: while let Some((_, after)) = mark(Mark::Star, rest) {
        count += 1;
        rest = after;
    }
    (count, rest)
}

/// Stars.
pub fn stars(tokens: &[Token]) -> (usize, &[Token])
    ensures reads { Reads the_limits (Stars 0) (plan (Stars 0)) tokens.now (Yes result.0 result.1.now) }
    ensures shorter { length result.1.now ≤ length tokens.now }
{
    more_stars(0, tokens)
}

/// A name with the stars before it, and where they begin.
#[derive(Drop)]
pub struct Starred {
    pub pos: Pos,
    pub stars: usize,
    pub name: Name,
}

// A declared name without stars.
fn unstarred<'t>(
    alloc: Global,
    counts: &[Count],
    at_name: &[Count],
    tokens: &'t [Token],
) -> Result<(Starred, &'t [Token]), Stop<'t>>
    requires { Lacks star tokens.now }
    ensures reads { Reading (Starred_name counts.now at_name.now Int) (λ x. (record { pos = x.0.pos; stars = x.0.stars; name = x.0.name }, x.1.now)) tokens.now result }
    ensures shorter { IfOk result (λ x. length x.1.now < length tokens.now) }
{
    let Some((pos, text, rest)) = name(tokens) else {
        return Err(Stop::At(tokens));
    };
    if let Some(limit) = exceeded(counts, None) {
        return Err(Stop::Over(limit, tokens));
    }
    if let Some(limit) = exceeded_by_name(at_name, text.as_slice()) {
        return Err(Stop::Over(limit, tokens));
    }
    let name = named(alloc, pos, text)?;
    Ok((
        Starred {
            pos,
            stars: 0,
            name,
        },
        rest,
    ))
}

/// A declared name with the stars before it, of which a struct has one at least.
pub fn starred_name<'t>(
    alloc: Global,
    counts: &[Count],
    at_name: &[Count],
    base: &Base,
    tokens: &'t [Token],
) -> Result<(Starred, &'t [Token]), Stop<'t>>
    ensures reads { Reading (Starred_name counts.now at_name.now base.now) (λ x. (record { pos = x.0.pos; stars = x.0.stars; name = x.0.name }, x.1.now)) tokens.now result }
    ensures shorter { IfOk result (λ x. length x.1.now < length tokens.now) }
{
    let Some((pos, rest)) = mark(Mark::Star, tokens) else {
        return match base {
            Base::Int => unstarred(alloc, counts, at_name, tokens),
            Base::Struct(_) => Err(Stop::At(tokens)),
        };
    };
    if let Some(limit) = exceeded(counts, None) {
        return Err(Stop::Over(limit, tokens));
    }
    let (stars, rest) = more_stars(1, rest);
    let Some((name_pos, text, after)) = name(rest) else {
        return Err(Stop::At(rest));
    };
    if let Some(limit) = exceeded_by_name(at_name, text.as_slice()) {
        return Err(Stop::Over(limit, rest));
    }
    let name = named(alloc, name_pos, text)?;
    Ok((Starred { pos, stars, name }, after))
}

/// A base, and where it begins.
pub fn base<'t>(
    alloc: Global,
    counts: &[Count],
    tokens: &'t [Token],
) -> Result<(Pos, Base, &'t [Token]), Stop<'t>>
    ensures reads { Reading (Base_at counts.now) (λ x. (record { pos = x.0; what = x.1 }, x.2.now)) tokens.now result }
    ensures shorter { IfOk result (λ x. length x.2.now < length tokens.now) }
{
    if let Some((pos, rest)) = word(b"int", tokens) {
        if let Some(limit) = exceeded(counts, None) {
            return Err(Stop::Over(limit, tokens));
        }
        return Ok((pos, Base::Int, rest));
    }
    let Some((pos, rest)) = word(b"struct", tokens) else {
        return Err(Stop::At(tokens));
    };
    if let Some(limit) = exceeded(counts, None) {
        return Err(Stop::Over(limit, tokens));
    }
    let (name, rest) = wanted_name(alloc, &[], rest)?;
    Ok((pos, Base::Struct(name), rest))
}

/// A base with the stars behind it.
pub fn type_name<'t>(alloc: Global, tokens: &'t [Token]) -> Result<(Type, &'t [Token]), Stop<'t>>
    ensures reads { Reading Type_name (λ x. (x.0, x.1.now)) tokens.now result }
    ensures shorter { IfOk result (λ x. length x.1.now < length tokens.now) }
{
    let (_, base, rest) = base(alloc, &[], tokens)?;
    let (stars, rest) = stars(rest);
    Ok((Type { base, stars }, rest))
}
