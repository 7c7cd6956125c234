//! Readers of arguments and right sides.

ghost use Rattle.std.specs.Prelude.{◌≡◌, ◌<◌, ◌≤◌, [], length, IfOk};
ghost use Rattle.ca_grammar.specs.Goals.{Arguments_behind, Print_arguments, Behind_malloc, A_right, Initializer};
ghost use Rattle.ca_grammar.specs.PhrasePlans.{value_from as on_value, behind_cast as on_cast, behind_open as on_open};
ghost use Rattle.ca_expressions.specs.Reading.{Reading, Following, Beginning};
ghost use Rattle.ca_phrases.specs.Phrases.{on_count, on_size, on_nameless, on_name};

use crate::types::{stars, type_name};
use ca_expressions::expressions::{
    behind_operator, behind_primary, behind_unary, expression, inner, leaf, literal, unary,
};
use ca_expressions::limits::exceeded_by_name;
use ca_expressions::names::{named, wanted_name};
use ca_expressions::steps::{mark, name_of_the_source, unary_operator, word};
use ca_expressions::stop::Stop;
use ca_grammar::{Count, Counted, Operand};
use ca_tree::tree::{Base, Call, Exp, Malloc, Name, Right, Type};
use ca_tree::{Listed, Mark, Pos, Token};
use std::alloc::Global;

/// The arguments of a call, behind its `(`, and its `)`.
pub fn arguments<'t>(
    alloc: Global,
    tokens: &'t [Token],
) -> Result<(Listed<Exp>, &'t [Token]), Stop<'t>>
    ensures reads { Reading Arguments_behind (λ x. (x.0, x.1.now)) tokens.now result }
    ensures shorter { IfOk result (λ x. length x.1.now < length tokens.now) }
{
    let mut all = Vec::new(alloc);
    if let Some((_, rest)) = mark(Mark::CloseParen, tokens) {
        return Ok((Listed::from_vec(all), rest));
    }
    let (first, mut rest) = expression(alloc, &[], tokens)?;
    all.push(first.exp)?;
    'arguments: while let Some((_, after)) = mark(Mark::Comma, rest) {
        let (next, after) = expression(alloc, &[], after)?;
        all.push(next.exp)?;
        rest = after;
    }
    let Some((_, rest)) = mark(Mark::CloseParen, rest) else {
        return Err(Stop::At(rest));
    };
    Ok((Listed::from_vec(all), rest))
}

/// The arguments of a `printf` behind its format, and its `)`.
pub fn print_arguments<'t>(
    alloc: Global,
    tokens: &'t [Token],
) -> Result<(Listed<Exp>, &'t [Token]), Stop<'t>>
    ensures reads { Reading (Print_arguments 0) (λ x. (x.0, x.1.now)) tokens.now result }
    ensures shorter { IfOk result (λ x. length x.1.now < length tokens.now) }
{
    let mut all = Vec::new(alloc);
    let mut rest = tokens;
    'arguments: while let Some((_, after)) = mark(Mark::Comma, rest) {
        let count = Count {
            of: Counted::Arguments,
            number: all.len() + 1,
        };
        let (next, after) = expression(alloc, &[count], after)?;
        all.push(next.exp)?;
        rest = after;
    }
    let Some((_, rest)) = mark(Mark::CloseParen, rest) else {
        return Err(Stop::At(rest));
    };
    Ok((Listed::from_vec(all), rest))
}

// The count of elements with its `*`, where there is one, and `sizeof`.
fn count<'t>(alloc: Global, tokens: &'t [Token]) -> Result<(Option<Exp>, &'t [Token]), Stop<'t>>
    ensures reads { Beginning on_count (λ x. (x.0, x.1.now)) tokens.now result }
    ensures shorter { IfOk result (λ x. length x.1.now < length tokens.now) }
{
    if let Some((_, rest)) = word(b"sizeof", tokens) {
        return Ok((None, rest));
    }
    let (a, rest) = unary(alloc, &[], tokens)?;
    let Some((_, rest)) = mark(Mark::Star, rest) else {
        return Err(Stop::At(rest));
    };
    let Some((_, rest)) = word(b"sizeof", rest) else {
        return Err(Stop::At(rest));
    };
    Ok((Some(a.exp), rest))
}

// A type in parentheses, and the `)` behind them.
fn size<'t>(alloc: Global, tokens: &'t [Token]) -> Result<(Type, &'t [Token]), Stop<'t>>
    ensures reads { Beginning on_size (λ x. (x.0, x.1.now)) tokens.now result }
    ensures shorter { IfOk result (λ x. length x.1.now < length tokens.now) }
{
    let Some((_, rest)) = mark(Mark::OpenParen, tokens) else {
        return Err(Stop::At(tokens));
    };
    let (of, rest) = type_name(alloc, rest)?;
    let Some((_, rest)) = mark(Mark::CloseParen, rest) else {
        return Err(Stop::At(rest));
    };
    let Some((_, rest)) = mark(Mark::CloseParen, rest) else {
        return Err(Stop::At(rest));
    };
    Ok((of, rest))
}

/// What stands behind the word `malloc`.
pub fn behind_malloc<'t>(
    alloc: Global,
    pos: Pos,
    cast: Option<Type>,
    tokens: &'t [Token],
) -> Result<(Malloc, &'t [Token]), Stop<'t>>
    ensures reads { Reading (Behind_malloc pos cast) (λ x. (x.0, x.1.now)) tokens.now result }
    ensures shorter { IfOk result (λ x. length x.1.now < length tokens.now) }
{
    let Some((_, rest)) = mark(Mark::OpenParen, tokens) else {
        return Err(Stop::At(tokens));
    };
    let (count, rest) = count(alloc, rest)?;
    let (of, rest) = size(alloc, rest)?;
    Ok((
        Malloc {
            pos,
            cast,
            count,
            of,
        },
        rest,
    ))
}

// From a primary on, a value.
fn value_from<'t>(
    alloc: Global,
    a: Operand,
    tokens: &'t [Token],
) -> Result<(Right, &'t [Token]), Stop<'t>>
    requires low { 1 ≤ a.depth }
    requires fits { a.depth ≤ 64 }
    ensures reads { Following A_right (on_value a) (λ x. (x.0, x.1.now)) tokens.now result }
    ensures shorter { IfOk result (λ x. length x.1.now ≤ length tokens.now) }
{
    let (b, rest) = behind_primary(alloc, 6, a, tokens)?;
    Ok((Right::Value(b.exp), rest))
}

// Behind the base of a cast.
fn behind_cast<'t>(
    alloc: Global,
    start: Pos,
    base: Base,
    tokens: &'t [Token],
) -> Result<(Right, &'t [Token]), Stop<'t>>
    ensures reads { Following A_right (on_cast start base) (λ x. (x.0, x.1.now)) tokens.now result }
    ensures shorter { IfOk result (λ x. length x.1.now < length tokens.now) }
{
    let (stars, rest) = stars(tokens);
    let Some((_, rest)) = mark(Mark::CloseParen, rest) else {
        return Err(Stop::At(rest));
    };
    let Some((_, rest)) = word(b"malloc", rest) else {
        return Err(Stop::At(rest));
    };
    let (malloc, rest) = behind_malloc(alloc, start, Some(Type { base, stars }), rest)?;
    Ok((Right::Malloc(malloc), rest))
}

// Behind the `(` that a right side begins with.
fn behind_open<'t>(
    alloc: Global,
    start: Pos,
    tokens: &'t [Token],
) -> Result<(Right, &'t [Token]), Stop<'t>>
    ensures reads { Following A_right (on_open start) (λ x. (x.0, x.1.now)) tokens.now result }
    ensures shorter { IfOk result (λ x. length x.1.now < length tokens.now) }
{
    if let Some((_, rest)) = word(b"int", tokens) {
        return behind_cast(alloc, start, Base::Int, rest);
    }
    if let Some((_, rest)) = word(b"struct", tokens) {
        let (name, rest) = wanted_name(alloc, &[], rest)?;
        return behind_cast(alloc, start, Base::Struct(name), rest);
    }
    let (a, rest) = inner(alloc, start, tokens)?;
    value_from(alloc, a, rest)
}

// A right side that begins with no name.
fn nameless<'t>(alloc: Global, tokens: &'t [Token]) -> Result<(Right, &'t [Token]), Stop<'t>>
    ensures reads { Following A_right on_nameless (λ x. (x.0, x.1.now)) tokens.now result }
    ensures shorter { IfOk result (λ x. length x.1.now < length tokens.now) }
{
    if let Some((start, rest)) = mark(Mark::OpenParen, tokens) {
        return behind_open(alloc, start, rest);
    }
    if let Some((start, operator, rest)) = unary_operator(tokens) {
        let (a, rest) = behind_operator(alloc, start, operator, rest)?;
        let (b, rest) = behind_unary(alloc, 6, a, rest)?;
        return Ok((Right::Value(b.exp), rest));
    }
    let (a, rest) = literal(&[], tokens)?;
    value_from(alloc, a, rest)
}

// A call or a value, behind the name that it begins with.
fn behind_name<'t>(
    alloc: Global,
    name: Name,
    tokens: &'t [Token],
) -> Result<(Right, &'t [Token]), Stop<'t>>
    ensures reads { Following A_right (on_name name) (λ x. (x.0, x.1.now)) tokens.now result }
    ensures shorter { IfOk result (λ x. length x.1.now ≤ length tokens.now) }
{
    if let Some((_, rest)) = mark(Mark::OpenParen, tokens) {
        let (arguments, rest) = arguments(alloc, rest)?;
        return Ok((Right::Call(Call { name, arguments }), rest));
    }
    let pos = name.pos;
    value_from(alloc, leaf(pos, Exp::Name(name)), tokens)
}

/// A right side.
pub fn right<'t>(alloc: Global, tokens: &'t [Token]) -> Result<(Right, &'t [Token]), Stop<'t>>
    ensures reads { Reading A_right (λ x. (x.0, x.1.now)) tokens.now result }
    ensures shorter { IfOk result (λ x. length x.1.now < length tokens.now) }
{
    if let Some((start, rest)) = word(b"malloc", tokens) {
        let (malloc, rest) = behind_malloc(alloc, start, None, rest)?;
        return Ok((Right::Malloc(malloc), rest));
    }
    let Some((start, text, rest)) = name_of_the_source(tokens) else {
        return nameless(alloc, tokens);
    };
    if let Some(limit) = exceeded_by_name(&[], text.as_slice()) {
        return Err(Stop::Over(limit, tokens));
    }
    behind_name(alloc, named(alloc, start, text)?, rest)
}

/// A `=` and a right side, or nothing.
pub fn initializer<'t>(
    alloc: Global,
    tokens: &'t [Token],
) -> Result<(Option<Right>, &'t [Token]), Stop<'t>>
    ensures reads { Reading Initializer (λ x. (x.0, x.1.now)) tokens.now result }
    ensures shorter { IfOk result (λ x. length x.1.now ≤ length tokens.now) }
{
    let Some((_, rest)) = mark(Mark::Assign, tokens) else {
        return Ok((None, tokens));
    };
    let (value, rest) = right(alloc, rest)?;
    Ok((Some(value), rest))
}
