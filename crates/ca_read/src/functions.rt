//! Readers of functions.

ghost use Rattle.std.specs.Prelude.{◌≡◌, ◌<◌, ◌≤◌, ℕ, length, IfOk};
ghost use Rattle.ca_tree.specs.declared.tree.ParameterType.{ParameterType};
ghost use Rattle.ca_grammar.specs.Goals.{Behind_type, Parameters, Body_of, Function_of, Behind_paren};
ghost use Rattle.ca_expressions.specs.Reading.{Reading};
ghost use Rattle.ca_read.specs.Declaring.{totals_of, AreWithin, IsValued, AType, AParameterName};

use crate::totals::{Totals, comma_or, next, one_more_function};
use ca_expressions::limits::{exceeded, exceeded_by_name};
use ca_expressions::names::{named, wanted_name};
use ca_expressions::steps::{mark, name, word};
use ca_expressions::stop::Stop;
use ca_grammar::Counted;
use ca_phrases::types::{more_stars, stars};
use ca_statements::statements::statements;
use ca_tree::tree::{
    Base, Body, Function, ItemAt, Name, Parameter, ParameterType, ResultType, Type,
};
use ca_tree::{ItemId, Listed, Mark, Token};
use std::alloc::Global;

// The type of a parameter that is no pointer to `void`.
fn valued<'t>(alloc: Global, tokens: &'t [Token]) -> Result<(ParameterType, &'t [Token]), Stop<'t>>
    ensures reads { IsValued tokens.now result }
    ensures shorter { IfOk result (λ x. length x.1.now < length tokens.now) }
{
    if let Some((_, rest)) = word(b"int", tokens) {
        let (stars, rest) = stars(rest);
        let base = Base::Int;
        return Ok((ParameterType::Value(Type { base, stars }), rest));
    }
    let Some((_, rest)) = word(b"struct", tokens) else {
        return Err(Stop::At(tokens));
    };
    let (name, rest) = wanted_name(alloc, &[], rest)?;
    let Some((_, rest)) = mark(Mark::Star, rest) else {
        return Err(Stop::At(rest));
    };
    let (stars, rest) = more_stars(1, rest);
    let base = Base::Struct(name);
    Ok((ParameterType::Value(Type { base, stars }), rest))
}

// The type of a parameter behind a comma.
fn parameter_type<'t>(
    alloc: Global,
    tokens: &'t [Token],
) -> Result<(ParameterType, &'t [Token]), Stop<'t>>
    ensures reads { (j : ℕ) → AType j tokens.now result }
    ensures shorter { IfOk result (λ x. length x.1.now < length tokens.now) }
{
    let Some((_, rest)) = word(b"void", tokens) else {
        return valued(alloc, tokens);
    };
    let Some((_, rest)) = mark(Mark::Star, rest) else {
        return Err(Stop::At(rest));
    };
    Ok((ParameterType::Pointer, rest))
}

// Behind the type of a parameter: its name, if it has one, and whether more parameters follow.
fn parameter_name<'t>(
    alloc: Global,
    before: u32,
    tokens: &'t [Token],
) -> Result<(Option<Name>, bool, &'t [Token]), Stop<'t>>
    requires { before ≤ 16 }
    ensures reads { (of : ParameterType) → AParameterName of before tokens.now result }
    ensures shorter { IfOk result (λ x. length x.2.now < length tokens.now) }
    ensures room { IfOk result (λ x. before < 16) }
{
    let count = [next(Counted::Parameters, before)];
    let Some((pos, text, rest)) = name(tokens) else {
        let (more, rest) = comma_or(Mark::CloseParen, &count, tokens)?;
        return Ok((None, more, rest));
    };
    if let Some(limit) = exceeded_by_name(&count, text.as_slice()) {
        return Err(Stop::Over(limit, tokens));
    }
    let (more, rest) = comma_or(Mark::CloseParen, &[], rest)?;
    Ok((Some(named(alloc, pos, text)?), more, rest))
}

// The parameters from one whose type is read, to the `)`.
fn behind_type<'t>(
    alloc: Global,
    of: ParameterType,
    tokens: &'t [Token],
) -> Result<(Listed<Parameter>, &'t [Token]), Stop<'t>>
    ensures reads { Reading (Behind_type of 0) (λ x. (x.0, x.1.now)) tokens.now result }
    ensures shorter { IfOk result (λ x. length x.1.now < length tokens.now) }
{
    let mut all = Vec::new(alloc);
    let mut of = of;
    let mut before = 0;
    let mut rest = tokens;
    'parameters: loop {
        let (name, more, after) = parameter_name(alloc, before, rest)?;
        all.push(Parameter { of, name })?;
        before += 1;
        if !more {
            return Ok((Listed::from_vec(all), after));
        }
        (of, rest) = parameter_type(alloc, after)?;
    }
}

// The parameters behind a `(`, to the `)`.
fn parameters<'t>(
    alloc: Global,
    tokens: &'t [Token],
) -> Result<(Listed<Parameter>, &'t [Token]), Stop<'t>>
    ensures reads { Reading Parameters (λ x. (x.0, x.1.now)) tokens.now result }
    ensures shorter { IfOk result (λ x. length x.1.now < length tokens.now) }
{
    if let Some((_, rest)) = mark(Mark::CloseParen, tokens) {
        return Ok((Listed::from_vec(Vec::new(alloc)), rest));
    }
    let Some((_, rest)) = word(b"void", tokens) else {
        let (of, rest) = valued(alloc, tokens)?;
        return behind_type(alloc, of, rest);
    };
    if let Some((_, rest)) = mark(Mark::Star, rest) {
        return behind_type(alloc, ParameterType::Pointer, rest);
    }
    let Some((_, rest)) = mark(Mark::CloseParen, rest) else {
        return Err(Stop::At(rest));
    };
    Ok((Listed::from_vec(Vec::new(alloc)), rest))
}

// A `;` or a body.
fn body<'t>(
    alloc: Global,
    totals: Totals,
    tokens: &'t [Token],
) -> Result<(Option<Body>, Totals, &'t [Token]), Stop<'t>>
    requires { AreWithin totals }
    ensures reads { Reading (Body_of (totals_of totals)) (λ x. (record { what = x.0; totals = totals_of x.1 }, x.2.now)) tokens.now result }
    ensures shorter { IfOk result (λ x. length x.2.now < length tokens.now) }
    ensures within { IfOk result (λ x. AreWithin x.1) }
{
    if let Some((_, rest)) = mark(Mark::Semicolon, tokens) {
        return Ok((None, totals, rest));
    }
    let Some((_, rest)) = mark(Mark::OpenBrace, tokens) else {
        return Err(Stop::At(tokens));
    };
    let count = next(Counted::Functions, totals.functions);
    if let Some(limit) = exceeded(&[count], None) {
        return Err(Stop::Over(limit, tokens));
    }
    let (pos, statements, items, rest) = statements(alloc, false, 1, true, totals.items, rest)?;
    let items = items + 1;
    let id = ItemId(items);
    let close = ItemAt { id, pos };
    let totals = one_more_function(totals, items);
    Ok((Some(Body { statements, close }), totals, rest))
}

/// A function behind its `(`.
pub(crate) fn behind_paren<'t>(
    alloc: Global,
    of: ResultType,
    name: Name,
    totals: Totals,
    tokens: &'t [Token],
) -> Result<(Function, Totals, &'t [Token]), Stop<'t>>
    requires { AreWithin totals }
    ensures reads { Reading (Behind_paren of name (totals_of totals)) (λ x. (record { what = x.0; totals = totals_of x.1 }, x.2.now)) tokens.now result }
    ensures shorter { IfOk result (λ x. length x.2.now < length tokens.now) }
    ensures within { IfOk result (λ x. AreWithin x.1) }
{
    let (parameters, rest) = parameters(alloc, tokens)?;
    let (body, totals, rest) = body(alloc, totals, rest)?;
    let function = Function {
        result: of,
        name,
        parameters,
        body,
    };
    Ok((function, totals, rest))
}

/// A function behind its result.
pub(crate) fn function<'t>(
    alloc: Global,
    of: ResultType,
    totals: Totals,
    tokens: &'t [Token],
) -> Result<(Function, Totals, &'t [Token]), Stop<'t>>
    requires { AreWithin totals }
    ensures reads { Reading (Function_of of (totals_of totals)) (λ x. (record { what = x.0; totals = totals_of x.1 }, x.2.now)) tokens.now result }
    ensures shorter { IfOk result (λ x. length x.2.now < length tokens.now) }
    ensures within { IfOk result (λ x. AreWithin x.1) }
{
    let (name, rest) = wanted_name(alloc, &[], tokens)?;
    let Some((_, rest)) = mark(Mark::OpenParen, rest) else {
        return Err(Stop::At(rest));
    };
    behind_paren(alloc, of, name, totals, rest)
}
