//! Readers of simple statements.

ghost use Rattle.std.specs.Prelude.{◌≡◌, ◌<◌, List, length, IfOk};
ghost use Rattle.ca_grammar.specs.declared.faults.Count.{Count};
ghost use Rattle.ca_grammar.specs.Phrases.{one as one_of};
ghost use Rattle.ca_grammar.specs.Goals.{Behind_target, Simple_at};
ghost use Rattle.ca_grammar.specs.PhrasePlans.{on_target_or_call};
ghost use Rattle.ca_expressions.specs.Reading.{Reading, Following};
ghost use Rattle.ca_phrases.specs.Phrases.{on_named};

use crate::calls::{arguments, right};
use crate::library::{library, library_word};
use ca_expressions::expressions::{behind_primary, expression, leaf, nameless_unary, unary};
use ca_expressions::limits::{exceeded, exceeded_by_name};
use ca_expressions::names::named;
use ca_expressions::steps::{mark, name_of_the_source, step_operator, update_operator};
use ca_expressions::stop::Stop;
use ca_grammar::{Count, Operand};
use ca_tree::tree::{Call, Exp, Name, Simple};
use ca_tree::{Mark, Pos, Token};
use std::alloc::Global;

// The 1 that `++` and `--` add and take away.
fn one(pos: Pos) -> Exp
    ensures { result ≡ one_of pos }
{
    Exp::Number(pos, 1)
}

/// An assignment, behind its target.
pub fn behind_target<'t>(
    alloc: Global,
    target: Operand,
    tokens: &'t [Token],
) -> Result<(Simple, &'t [Token]), Stop<'t>>
    ensures reads { Reading (Behind_target target) (λ x. (x.0, x.1.now)) tokens.now result }
    ensures shorter { IfOk result (λ x. length x.1.now < length tokens.now) }
{
    if let Some((_, rest)) = mark(Mark::Assign, tokens) {
        let (value, rest) = right(alloc, rest)?;
        return Ok((Simple::Set(target.exp, value), rest));
    }
    if let Some((_, operator, rest)) = update_operator(tokens) {
        let (value, rest) = expression(alloc, &[], rest)?;
        return Ok((Simple::Update(target.exp, operator, value.exp), rest));
    }
    let Some((pos, operator, rest)) = step_operator(tokens) else {
        return Err(Stop::At(tokens));
    };
    Ok((Simple::Update(target.exp, operator, one(pos)), rest))
}

// A call or an assignment, behind the name that it begins with.
fn behind_name<'t>(
    alloc: Global,
    name: Name,
    tokens: &'t [Token],
) -> Result<(Simple, &'t [Token]), Stop<'t>>
    ensures reads { (cs : List Count) → Following (Simple_at cs) (on_named cs name) (λ x. (record { pos = name.pos; what = x.0 }, x.1.now)) tokens.now result }
    ensures shorter { IfOk result (λ x. length x.1.now < length tokens.now) }
{
    if let Some((_, rest)) = mark(Mark::OpenParen, tokens) {
        let (arguments, rest) = arguments(alloc, rest)?;
        return Ok((Simple::Call(Call { name, arguments }), rest));
    }
    let pos = name.pos;
    let (target, rest) = behind_primary(alloc, 0, leaf(pos, Exp::Name(name)), tokens)?;
    behind_target(alloc, target, rest)
}

// A simple statement that is no call of the library.
fn of_the_source<'t>(
    alloc: Global,
    counts: &[Count],
    tokens: &'t [Token],
) -> Result<(Pos, Simple, &'t [Token]), Stop<'t>>
    ensures reads { Following (Simple_at counts.now) (on_target_or_call counts.now) (λ x. (record { pos = x.0; what = x.1 }, x.2.now)) tokens.now result }
    ensures shorter { IfOk result (λ x. length x.2.now < length tokens.now) }
{
    if let Some((pos, operator, rest)) = step_operator(tokens) {
        if let Some(limit) = exceeded(counts, None) {
            return Err(Stop::Over(limit, tokens));
        }
        let (target, rest) = unary(alloc, &[], rest)?;
        return Ok((pos, Simple::Update(target.exp, operator, one(pos)), rest));
    }
    if let Some((pos, text, rest)) = name_of_the_source(tokens) {
        if let Some(limit) = exceeded_by_name(counts, text.as_slice()) {
            return Err(Stop::Over(limit, tokens));
        }
        let (statement, rest) = behind_name(alloc, named(alloc, pos, text)?, rest)?;
        return Ok((pos, statement, rest));
    }
    let (target, rest) = nameless_unary(alloc, counts, tokens)?;
    let pos = target.start;
    let (statement, rest) = behind_target(alloc, target, rest)?;
    Ok((pos, statement, rest))
}

/// A simple statement, and where it begins.
pub fn simple<'t>(
    alloc: Global,
    counts: &[Count],
    tokens: &'t [Token],
) -> Result<(Pos, Simple, &'t [Token]), Stop<'t>>
    ensures reads { Reading (Simple_at counts.now) (λ x. (record { pos = x.0; what = x.1 }, x.2.now)) tokens.now result }
    ensures shorter { IfOk result (λ x. length x.2.now < length tokens.now) }
{
    let Some((word, pos, rest)) = library_word(tokens) else {
        return of_the_source(alloc, counts, tokens);
    };
    if let Some(limit) = exceeded(counts, None) {
        return Err(Stop::Over(limit, tokens));
    }
    let (call, rest) = library(alloc, word, rest)?;
    Ok((pos, Simple::Library(call), rest))
}
