//! Readers of declarations and of a program.

ghost use Rattle.std.specs.Prelude.{◌≡◌, ◌<◌, ◌≤◌, length, IfOk, IfSome, MatchOption};
ghost use Rattle.ca_tree.specs.declared.tree.ResultType.TheVariants.{Value};
ghost use Rattle.ca_tree.specs.Counts.{nothing_yet as nothing_of};
ghost use Rattle.ca_grammar.specs.Declarations.{stars_missing};
ghost use Rattle.ca_grammar.specs.Goals.{Behind_base, Behind_void, Qualified, Behind_tag, A_top, Tops, A_program};
ghost use Rattle.ca_expressions.specs.Reading.{Reading};
ghost use Rattle.ca_read.specs.Declaring.{totals_of, AreWithin, Declares, Qualifies};

use crate::functions::{behind_paren, function};
use crate::globals::{globals, mutexes, threads};
use crate::structs::fields;
use crate::totals::{Totals, next, nothing_yet, one_more_struct, stars_and_name};
use ca_expressions::limits::exceeded;
use ca_expressions::names::wanted_name;
use ca_expressions::steps::{end, mark, word};
use ca_expressions::stop::Stop;
use ca_grammar::Counted;
use ca_tree::tree::{Base, Globals, Name, Program, ResultType, Struct, Top, Type};
use ca_tree::{Listed, Mark, Token};
use std::alloc::Global;

// How many stars a function's result lacks.
fn missing(base: &Base, stars: usize) -> u32
    ensures { result ≡ stars_missing (Value (record { base = base.now; stars = stars })) }
{
    match base {
        Base::Struct(_) if stars == 0 => 1,
        _ => 0,
    }
}

// Behind the base of a global or a function.
fn behind_base<'t>(
    alloc: Global,
    base: Base,
    totals: Totals,
    tokens: &'t [Token],
) -> Result<(Top, Totals, &'t [Token]), Stop<'t>>
    requires { AreWithin totals }
    ensures reads { Reading (Behind_base base (totals_of totals)) (λ x. (record { what = x.0; totals = totals_of x.1 }, x.2.now)) tokens.now result }
    ensures shorter { IfOk result (λ x. length x.2.now < length tokens.now) }
    ensures within { IfOk result (λ x. AreWithin x.1) }
{
    let (stars, name, rest) = stars_and_name(alloc, tokens)?;
    let Some((_, after)) = mark(Mark::OpenParen, rest) else {
        let (all, totals, rest) = globals(alloc, stars, name, totals, rest)?;
        return Ok((Top::Globals(Globals::Variables(base, all)), totals, rest));
    };
    if missing(&base, stars) > 0 {
        return Err(Stop::Starless(rest));
    }
    let of = ResultType::Value(Type { base, stars });
    let (function, totals, rest) = behind_paren(alloc, of, name, totals, after)?;
    Ok((Top::Function(function), totals, rest))
}

// Behind `void`.
fn behind_void<'t>(
    alloc: Global,
    totals: Totals,
    tokens: &'t [Token],
) -> Result<(Top, Totals, &'t [Token]), Stop<'t>>
    requires { AreWithin totals }
    ensures reads { Reading (Behind_void (totals_of totals)) (λ x. (record { what = x.0; totals = totals_of x.1 }, x.2.now)) tokens.now result }
    ensures shorter { IfOk result (λ x. length x.2.now < length tokens.now) }
    ensures within { IfOk result (λ x. AreWithin x.1) }
{
    let Some((_, rest)) = mark(Mark::Star, tokens) else {
        let (function, totals, rest) = function(alloc, ResultType::Void, totals, tokens)?;
        return Ok((Top::Function(function), totals, rest));
    };
    let (function, totals, rest) = function(alloc, ResultType::Pointer, totals, rest)?;
    Ok((Top::Function(function), totals, rest))
}

// A declaration of globals or a function, if the first word is `pthread_mutex_t`, `pthread_t`, `void` or `int`.
fn declaration<'t>(
    alloc: Global,
    totals: Totals,
    tokens: &'t [Token],
) -> Result<Option<(Top, Totals, &'t [Token])>, Stop<'t>>
    requires { AreWithin totals }
    ensures reads { Declares (totals_of totals) tokens.now result }
    ensures shorter { IfOk result (λ x. IfSome x (λ y. length y.2.now < length tokens.now)) }
    ensures within { IfOk result (λ x. IfSome x (λ y. AreWithin y.1)) }
{
    if let Some((_, rest)) = word(b"pthread_mutex_t", tokens) {
        let (all, totals, rest) = mutexes(alloc, totals, rest)?;
        let top = Top::Globals(Globals::Mutexes(all));
        return Ok(Some((top, totals, rest)));
    }
    if let Some((_, rest)) = word(b"pthread_t", tokens) {
        let (all, totals, rest) = threads(alloc, totals, rest)?;
        let top = Top::Globals(Globals::Threads(all));
        return Ok(Some((top, totals, rest)));
    }
    if let Some((_, rest)) = word(b"void", tokens) {
        return Ok(Some(behind_void(alloc, totals, rest)?));
    }
    let Some((_, rest)) = word(b"int", tokens) else {
        return Ok(None);
    };
    Ok(Some(behind_base(alloc, Base::Int, totals, rest)?))
}

// The tokens behind a `static` or a `volatile`.
fn qualifier(tokens: &[Token]) -> Option<&[Token]>
    ensures reads { Qualifies tokens.now result }
    ensures shorter { IfSome result (λ us. length us.now < length tokens.now) }
{
    if let Some((_, rest)) = word(b"static", tokens) {
        return Some(rest);
    }
    let (_, rest) = word(b"volatile", tokens)?;
    Some(rest)
}

// Behind a `static` or a `volatile`.
fn qualified<'t>(
    alloc: Global,
    totals: Totals,
    tokens: &'t [Token],
) -> Result<(Top, Totals, &'t [Token]), Stop<'t>>
    requires { AreWithin totals }
    ensures reads { Reading (Qualified (totals_of totals)) (λ x. (record { what = x.0; totals = totals_of x.1 }, x.2.now)) tokens.now result }
    ensures shorter { IfOk result (λ x. length x.2.now < length tokens.now) }
    ensures within { IfOk result (λ x. AreWithin x.1) }
{
    let mut rest = tokens;
    'qualifiers: while let Some(after) = qualifier(rest) {
        rest = after;
    }
    if let Some(found) = declaration(alloc, totals, rest)? {
        return Ok(found);
    }
    let Some((_, rest)) = word(b"struct", rest) else {
        return Err(Stop::At(rest));
    };
    let (name, rest) = wanted_name(alloc, &[], rest)?;
    behind_base(alloc, Base::Struct(name), totals, rest)
}

// Behind the tag of a struct.
fn behind_tag<'t>(
    alloc: Global,
    name: Name,
    totals: Totals,
    tokens: &'t [Token],
) -> Result<(Top, Totals, &'t [Token]), Stop<'t>>
    requires { AreWithin totals }
    ensures reads { Reading (Behind_tag name (totals_of totals)) (λ x. (record { what = x.0; totals = totals_of x.1 }, x.2.now)) tokens.now result }
    ensures shorter { IfOk result (λ x. length x.2.now < length tokens.now) }
    ensures within { IfOk result (λ x. AreWithin x.1) }
{
    let Some((_, rest)) = mark(Mark::OpenBrace, tokens) else {
        return behind_base(alloc, Base::Struct(name), totals, tokens);
    };
    let count = next(Counted::Structs, totals.structs);
    if let Some(limit) = exceeded(&[count], None) {
        return Err(Stop::Over(limit, tokens));
    }
    let (fields, rest) = fields(alloc, rest)?;
    let Some((_, rest)) = mark(Mark::Semicolon, rest) else {
        return Err(Stop::At(rest));
    };
    let top = Top::Struct(Struct { name, fields });
    Ok((top, one_more_struct(totals), rest))
}

// A declaration, if one is there.
fn top<'t>(
    alloc: Global,
    totals: Totals,
    tokens: &'t [Token],
) -> Result<(Option<Top>, Totals, &'t [Token]), Stop<'t>>
    requires { AreWithin totals }
    ensures reads { Reading (A_top (totals_of totals)) (λ x. (record { what = x.0; totals = totals_of x.1 }, x.2.now)) tokens.now result }
    ensures shorter { IfOk result (λ x. MatchOption x.0 (length x.2.now ≤ length tokens.now) (λ _. length x.2.now < length tokens.now)) }
    ensures within { IfOk result (λ x. AreWithin x.1) }
{
    if let Some(rest) = qualifier(tokens) {
        let (top, totals, rest) = qualified(alloc, totals, rest)?;
        return Ok((Some(top), totals, rest));
    }
    if let Some((top, totals, rest)) = declaration(alloc, totals, tokens)? {
        return Ok((Some(top), totals, rest));
    }
    let Some((_, rest)) = word(b"struct", tokens) else {
        return Ok((None, totals, tokens));
    };
    let (name, rest) = wanted_name(alloc, &[], rest)?;
    let (top, totals, rest) = behind_tag(alloc, name, totals, rest)?;
    Ok((Some(top), totals, rest))
}

fn tops<'t>(
    alloc: Global,
    tokens: &'t [Token],
) -> Result<(Listed<Top>, Totals, &'t [Token]), Stop<'t>>
    ensures reads { Reading (Tops nothing_of) (λ x. (record { what = x.0; totals = totals_of x.1 }, x.2.now)) tokens.now result }
    ensures shorter { IfOk result (λ x. length x.2.now ≤ length tokens.now) }
{
    let mut all = Vec::new(alloc);
    let mut totals = nothing_yet();
    let mut rest = tokens;
    'tops: loop {
        let (next, behind, after) = top(alloc, totals, rest)?;
        let Some(next) = next else {
            return Ok((Listed::from_vec(all), behind, after));
        };
        all.push(next)?;
        totals = behind;
        rest = after;
    }
}

/// A program, with the end behind it.
pub(crate) fn program<'t>(
    alloc: Global,
    tokens: &'t [Token],
) -> Result<(Program, &'t [Token]), Stop<'t>>
    ensures { Reading A_program (λ x. (x.0, x.1.now)) tokens.now result }
{
    let (tops, _, rest) = tops(alloc, tokens)?;
    let Some((_, rest)) = end(rest) else {
        return Err(Stop::At(rest));
    };
    Ok((Program { tops }, rest))
}
