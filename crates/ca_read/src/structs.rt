//! Readers of the fields of structs.

ghost use Rattle.std.specs.Prelude.{◌≡◌, ◌<◌, ◌≤◌, ◌+◌, length, IfOk};
ghost use Rattle.ca_grammar.specs.Goals.{Field_declarators, A_field};
ghost use Rattle.ca_expressions.specs.Reading.{Reading};

use crate::totals::{comma_or, next};
use ca_expressions::steps::mark;
use ca_expressions::stop::Stop;
use ca_grammar::Counted;
use ca_phrases::types::{base, starred_name};
use ca_tree::tree::{Base, Declarator, Fields};
use ca_tree::{Listed, Mark, Token};
use std::alloc::Global;

// The fields of one base, behind so many others.
fn declarators<'t>(
    alloc: Global,
    base: &Base,
    before: u32,
    tokens: &'t [Token],
) -> Result<(Listed<Declarator>, u32, &'t [Token]), Stop<'t>>
    requires { before ≤ 64 }
    ensures reads { Reading (Field_declarators base.now before) (λ x. (x.0, x.2.now)) tokens.now result }
    ensures shorter { IfOk result (λ x. length x.2.now < length tokens.now) }
    ensures count { IfOk result (λ x. x.1 ≡ before + length x.0) }
    ensures room { IfOk result (λ x. x.1 ≤ 64) }
{
    let mut all = Vec::new(alloc);
    let mut before = before;
    let mut rest = tokens;
    'declarators: loop {
        let (starred, after) = starred_name(
            alloc,
            &[],
            &[next(Counted::Fields, before)],
            base,
            rest,
        )?;
        let stars = starred.stars;
        let name = starred.name;
        all.push(Declarator { stars, name })?;
        before += 1;
        let (more, after) = comma_or(Mark::Semicolon, &[], after)?;
        rest = after;
        if !more {
            return Ok((Listed::from_vec(all), before, rest));
        }
    }
}

/// The fields of a struct, to its `}`.
pub(crate) fn fields<'t>(
    alloc: Global,
    tokens: &'t [Token],
) -> Result<(Listed<Fields>, &'t [Token]), Stop<'t>>
    ensures reads { Reading (A_field 0) (λ x. (x.0, x.1.now)) tokens.now result }
    ensures shorter { IfOk result (λ x. length x.1.now < length tokens.now) }
{
    let mut all = Vec::new(alloc);
    let mut before = 0;
    let mut rest = tokens;
    'fields: loop {
        let (_, base, after) = base(alloc, &[], rest)?;
        let (declarators, count, after) = declarators(alloc, &base, before, after)?;
        all.push(Fields { base, declarators })?;
        before = count;
        rest = after;
        if let Some((_, after)) = mark(Mark::CloseBrace, rest) {
            return Ok((Listed::from_vec(all), after));
        }
    }
}
