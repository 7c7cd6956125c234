//! Readers of the declarations of globals.

ghost use Rattle.std.specs.Prelude.{◌≡◌, ◌<◌, ◌≤◌, ◌≤ℤ◌, pos, ℕ, neg_ℤ, [], length, IfOk, IfSome, None};
ghost use Rattle.ca_tree.specs.declared.tree.Base.{Base};
ghost use Rattle.ca_tree.specs.declared.tree.Name.{Name};
ghost use Rattle.ca_grammar.specs.DeclarationPlans.{a_global};
ghost use Rattle.ca_grammar.specs.Goals.{Mutexes, Threads, A_constant, Behind_global};
ghost use Rattle.ca_expressions.specs.Reading.{Reading, IsExceeded};
ghost use Rattle.ca_read.specs.Declaring.{totals_of, AreWithin, Initializes, AMutex, Sizes, AThread, AForm};

use crate::totals::{Totals, comma_or, next, one_more_global, one_more_mutex, stars_and_name};
use ca_expressions::limits::exceeded;
use ca_expressions::names::wanted_name;
use ca_expressions::steps::{mark, number, word};
use ca_expressions::stop::Stop;
use ca_grammar::{Count, Counted};
use ca_tree::tree::{
    Constant, GlobalDeclarator, GlobalForm, MutexDeclarator, Name, ThreadDeclarator,
};
use ca_tree::{Listed, Mark, Token};
use std::alloc::Global;

// Behind the name of a mutex: whether it has its initializer.
fn initializer<'t>(tokens: &'t [Token]) -> Result<(bool, &'t [Token]), Stop<'t>>
    ensures reads { Initializes tokens.now result }
    ensures shorter { IfOk result (λ x. length x.1.now ≤ length tokens.now) }
{
    let Some((_, rest)) = mark(Mark::Assign, tokens) else {
        return Ok((false, tokens));
    };
    let Some((_, rest)) = word(b"PTHREAD_MUTEX_INITIALIZER", rest) else {
        return Err(Stop::At(rest));
    };
    Ok((true, rest))
}

// A mutex, and whether more of them follow.
fn mutex<'t>(
    alloc: Global,
    totals: Totals,
    tokens: &'t [Token],
) -> Result<(MutexDeclarator, bool, &'t [Token]), Stop<'t>>
    requires { AreWithin totals }
    ensures reads { AMutex (totals_of totals) tokens.now result }
    ensures shorter { IfOk result (λ x. length x.2.now < length tokens.now) }
    ensures room { IfOk result (λ x. totals.mutexes < 64) }
{
    let count = next(Counted::Mutexes, totals.mutexes);
    let (name, rest) = wanted_name(alloc, &[count], tokens)?;
    let (has_initializer, rest) = initializer(rest)?;
    let (more, rest) = comma_or(Mark::Semicolon, &[], rest)?;
    let declarator = MutexDeclarator {
        name,
        has_initializer,
    };
    Ok((declarator, more, rest))
}

/// The mutexes behind `pthread_mutex_t`, to the `;`.
pub(crate) fn mutexes<'t>(
    alloc: Global,
    totals: Totals,
    tokens: &'t [Token],
) -> Result<(Listed<MutexDeclarator>, Totals, &'t [Token]), Stop<'t>>
    requires { AreWithin totals }
    ensures reads { Reading (Mutexes (totals_of totals)) (λ x. (record { what = x.0; totals = totals_of x.1 }, x.2.now)) tokens.now result }
    ensures shorter { IfOk result (λ x. length x.2.now < length tokens.now) }
    ensures within { IfOk result (λ x. AreWithin x.1) }
{
    let mut all = Vec::new(alloc);
    let mut totals = totals;
    let mut rest = tokens;
    'declarators: loop {
        let (declarator, more, after) = mutex(alloc, totals, rest)?;
        totals = one_more_mutex(totals);
        all.push(declarator)?;
        rest = after;
        if !more {
            return Ok((Listed::from_vec(all), totals, rest));
        }
    }
}

// A length in brackets, if one is there, and what is counted at the token behind it.
fn array_length<'c, 't>(
    counts: &'c [Count],
    tokens: &'t [Token],
) -> Result<(Option<i32>, &'c [Count], &'t [Token]), Stop<'t>>
    ensures reads { Sizes counts.now tokens.now result }
    ensures shorter { IfOk result (λ x. length x.2.now ≤ length tokens.now) }
    ensures kept { IfOk result (λ x. IsExceeded x.1.now None None → IsExceeded counts.now None None) }
    ensures counted { IfOk result (λ x. IfSome x.0 (λ _. x.1.now ≡ [])) }
{
    let Some((_, rest)) = mark(Mark::OpenBracket, tokens) else {
        return Ok((None, counts, tokens));
    };
    if let Some(limit) = exceeded(counts, None) {
        return Err(Stop::Over(limit, tokens));
    }
    let Some((_, length, rest)) = number(rest) else {
        return Err(Stop::At(rest));
    };
    let Some((_, rest)) = mark(Mark::CloseBracket, rest) else {
        return Err(Stop::At(rest));
    };
    Ok((Some(length), &[], rest))
}

// A `pthread_t`, and whether more of them follow.
fn thread<'t>(
    alloc: Global,
    totals: Totals,
    tokens: &'t [Token],
) -> Result<(ThreadDeclarator, bool, &'t [Token]), Stop<'t>>
    requires { AreWithin totals }
    ensures reads { AThread (totals_of totals) tokens.now result }
    ensures shorter { IfOk result (λ x. length x.2.now < length tokens.now) }
    ensures room { IfOk result (λ x. totals.globals < 1024) }
{
    let (name, rest) = wanted_name(alloc, &[], tokens)?;
    let count = [next(Counted::Globals, totals.globals)];
    let (length, counts, rest) = array_length(&count, rest)?;
    let (more, rest) = comma_or(Mark::Semicolon, counts, rest)?;
    Ok((ThreadDeclarator { name, length }, more, rest))
}

/// The globals behind `pthread_t`, to the `;`.
pub(crate) fn threads<'t>(
    alloc: Global,
    totals: Totals,
    tokens: &'t [Token],
) -> Result<(Listed<ThreadDeclarator>, Totals, &'t [Token]), Stop<'t>>
    requires { AreWithin totals }
    ensures reads { Reading (Threads (totals_of totals)) (λ x. (record { what = x.0; totals = totals_of x.1 }, x.2.now)) tokens.now result }
    ensures shorter { IfOk result (λ x. length x.2.now < length tokens.now) }
    ensures within { IfOk result (λ x. AreWithin x.1) }
{
    let mut all = Vec::new(alloc);
    let mut totals = totals;
    let mut rest = tokens;
    'declarators: loop {
        let (declarator, more, after) = thread(alloc, totals, rest)?;
        totals = one_more_global(totals);
        all.push(declarator)?;
        rest = after;
        if !more {
            return Ok((Listed::from_vec(all), totals, rest));
        }
    }
}

// The opposite of a number. No text has a token of the least one, whose opposite there is no number for.
fn negated(value: i32) -> i32
    requires { pos 0 ≤ℤ value }
    ensures { result ≡ neg_ℤ value }
{
    -value
}

fn constant<'t>(tokens: &'t [Token]) -> Result<(Constant, &'t [Token]), Stop<'t>>
    ensures reads { Reading A_constant (λ x. (x.0, x.1.now)) tokens.now result }
    ensures shorter { IfOk result (λ x. length x.1.now < length tokens.now) }
{
    if let Some((_, rest)) = mark(Mark::Minus, tokens) {
        let Some((_, value, rest)) = number(rest) else {
            return Err(Stop::At(rest));
        };
        return Ok((Constant::Number(negated(value)), rest));
    }
    if let Some((_, rest)) = word(b"NULL", tokens) {
        return Ok((Constant::Null, rest));
    }
    let Some((_, value, rest)) = number(tokens) else {
        return Err(Stop::At(tokens));
    };
    Ok((Constant::Number(value), rest))
}

// Behind the name of a global: its form, and whether more globals follow.
fn form<'t>(
    totals: Totals,
    tokens: &'t [Token],
) -> Result<(GlobalForm, bool, &'t [Token]), Stop<'t>>
    requires { AreWithin totals }
    ensures reads { (b : Base) (k : ℕ) (n : Name) → AForm b k n (totals_of totals) tokens.now result }
    ensures shorter { IfOk result (λ x. length x.2.now < length tokens.now) }
    ensures room { IfOk result (λ x. totals.globals < 1024) }
{
    let count = [next(Counted::Globals, totals.globals)];
    let (length, counts, rest) = array_length(&count, tokens)?;
    if let Some(length) = length {
        let (more, rest) = comma_or(Mark::Semicolon, counts, rest)?;
        return Ok((GlobalForm::Array(length), more, rest));
    }
    let Some((_, after)) = mark(Mark::Assign, rest) else {
        let (more, rest) = comma_or(Mark::Semicolon, counts, rest)?;
        return Ok((GlobalForm::Plain, more, rest));
    };
    if let Some(limit) = exceeded(counts, None) {
        return Err(Stop::Over(limit, rest));
    }
    let (constant, rest) = constant(after)?;
    let (more, rest) = comma_or(Mark::Semicolon, &[], rest)?;
    Ok((GlobalForm::Constant(constant), more, rest))
}

/// The globals from one whose stars and name are read, to the `;`.
pub(crate) fn globals<'t>(
    alloc: Global,
    stars: usize,
    name: Name,
    totals: Totals,
    tokens: &'t [Token],
) -> Result<(Listed<GlobalDeclarator>, Totals, &'t [Token]), Stop<'t>>
    requires { AreWithin totals }
    ensures reads { (b : Base) → Reading (Behind_global b stars name (totals_of totals)) (λ x. (record { what = x.0; totals = totals_of x.1 }, x.2.now)) tokens.now result }
    ensures shorter { IfOk result (λ x. length x.2.now < length tokens.now) }
    ensures within { IfOk result (λ x. AreWithin x.1) }
{
    let mut all = Vec::new(alloc);
    let (mut stars, mut name) = (stars, name);
    let mut totals = totals;
    let mut rest = tokens;
    'declarators: loop {
        let (form, more, after) = form(totals, rest)?;
        totals = one_more_global(totals);
        all.push(GlobalDeclarator { stars, name, form })?;
        rest = after;
        if !more {
            return Ok((Listed::from_vec(all), totals, rest));
        }
        (stars, name, rest) = stars_and_name(alloc, rest)?;
    }
}
