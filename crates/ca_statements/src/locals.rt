//! Readers of locals' declarations.

ghost use Rattle.std.specs.Prelude.{◌≡◌, ◌<◌, ◌≤◌, suc, None, codes, length, IfOk, IfSome, MatchOption};
ghost use Rattle.ca_tree.specs.declared.text.Pos.{Pos};
ghost use Rattle.ca_tree.specs.declared.counted.Counted.TheVariants.{Items, Nesting};
ghost use Rattle.ca_tree.specs.StatementTrees.{item as item_of};
ghost use Rattle.ca_grammar.specs.Words.{The_word, Takes, Lacks};
ghost use Rattle.ca_grammar.specs.Goals.{First_declarator, Threads_at, Variables_at, Local_at};
ghost use Rattle.ca_grammar.specs.Plan.{counted, and_name};
ghost use Rattle.ca_grammar.specs.StatementPlans.{an_item, nested_item};
ghost use Rattle.ca_expressions.specs.Reading.{Reading, IsExceeded};
ghost use Rattle.ca_statements.specs.StatementReading.{NextDeclarator, NextThread, LocalsBehind, Declaration, LacksLocals, SkipsVolatiles, word_of};

use ca_expressions::limits::exceeded;
use ca_expressions::names::wanted_name;
use ca_expressions::steps::{mark, word};
use ca_expressions::stop::Stop;
use ca_grammar::{Count, Counted};
use ca_phrases::calls::initializer;
use ca_phrases::types::starred_name;
use ca_tree::tree::{Base, ItemAt, LocalDeclarator, Locals, Name, ThreadLocal};
use ca_tree::{ItemId, Listed, Mark, Pos, Token};
use std::alloc::Global;

/// The next item, at a place.
pub fn item(items: u32, pos: Pos) -> ItemAt
    requires { items < 65536 }
    ensures { result ≡ item_of (suc items) pos }
{
    ItemAt {
        id: ItemId(items + 1),
        pos,
    }
}

/// The count of the next item.
pub fn next_item(items: u32) -> Count
    requires { items ≤ 65536 }
    ensures { result ≡ counted Items (suc items) }
{
    Count {
        of: Counted::Items,
        number: items as usize + 1,
    }
}

/// The count of a statement that is so deep.
pub fn nesting(depth: u32) -> Count
    ensures { result ≡ counted Nesting depth }
{
    Count {
        of: Counted::Nesting,
        number: depth as usize,
    }
}

/// The limit that the next item exceeds.
pub fn over_item(items: u32) -> Option<Counted>
    requires { items ≤ 65536 }
    ensures exceeded { IsExceeded (an_item items) None result }
    ensures room { MatchOption result (items < 65536) (λ c. items ≤ 65536) }
{
    exceeded(&[next_item(items)], None)
}

/// The limit that a statement exceeds which is the next item.
pub fn over_nested_item(items: u32, depth: u32) -> Option<Counted>
    requires { items ≤ 65536 }
    ensures exceeded { IsExceeded (nested_item items depth) None result }
    ensures room { MatchOption result (items < 65536) (λ c. items ≤ 65536) }
{
    exceeded(&[next_item(items), nesting(depth)], None)
}

/// A local that is no `pthread_t`, behind its base.
pub fn first_declarator<'t>(
    alloc: Global,
    base: &Base,
    pos: Pos,
    items: u32,
    tokens: &'t [Token],
) -> Result<(LocalDeclarator, &'t [Token]), Stop<'t>>
    requires { items < 65536 }
    ensures reads { Reading (First_declarator base.now pos items) (λ x. (x.0, x.1.now)) tokens.now result }
    ensures shorter { IfOk result (λ x. length x.1.now < length tokens.now) }
{
    let (starred, rest) = starred_name(alloc, &[], &[], base, tokens)?;
    let (value, rest) = initializer(alloc, rest)?;
    let local = LocalDeclarator {
        item: item(items, pos),
        stars: starred.stars,
        name: starred.name,
        value,
    };
    Ok((local, rest))
}

// A further one, behind the comma.
fn next_declarator<'t>(
    alloc: Global,
    base: &Base,
    items: u32,
    tokens: &'t [Token],
) -> Result<(LocalDeclarator, &'t [Token]), Stop<'t>>
    requires { items ≤ 65536 }
    ensures reads { NextDeclarator base.now items tokens.now result }
    ensures room { IfOk result (λ x. items < 65536) }
    ensures shorter { IfOk result (λ x. length x.1.now < length tokens.now) }
{
    let (starred, rest) = starred_name(alloc, &[next_item(items)], &[], base, tokens)?;
    let (value, rest) = initializer(alloc, rest)?;
    let local = LocalDeclarator {
        item: item(items, starred.pos),
        stars: starred.stars,
        name: starred.name,
        value,
    };
    Ok((local, rest))
}

fn variables<'t>(
    alloc: Global,
    base: Base,
    pos: Pos,
    items: u32,
    tokens: &'t [Token],
) -> Result<(Locals, u32, &'t [Token]), Stop<'t>>
    requires { items < 65536 }
    ensures reads { Reading (Variables_at base pos items) (λ x. (record { what = x.0; items = x.1 }, x.2.now)) tokens.now result }
    ensures room { IfOk result (λ x. x.1 ≤ 65536) }
    ensures shorter { IfOk result (λ x. length x.2.now < length tokens.now) }
{
    let (first, mut rest) = first_declarator(alloc, &base, pos, items, tokens)?;
    let mut all = Vec::new(alloc);
    all.push(first)?;
    let mut number = items + 1;
    'declarators: while let Some((_, after)) = mark(Mark::Comma, rest) {
        let (next, after) = next_declarator(alloc, &base, number, after)?;
        all.push(next)?;
        number += 1;
        rest = after;
    }
    Ok((Locals::Variables(base, Listed::from_vec(all)), number, rest))
}

// A further `pthread_t`, behind the comma.
fn next_thread<'t>(
    alloc: Global,
    items: u32,
    tokens: &'t [Token],
) -> Result<(ThreadLocal, &'t [Token]), Stop<'t>>
    requires { items ≤ 65536 }
    ensures reads { NextThread items tokens.now result }
    ensures room { IfOk result (λ x. items < 65536) }
    ensures shorter { IfOk result (λ x. length x.1.now < length tokens.now) }
{
    let (name, rest) = wanted_name(alloc, &[next_item(items)], tokens)?;
    let thread = ThreadLocal {
        item: item(items, name.pos),
        name,
    };
    Ok((thread, rest))
}

fn threads<'t>(
    alloc: Global,
    pos: Pos,
    items: u32,
    tokens: &'t [Token],
) -> Result<(Locals, u32, &'t [Token]), Stop<'t>>
    requires { items < 65536 }
    ensures reads { Reading (Threads_at pos items) (λ x. (record { what = x.0; items = x.1 }, x.2.now)) tokens.now result }
    ensures room { IfOk result (λ x. x.1 ≤ 65536) }
    ensures shorter { IfOk result (λ x. length x.2.now < length tokens.now) }
{
    let (name, mut rest) = wanted_name(alloc, &[], tokens)?;
    let mut all = Vec::new(alloc);
    all.push(ThreadLocal {
        item: item(items, pos),
        name,
    })?;
    let mut number = items + 1;
    'threads: while let Some((_, after)) = mark(Mark::Comma, rest) {
        let (next, after) = next_thread(alloc, number, after)?;
        all.push(next)?;
        number += 1;
        rest = after;
    }
    Ok((Locals::Threads(Listed::from_vec(all)), number, rest))
}

fn skip_volatiles(tokens: &[Token]) -> &[Token]
    ensures reads { SkipsVolatiles tokens.now result.now }
    ensures none { Lacks (The_word (codes "volatile")) result.now }
    ensures shorter { length result.now ≤ length tokens.now }
{
    let mut rest = tokens;
    'volatiles: while let Some((_, after)) = word(b"volatile", rest) {
        rest = after;
    }
    rest
}

// Behind the first word `volatile`.
fn volatile_locals<'t>(
    alloc: Global,
    pos: Pos,
    items: u32,
    tokens: &'t [Token],
) -> Result<(Locals, u32, &'t [Token]), Stop<'t>>
    requires { items < 65536 }
    ensures reads { Reading (Local_at pos items) (λ x. (record { what = x.0; items = x.1 }, x.2.now)) tokens.now result }
    ensures room { IfOk result (λ x. x.1 ≤ 65536) }
    ensures shorter { IfOk result (λ x. length x.2.now < length tokens.now) }
{
    let start = skip_volatiles(tokens);
    if let Some((_, rest)) = word(b"pthread_t", start) {
        return threads(alloc, pos, items, rest);
    }
    if let Some((_, rest)) = word(b"int", start) {
        return variables(alloc, Base::Int, pos, items, rest);
    }
    let Some((_, rest)) = word(b"struct", start) else {
        return Err(Stop::At(start));
    };
    let (tag, rest) = wanted_name(alloc, &[], rest)?;
    variables(alloc, Base::Struct(tag), pos, items, rest)
}

// What a declaration of locals begins with.
#[derive(Clone, Copy, Debug, PartialEq, Eq)]
enum LocalsWord {
    Volatile,
    Threads,
    Int,
    Struct,
}

fn locals_word(tokens: &[Token]) -> Option<(LocalsWord, Pos, &[Token])>
    ensures { MatchOption result (LacksLocals tokens.now) (λ x. Takes (The_word (word_of x.0)) tokens.now x.1 tt x.2.now) }
{
    if let Some((pos, rest)) = word(b"volatile", tokens) {
        return Some((LocalsWord::Volatile, pos, rest));
    }
    if let Some((pos, rest)) = word(b"pthread_t", tokens) {
        return Some((LocalsWord::Threads, pos, rest));
    }
    if let Some((pos, rest)) = word(b"int", tokens) {
        return Some((LocalsWord::Int, pos, rest));
    }
    let (pos, rest) = word(b"struct", tokens)?;
    Some((LocalsWord::Struct, pos, rest))
}

fn locals_behind<'t>(
    alloc: Global,
    word: LocalsWord,
    pos: Pos,
    items: u32,
    tokens: &'t [Token],
) -> Result<(Locals, u32, &'t [Token]), Stop<'t>>
    requires { items < 65536 }
    ensures reads { LocalsBehind word pos items tokens.now result }
    ensures room { IfOk result (λ x. x.1 ≤ 65536) }
    ensures shorter { IfOk result (λ x. length x.2.now < length tokens.now) }
{
    match word {
        LocalsWord::Volatile => volatile_locals(alloc, pos, items, tokens),
        LocalsWord::Threads => threads(alloc, pos, items, tokens),
        LocalsWord::Int => variables(alloc, Base::Int, pos, items, tokens),
        LocalsWord::Struct => {
            let (tag, rest) = wanted_name(alloc, &[], tokens)?;
            variables(alloc, Base::Struct(tag), pos, items, rest)
        }
    }
}

/// A declaration of locals in a block, with its `;`, if one begins here.
pub fn declaration<'t>(
    alloc: Global,
    depth: u32,
    items: u32,
    tokens: &'t [Token],
) -> Result<Option<(Locals, u32, &'t [Token])>, Stop<'t>>
    requires { items ≤ 65536 }
    ensures reads { Declaration depth items tokens.now result }
    ensures room { IfOk result (λ x. IfSome x (λ y. y.1 ≤ 65536)) }
    ensures shorter { IfOk result (λ x. IfSome x (λ y. length y.2.now < length tokens.now)) }
{
    let Some((word, pos, rest)) = locals_word(tokens) else {
        return Ok(None);
    };
    if let Some(limit) = over_nested_item(items, depth) {
        return Err(Stop::Over(limit, tokens));
    }
    let (locals, number, rest) = locals_behind(alloc, word, pos, items, rest)?;
    let Some((_, rest)) = mark(Mark::Semicolon, rest) else {
        return Err(Stop::At(rest));
    };
    Ok(Some((locals, number, rest)))
}
