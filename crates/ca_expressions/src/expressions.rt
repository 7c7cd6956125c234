//! Readers of expressions.

ghost use Rattle.std.specs.Prelude.{◌≡◌, ◌<◌, ◌≤◌, ◌+◌, ℕ, Bool, true, false, length, IfOk, MatchOption};
ghost use Rattle.ca_tree.specs.declared.token.Mark.TheVariants.{OpenBracket, Dot, Arrow, OpenParen};
ghost use Rattle.ca_tree.specs.declared.text.Pos.{Pos};
ghost use Rattle.ca_grammar.specs.Words.{The_mark, Takes, Lacks};
ghost use Rattle.ca_grammar.specs.Expressions.{leaf as leaf_of, parenthesised as parenthesised_of, deeper as deeper_of, unary as unary_of, binary as binary_of, index as index_of, field as field_of, arrow as arrow_of, name as name_of};
ghost use Rattle.ca_grammar.specs.Goals.{Primary, Postfixes, Postfix, Level, Operators, Behind, From, Unary, Nameless_unary, Expression, Whole};
ghost use Rattle.ca_grammar.specs.ExpressionPlans.{one_more};
ghost use Rattle.ca_expressions.specs.Reading.{Reading, IsWithin, Postfixed, mark_of, Beginning};
ghost use Rattle.ca_expressions.specs.Parts.{on_literal, on_inner, on_signed};

use crate::limits::{exceeded, exceeded_by_name};
use crate::names::{named, wanted_name};
use crate::steps::{binary_operator, end, mark, name, number, unary_operator, word};
use crate::stop::Stop;
use ca_grammar::{Count, Operand};
use ca_tree::tree::{BinaryOp, Exp, Name, UnaryOp};
use ca_tree::{Mark, NoMemory, Pos, Token};
use sqlite_items::Boxed;
use std::alloc::Global;

/// A number, `NULL` or a name.
pub fn leaf(start: Pos, exp: Exp) -> Operand
    ensures { result ≡ leaf_of start exp }
{
    Operand {
        exp,
        pos: start,
        start,
        depth: 1,
        in_parentheses: false,
    }
}

fn parenthesised(start: Pos, inner: Operand) -> Operand
    requires { inner.depth ≤ 64 }
    ensures { result ≡ parenthesised_of start inner }
{
    let more = if inner.in_parentheses { 1 } else { 0 };
    Operand {
        exp: inner.exp,
        pos: inner.pos,
        start,
        depth: inner.depth + more,
        in_parentheses: true,
    }
}

fn deeper(exp: Exp, start: Pos, depth: u32) -> Operand
    requires { depth ≤ 64 }
    ensures { result ≡ deeper_of exp start depth }
{
    Operand {
        exp,
        pos: start,
        start,
        depth: depth + 1,
        in_parentheses: false,
    }
}

fn signed(alloc: Global, start: Pos, operator: UnaryOp, a: Operand) -> Result<Operand, NoMemory>
    requires { a.depth ≤ 64 }
    ensures { IfOk result (λ x. x ≡ unary_of start operator a) }
{
    let exp = Exp::Unary(start, operator, Boxed::new(alloc, a.exp)?);
    Ok(deeper(exp, start, a.depth))
}

fn binary(alloc: Global, operator: BinaryOp, a: Operand, b: Operand) -> Result<Operand, NoMemory>
    requires left { a.depth ≤ 64 }
    requires right { b.depth ≤ 64 }
    ensures { IfOk result (λ x. x ≡ binary_of operator a b) }
{
    let left = Boxed::new(alloc, a.exp)?;
    let right = Boxed::new(alloc, b.exp)?;
    let exp = Exp::Binary(a.start, operator, left, right);
    Ok(deeper(exp, a.start, a.depth.max(b.depth)))
}

fn index(alloc: Global, a: Operand, i: Operand) -> Result<Operand, NoMemory>
    requires base { a.depth ≤ 64 }
    requires at { i.depth ≤ 64 }
    ensures { IfOk result (λ x. x ≡ index_of a i) }
{
    let base = Boxed::new(alloc, a.exp)?;
    let at = Boxed::new(alloc, i.exp)?;
    let exp = Exp::Index(a.start, base, at);
    Ok(deeper(exp, a.start, a.depth.max(i.depth)))
}

fn field(alloc: Global, a: Operand, name: Name) -> Result<Operand, NoMemory>
    requires { a.depth ≤ 64 }
    ensures { IfOk result (λ x. x ≡ field_of a name) }
{
    let exp = Exp::Field(a.start, Boxed::new(alloc, a.exp)?, name);
    Ok(deeper(exp, a.start, a.depth))
}

fn arrow(alloc: Global, a: Operand, name: Name) -> Result<Operand, NoMemory>
    requires { a.depth ≤ 64 }
    ensures { IfOk result (λ x. x ≡ arrow_of a name) }
{
    let exp = Exp::Arrow(a.start, Boxed::new(alloc, a.exp)?, name);
    Ok(deeper(exp, a.start, a.depth))
}

// A number, `NULL` or a name, where no `(` stands.
fn bare<'t>(
    alloc: Global,
    counts: &[Count],
    tokens: &'t [Token],
) -> Result<(Operand, &'t [Token]), Stop<'t>>
    requires { Lacks (The_mark OpenParen) tokens.now }
    ensures reads { (outer : ℕ) (inside : Bool) → Reading (Primary counts.now outer inside) (λ x. (x.0, x.1.now)) tokens.now result }
    ensures shorter { IfOk result (λ x. length x.1.now < length tokens.now) }
    ensures depth { IfOk result (λ x. (x.0.depth ≡ 1) × (x.0.in_parentheses ≡ false)) }
{
    if let Some((start, rest)) = word(b"NULL", tokens) {
        if let Some(limit) = exceeded(counts, None) {
            return Err(Stop::Over(limit, tokens));
        }
        return Ok((leaf(start, Exp::Null(start)), rest));
    }
    if let Some((start, text, rest)) = name(tokens) {
        if let Some(limit) = exceeded_by_name(counts, text.as_slice()) {
            return Err(Stop::Over(limit, tokens));
        }
        return Ok((leaf(start, Exp::Name(named(alloc, start, text)?)), rest));
    }
    let Some((start, value, rest)) = number(tokens) else {
        return Err(Stop::At(tokens));
    };
    if let Some(limit) = exceeded(counts, None) {
        return Err(Stop::Over(limit, tokens));
    }
    Ok((leaf(start, Exp::Number(start, value)), rest))
}

// The mark that a postfix begins with.
#[derive(Clone, Copy, Debug, PartialEq, Eq)]
enum PostfixMark {
    OpenBracket,
    Dot,
    Arrow,
}

fn postfix_mark(tokens: &[Token]) -> Option<(PostfixMark, &[Token])>
    ensures { MatchOption result (Lacks (The_mark OpenBracket) tokens.now × Lacks (The_mark Dot) tokens.now × Lacks (The_mark Arrow) tokens.now) (λ x. (p : Pos) × Takes (The_mark (mark_of x.0)) tokens.now p tt x.1.now) }
{
    if let Some((_, rest)) = mark(Mark::OpenBracket, tokens) {
        return Some((PostfixMark::OpenBracket, rest));
    }
    if let Some((_, rest)) = mark(Mark::Dot, tokens) {
        return Some((PostfixMark::Dot, rest));
    }
    let (_, rest) = mark(Mark::Arrow, tokens)?;
    Some((PostfixMark::Arrow, rest))
}

// How deep a part stands in parentheses round it.
fn in_parentheses(outer: u32, inside: bool) -> u32
    requires { outer ≤ 64 }
    ensures { result ≡ outer + one_more inside }
{
    if inside { outer + 1 } else { outer }
}

#[cycle(expressions)]
fn primary<'t>(
    alloc: Global,
    counts: &[Count],
    outer: u32,
    inside: bool,
    tokens: &'t [Token],
) -> Result<(Operand, &'t [Token]), Stop<'t>>
    requires room { outer < 64 }
    ensures reads { Reading (Primary counts.now outer inside) (λ x. (x.0, x.1.now)) tokens.now result }
    ensures shorter { IfOk result (λ x. length x.1.now < length tokens.now) }
    ensures depth { IfOk result (λ x. IsWithin outer inside x.0) }
{
    let Some((start, rest)) = mark(Mark::OpenParen, tokens) else {
        return bare(alloc, counts, tokens);
    };
    let outer = in_parentheses(outer, inside);
    if let Some(limit) = exceeded(counts, Some(outer + 1)) {
        return Err(Stop::Over(limit, tokens));
    }
    let (inner, rest) = level(alloc, 6, &[], outer, true, rest)?;
    let Some((_, rest)) = mark(Mark::CloseParen, rest) else {
        return Err(Stop::At(rest));
    };
    Ok((parenthesised(start, inner), rest))
}

#[cycle(expressions)]
fn indexed<'t>(
    alloc: Global,
    outer: u32,
    base: Operand,
    tokens: &'t [Token],
) -> Result<(Operand, &'t [Token]), Stop<'t>>
    requires low { 1 ≤ base.depth }
    requires room { outer + base.depth < 64 }
    ensures reads { Postfixed PostfixMark.OpenBracket outer base tokens.now result }
    ensures shorter { IfOk result (λ x. length x.1.now < length tokens.now) }
    ensures depth { IfOk result (λ x. IsWithin outer true x.0) }
{
    let (at, rest) = level(alloc, 6, &[], outer + 1, false, tokens)?;
    let Some((_, rest)) = mark(Mark::CloseBracket, rest) else {
        return Err(Stop::At(rest));
    };
    Ok((index(alloc, base, at)?, rest))
}

#[cycle(expressions)]
fn behind<'t>(
    alloc: Global,
    mark: PostfixMark,
    outer: u32,
    base: Operand,
    tokens: &'t [Token],
) -> Result<(Operand, &'t [Token]), Stop<'t>>
    requires low { 1 ≤ base.depth }
    requires room { outer + base.depth < 64 }
    ensures reads { Postfixed mark outer base tokens.now result }
    ensures shorter { IfOk result (λ x. length x.1.now < length tokens.now) }
    ensures depth { IfOk result (λ x. IsWithin outer true x.0) }
{
    match mark {
        PostfixMark::OpenBracket => indexed(alloc, outer, base, tokens),
        PostfixMark::Dot => {
            let (name, rest) = wanted_name(alloc, &[], tokens)?;
            Ok((field(alloc, base, name)?, rest))
        }
        PostfixMark::Arrow => {
            let (name, rest) = wanted_name(alloc, &[], tokens)?;
            Ok((arrow(alloc, base, name)?, rest))
        }
    }
}

// From an operand on, the postfixes behind it.
#[cycle(expressions)]
fn postfixes<'t>(
    alloc: Global,
    outer: u32,
    base: Operand,
    tokens: &'t [Token],
) -> Result<(Operand, &'t [Token]), Stop<'t>>
    requires room { outer < 64 }
    requires low { 1 ≤ base.depth }
    requires fits { outer + base.depth ≤ 64 }
    ensures reads { Reading (Postfixes outer base) (λ x. (x.0, x.1.now)) tokens.now result }
    ensures shorter { IfOk result (λ x. length x.1.now ≤ length tokens.now) }
    ensures low { IfOk result (λ x. 1 ≤ x.0.depth) }
    ensures fits { IfOk result (λ x. outer + x.0.depth ≤ 64) }
    ensures depth { IfOk result (λ x. (inside : Bool) → IsWithin outer inside base → IsWithin outer inside x.0) }
{
    let mut base = base;
    let mut rest = tokens;
    'postfixes: while let Some((mark, after)) = postfix_mark(rest) {
        if let Some(limit) = exceeded(&[], Some(outer + base.depth + 1)) {
            return Err(Stop::Over(limit, rest));
        }
        (base, rest) = behind(alloc, mark, outer, base, after)?;
    }
    Ok((base, rest))
}

#[cycle(expressions)]
fn postfix<'t>(
    alloc: Global,
    counts: &[Count],
    outer: u32,
    inside: bool,
    tokens: &'t [Token],
) -> Result<(Operand, &'t [Token]), Stop<'t>>
    requires room { outer < 64 }
    ensures reads { Reading (Postfix counts.now outer inside) (λ x. (x.0, x.1.now)) tokens.now result }
    ensures shorter { IfOk result (λ x. length x.1.now < length tokens.now) }
    ensures depth { IfOk result (λ x. IsWithin outer inside x.0) }
{
    let (base, rest) = primary(alloc, counts, outer, inside, tokens)?;
    postfixes(alloc, outer, base, rest)
}

#[cycle(expressions)]
fn unary_level<'t>(
    alloc: Global,
    counts: &[Count],
    outer: u32,
    inside: bool,
    tokens: &'t [Token],
) -> Result<(Operand, &'t [Token]), Stop<'t>>
    requires room { outer < 64 }
    ensures reads { Reading (Level 0 counts.now outer inside) (λ x. (x.0, x.1.now)) tokens.now result }
    ensures shorter { IfOk result (λ x. length x.1.now < length tokens.now) }
    ensures depth { IfOk result (λ x. IsWithin outer inside x.0) }
{
    let Some((start, operator, rest)) = unary_operator(tokens) else {
        return postfix(alloc, counts, outer, inside, tokens);
    };
    if let Some(limit) = exceeded(counts, Some(outer + 2)) {
        return Err(Stop::Over(limit, tokens));
    }
    let (a, rest) = unary_level(alloc, &[], outer + 1, false, rest)?;
    Ok((signed(alloc, start, operator, a)?, rest))
}

// From an operand on, operators of this level with their right operands.
#[cycle(expressions)]
fn operators<'t>(
    alloc: Global,
    top: u32,
    outer: u32,
    left: Operand,
    tokens: &'t [Token],
) -> Result<(Operand, &'t [Token]), Stop<'t>>
    requires above { 1 ≤ top }
    requires top { top ≤ 6 }
    requires room { outer < 64 }
    requires low { 1 ≤ left.depth }
    requires fits { outer + left.depth ≤ 64 }
    ensures reads { Reading (Operators top outer left) (λ x. (x.0, x.1.now)) tokens.now result }
    ensures shorter { IfOk result (λ x. length x.1.now ≤ length tokens.now) }
    ensures low { IfOk result (λ x. 1 ≤ x.0.depth) }
    ensures fits { IfOk result (λ x. outer + x.0.depth ≤ 64) }
    ensures depth { IfOk result (λ x. (inside : Bool) → IsWithin outer inside left → IsWithin outer inside x.0) }
{
    let mut left = left;
    let mut rest = tokens;
    'operators: while let Some((_, operator, after)) = binary_operator(top, rest) {
        if let Some(limit) = exceeded(&[], Some(outer + left.depth + 1)) {
            return Err(Stop::Over(limit, rest));
        }
        let (right, after) = level(alloc, top - 1, &[], outer + 1, false, after)?;
        left = binary(alloc, operator, left, right)?;
        rest = after;
    }
    Ok((left, rest))
}

#[cycle(expressions)]
fn level<'t>(
    alloc: Global,
    top: u32,
    counts: &[Count],
    outer: u32,
    inside: bool,
    tokens: &'t [Token],
) -> Result<(Operand, &'t [Token]), Stop<'t>>
    requires top { top ≤ 6 }
    requires room { outer < 64 }
    ensures reads { Reading (Level top counts.now outer inside) (λ x. (x.0, x.1.now)) tokens.now result }
    ensures shorter { IfOk result (λ x. length x.1.now < length tokens.now) }
    ensures depth { IfOk result (λ x. IsWithin outer inside x.0) }
{
    if top == 0 {
        return unary_level(alloc, counts, outer, inside, tokens);
    }
    let (left, rest) = level(alloc, top - 1, counts, outer, inside, tokens)?;
    operators(alloc, top, outer, left, rest)
}

/// A unary that is part of no other expression, with what is counted at its first token.
pub fn unary<'t>(
    alloc: Global,
    counts: &[Count],
    tokens: &'t [Token],
) -> Result<(Operand, &'t [Token]), Stop<'t>>
    ensures reads { Reading (Unary counts.now) (λ x. (x.0, x.1.now)) tokens.now result }
    ensures shorter { IfOk result (λ x. length x.1.now < length tokens.now) }
{
    level(alloc, 0, counts, 0, false, tokens)
}

/// An expression that is part of no other, with what is counted at its first token.
pub fn expression<'t>(
    alloc: Global,
    counts: &[Count],
    tokens: &'t [Token],
) -> Result<(Operand, &'t [Token]), Stop<'t>>
    ensures reads { Reading (Expression counts.now) (λ x. (x.0, x.1.now)) tokens.now result }
    ensures shorter { IfOk result (λ x. length x.1.now < length tokens.now) }
{
    level(alloc, 6, counts, 0, false, tokens)
}

/// From a unary on, operators of levels up to this one.
pub fn behind_unary<'t>(
    alloc: Global,
    top: u32,
    a: Operand,
    tokens: &'t [Token],
) -> Result<(Operand, &'t [Token]), Stop<'t>>
    requires top { top ≤ 6 }
    requires low { 1 ≤ a.depth }
    requires fits { a.depth ≤ 64 }
    ensures reads { Reading (Behind top a) (λ x. (x.0, x.1.now)) tokens.now result }
    ensures shorter { IfOk result (λ x. length x.1.now ≤ length tokens.now) }
    ensures low { IfOk result (λ x. 1 ≤ x.0.depth) }
    ensures fits { IfOk result (λ x. x.0.depth ≤ 64) }
{
    if top == 0 {
        return Ok((a, tokens));
    }
    let (left, rest) = behind_unary(alloc, top - 1, a, tokens)?;
    operators(alloc, top, 0, left, rest)
}

/// From a primary on, postfixes and operators of levels up to this one.
pub fn behind_primary<'t>(
    alloc: Global,
    top: u32,
    a: Operand,
    tokens: &'t [Token],
) -> Result<(Operand, &'t [Token]), Stop<'t>>
    requires top { top ≤ 6 }
    requires low { 1 ≤ a.depth }
    requires fits { a.depth ≤ 64 }
    ensures reads { Reading (From top a) (λ x. (x.0, x.1.now)) tokens.now result }
    ensures shorter { IfOk result (λ x. length x.1.now ≤ length tokens.now) }
{
    let (b, rest) = postfixes(alloc, 0, a, tokens)?;
    behind_unary(alloc, top, b, rest)
}

/// A number or `NULL`.
pub fn literal<'t>(
    counts: &[Count],
    tokens: &'t [Token],
) -> Result<(Operand, &'t [Token]), Stop<'t>>
    ensures reads { Beginning (on_literal counts.now) (λ x. (x.0, x.1.now)) tokens.now result }
    ensures shorter { IfOk result (λ x. length x.1.now < length tokens.now) }
    ensures depth { IfOk result (λ x. x.0.depth ≡ 1) }
{
    if let Some((start, rest)) = word(b"NULL", tokens) {
        if let Some(limit) = exceeded(counts, None) {
            return Err(Stop::Over(limit, tokens));
        }
        return Ok((leaf(start, Exp::Null(start)), rest));
    }
    let Some((start, value, rest)) = number(tokens) else {
        return Err(Stop::At(tokens));
    };
    if let Some(limit) = exceeded(counts, None) {
        return Err(Stop::Over(limit, tokens));
    }
    Ok((leaf(start, Exp::Number(start, value)), rest))
}

/// An expression in parentheses, behind its `(`.
pub fn inner<'t>(
    alloc: Global,
    start: Pos,
    tokens: &'t [Token],
) -> Result<(Operand, &'t [Token]), Stop<'t>>
    ensures reads { Beginning (on_inner start) (λ x. (x.0, x.1.now)) tokens.now result }
    ensures shorter { IfOk result (λ x. length x.1.now < length tokens.now) }
    ensures low { IfOk result (λ x. 1 ≤ x.0.depth) }
    ensures fits { IfOk result (λ x. x.0.depth ≤ 64) }
{
    let (a, rest) = level(alloc, 6, &[], 0, true, tokens)?;
    let Some((_, rest)) = mark(Mark::CloseParen, rest) else {
        return Err(Stop::At(rest));
    };
    Ok((parenthesised(start, a), rest))
}

/// An operand with an operator before it, behind that.
pub fn behind_operator<'t>(
    alloc: Global,
    start: Pos,
    operator: UnaryOp,
    tokens: &'t [Token],
) -> Result<(Operand, &'t [Token]), Stop<'t>>
    ensures reads { Beginning (on_signed start operator) (λ x. (x.0, x.1.now)) tokens.now result }
    ensures shorter { IfOk result (λ x. length x.1.now < length tokens.now) }
    ensures low { IfOk result (λ x. 1 ≤ x.0.depth) }
    ensures fits { IfOk result (λ x. x.0.depth ≤ 64) }
{
    let (a, rest) = level(alloc, 0, &[], 1, false, tokens)?;
    Ok((signed(alloc, start, operator, a)?, rest))
}

/// A unary that begins with no name, with what is counted at its first token.
pub fn nameless_unary<'t>(
    alloc: Global,
    counts: &[Count],
    tokens: &'t [Token],
) -> Result<(Operand, &'t [Token]), Stop<'t>>
    ensures reads { Reading (Nameless_unary counts.now) (λ x. (x.0, x.1.now)) tokens.now result }
    ensures shorter { IfOk result (λ x. length x.1.now < length tokens.now) }
{
    if let Some((start, operator, rest)) = unary_operator(tokens) {
        if let Some(limit) = exceeded(counts, None) {
            return Err(Stop::Over(limit, tokens));
        }
        return behind_operator(alloc, start, operator, rest);
    }
    if let Some((start, rest)) = mark(Mark::OpenParen, tokens) {
        if let Some(limit) = exceeded(counts, None) {
            return Err(Stop::Over(limit, tokens));
        }
        let (a, rest) = inner(alloc, start, rest)?;
        return behind_primary(alloc, 0, a, rest);
    }
    let (a, rest) = literal(counts, tokens)?;
    behind_primary(alloc, 0, a, rest)
}

/// An expression, and then the end.
pub fn whole<'t>(alloc: Global, tokens: &'t [Token]) -> Result<(Operand, &'t [Token]), Stop<'t>>
    ensures { Reading Whole (λ x. (x.0, x.1.now)) tokens.now result }
{
    let (a, rest) = expression(alloc, &[], tokens)?;
    let Some((_, rest)) = end(rest) else {
        return Err(Stop::At(rest));
    };
    Ok((a, rest))
}
