//! Readers of statements.

ghost use Rattle.std.specs.Prelude.{◌≡◌, ◌<◌, ◌≤◌, ℕ, Bool, true, None, length, IfOk, MatchOption};
ghost use Rattle.ca_tree.specs.declared.text.Pos.{Pos};
ghost use Rattle.ca_tree.specs.StatementTrees.{closed as closed_of};
ghost use Rattle.ca_grammar.specs.Words.{The_word, Takes};
ghost use Rattle.ca_grammar.specs.Goals.{Statements, A_statement, Braceless, A_body, Condition, Else_part, For_first, For_condition, For_step};
ghost use Rattle.ca_grammar.specs.StatementPlans.{nested, nested_item, an_item, at_close, numbered, without_else as without_else_of, with_else as with_else_of, first_local as first_local_plan, behind_return as behind_return_plan, simply_said as simply_said_plan, in_loops as in_loops_plan};
ghost use Rattle.ca_expressions.specs.Reading.{Following, Reading, IsExceeded};
ghost use Rattle.ca_statements.specs.StatementReading.{InBlock, FitsFirst, SimpleTo, ForHeadRead, Leaps, LacksKeywords, branch, branch_and_rest, keyword_of, behind_keyword, first_simple_plan, while_of, do_of, for_of};

use crate::locals::{
    declaration, first_declarator, item, nesting, next_item, over_item, over_nested_item,
};
use ca_expressions::expressions::expression;
use ca_expressions::limits::exceeded;
use ca_expressions::names::wanted_name;
use ca_expressions::steps::{mark, word};
use ca_expressions::stop::Stop;
use ca_grammar::{Count, Counted, Operand};
use ca_phrases::simple::simple;
use ca_tree::tree::{Base, Exp, ForFirst, ForHead, ItemAt, Simple, Stmt};
use ca_tree::{Listed, Mark, NoMemory, Pos, Token};
use sqlite_items::Boxed;
use std::alloc::Global;

/// A statement; whether an `else` behind it would belong to an `if` in it; and the number of items behind it.
#[derive(Drop)]
pub struct Branch {
    pub stmt: Stmt,
    pub is_open: bool,
    pub items: u32,
}

// The limit that a statement exceeds for its depth.
fn over_depth(depth: u32) -> Option<Counted>
    ensures exceeded { IsExceeded (nested depth) None result }
    ensures room { MatchOption result (depth ≤ 64) (λ c. 64 < depth) }
{
    exceeded(&[nesting(depth)], None)
}

// The limit that the `}` of a block exceeds.
fn over_close(of_function: bool, items: u32) -> Option<Counted>
    requires { items ≤ 65536 }
    ensures exceeded { IsExceeded (at_close of_function items) None result }
    ensures room { MatchOption result (of_function ≡ true → items < 65536) (λ c. items ≤ 65536) }
{
    if of_function { over_item(items) } else { None }
}

fn closed(stmt: Stmt, items: u32) -> Branch
    ensures { branch result ≡ numbered (closed_of stmt) items }
{
    Branch {
        stmt,
        is_open: false,
        items,
    }
}

// A condition in parentheses.
fn condition<'t>(
    alloc: Global,
    items: u32,
    tokens: &'t [Token],
) -> Result<(Operand, &'t [Token]), Stop<'t>>
    requires { items ≤ 65536 }
    ensures reads { Reading (Condition items) (λ x. (x.0, x.1.now)) tokens.now result }
    ensures room { IfOk result (λ x. items < 65536) }
    ensures shorter { IfOk result (λ x. length x.1.now < length tokens.now) }
{
    let Some((_, rest)) = mark(Mark::OpenParen, tokens) else {
        return Err(Stop::At(tokens));
    };
    let (condition, rest) = expression(alloc, &[next_item(items)], rest)?;
    let Some((_, rest)) = mark(Mark::CloseParen, rest) else {
        return Err(Stop::At(rest));
    };
    Ok((condition, rest))
}

// A local and the `;` behind it.
fn first_local<'t>(
    alloc: Global,
    base: Base,
    pos: Pos,
    items: u32,
    tokens: &'t [Token],
) -> Result<(Option<ForFirst>, u32, &'t [Token]), Stop<'t>>
    requires { items < 65536 }
    ensures reads { Following (For_first items) (first_local_plan base pos items) (λ x. (record { what = x.0; items = x.1 }, x.2.now)) tokens.now result }
    ensures room { IfOk result (λ x. x.1 ≤ 65536) }
    ensures shorter { IfOk result (λ x. length x.2.now < length tokens.now) }
{
    let (local, rest) = first_declarator(alloc, &base, pos, items, tokens)?;
    let Some((_, rest)) = mark(Mark::Semicolon, rest) else {
        return Err(Stop::At(rest));
    };
    Ok((Some(ForFirst::Local(base, local)), items + 1, rest))
}

// A simple statement and the mark behind it.
fn simple_to<'t>(
    alloc: Global,
    counts: &[Count],
    end: Mark,
    tokens: &'t [Token],
) -> Result<(Pos, Simple, &'t [Token]), Stop<'t>>
    ensures reads { SimpleTo counts.now end tokens.now result }
    ensures counts { IfOk result (λ x. FitsFirst counts.now) }
    ensures shorter { IfOk result (λ x. length x.2.now < length tokens.now) }
{
    let (pos, simple, rest) = simple(alloc, counts, tokens)?;
    let Some((_, rest)) = mark(end, rest) else {
        return Err(Stop::At(rest));
    };
    Ok((pos, simple, rest))
}

fn first_simple<'t>(
    alloc: Global,
    items: u32,
    tokens: &'t [Token],
) -> Result<(Option<ForFirst>, u32, &'t [Token]), Stop<'t>>
    requires { items ≤ 65536 }
    ensures reads { Following (For_first items) (first_simple_plan items) (λ x. (record { what = x.0; items = x.1 }, x.2.now)) tokens.now result }
    ensures room { IfOk result (λ x. x.1 ≤ 65536) }
    ensures shorter { IfOk result (λ x. length x.2.now < length tokens.now) }
{
    let (pos, simple, rest) = simple_to(alloc, &[next_item(items)], Mark::Semicolon, tokens)?;
    Ok((
        Some(ForFirst::Simple(item(items, pos), simple)),
        items + 1,
        rest,
    ))
}

fn for_first<'t>(
    alloc: Global,
    items: u32,
    tokens: &'t [Token],
) -> Result<(Option<ForFirst>, u32, &'t [Token]), Stop<'t>>
    requires { items ≤ 65536 }
    ensures reads { Reading (For_first items) (λ x. (record { what = x.0; items = x.1 }, x.2.now)) tokens.now result }
    ensures room { IfOk result (λ x. x.1 ≤ 65536) }
    ensures shorter { IfOk result (λ x. length x.2.now < length tokens.now) }
{
    if let Some((_, rest)) = mark(Mark::Semicolon, tokens) {
        return Ok((None, items, rest));
    }
    if let Some((pos, rest)) = word(b"int", tokens) {
        if let Some(limit) = over_item(items) {
            return Err(Stop::Over(limit, tokens));
        }
        return first_local(alloc, Base::Int, pos, items, rest);
    }
    let Some((pos, rest)) = word(b"struct", tokens) else {
        return first_simple(alloc, items, tokens);
    };
    if let Some(limit) = over_item(items) {
        return Err(Stop::Over(limit, tokens));
    }
    let (tag, rest) = wanted_name(alloc, &[], rest)?;
    first_local(alloc, Base::Struct(tag), pos, items, rest)
}

fn for_condition<'t>(
    alloc: Global,
    items: u32,
    tokens: &'t [Token],
) -> Result<(ItemAt, Option<Exp>, &'t [Token]), Stop<'t>>
    requires { items ≤ 65536 }
    ensures reads { Reading (For_condition items) (λ x. (record { item = x.0; what = x.1 }, x.2.now)) tokens.now result }
    ensures room { IfOk result (λ x. items < 65536) }
    ensures shorter { IfOk result (λ x. length x.2.now < length tokens.now) }
{
    if let Some((pos, rest)) = mark(Mark::Semicolon, tokens) {
        if let Some(limit) = over_item(items) {
            return Err(Stop::Over(limit, tokens));
        }
        return Ok((item(items, pos), None, rest));
    }
    let (condition, rest) = expression(alloc, &[next_item(items)], tokens)?;
    let Some((_, rest)) = mark(Mark::Semicolon, rest) else {
        return Err(Stop::At(rest));
    };
    Ok((item(items, condition.pos), Some(condition.exp), rest))
}

fn for_step<'t>(
    alloc: Global,
    items: u32,
    tokens: &'t [Token],
) -> Result<(Option<(ItemAt, Simple)>, u32, &'t [Token]), Stop<'t>>
    requires { items ≤ 65536 }
    ensures reads { Reading (For_step items) (λ x. (record { what = x.0; items = x.1 }, x.2.now)) tokens.now result }
    ensures room { IfOk result (λ x. x.1 ≤ 65536) }
    ensures shorter { IfOk result (λ x. length x.2.now < length tokens.now) }
{
    if let Some((_, rest)) = mark(Mark::CloseParen, tokens) {
        return Ok((None, items, rest));
    }
    let (pos, simple, rest) = simple_to(alloc, &[next_item(items)], Mark::CloseParen, tokens)?;
    Ok((Some((item(items, pos), simple)), items + 1, rest))
}

fn boxed_first<'t>(
    alloc: Global,
    items: u32,
    tokens: &'t [Token],
) -> Result<(Boxed<Option<ForFirst>>, u32, &'t [Token]), Stop<'t>>
    requires { items ≤ 65536 }
    ensures reads { Reading (For_first items) (λ x. (record { what = x.0; items = x.1 }, x.2.now)) tokens.now result }
    ensures room { IfOk result (λ x. x.1 ≤ 65536) }
    ensures shorter { IfOk result (λ x. length x.2.now < length tokens.now) }
{
    let (first, number, rest) = for_first(alloc, items, tokens)?;
    Ok((Boxed::new(alloc, first)?, number, rest))
}

// The head of a `for`, from its `(` to its `)`. What it holds stands in boxes while more is read, since letting it go by
// its parts is long.
fn for_head<'t>(
    alloc: Global,
    items: u32,
    tokens: &'t [Token],
) -> Result<(Boxed<ForHead>, u32, &'t [Token]), Stop<'t>>
    requires { items ≤ 65536 }
    ensures reads { ForHeadRead items tokens.now result }
    ensures room { IfOk result (λ x. x.1 ≤ 65536) }
    ensures shorter { IfOk result (λ x. length x.2.now < length tokens.now) }
{
    let Some((_, rest)) = mark(Mark::OpenParen, tokens) else {
        return Err(Stop::At(tokens));
    };
    let (first, before, rest) = boxed_first(alloc, items, rest)?;
    let (item, condition, rest) = for_condition(alloc, before, rest)?;
    let (step, number, rest) = for_step(alloc, before + 1, rest)?;
    let head = ForHead {
        first: first.into_inner(),
        item,
        condition,
        step,
    };
    Ok((Boxed::new(alloc, head)?, number, rest))
}

fn without_else(
    alloc: Global,
    item: ItemAt,
    condition: Exp,
    yes: Branch,
) -> Result<Branch, NoMemory>
    ensures { IfOk result (λ x. branch x ≡ numbered (without_else_of item condition (branch yes).what) yes.items) }
{
    let items = yes.items;
    Ok(Branch {
        stmt: Stmt::If(item, condition, Boxed::new(alloc, yes.stmt)?, None),
        is_open: true,
        items,
    })
}

fn with_else(
    alloc: Global,
    item: ItemAt,
    condition: Exp,
    yes: Branch,
    no: Branch,
) -> Result<Branch, NoMemory>
    ensures { IfOk result (λ x. branch x ≡ numbered (with_else_of item condition (branch yes).what (branch no).what) no.items) }
{
    let yes = Boxed::new(alloc, yes.stmt)?;
    let is_open = no.is_open;
    let items = no.items;
    let no = Boxed::new(alloc, no.stmt)?;
    Ok(Branch {
        stmt: Stmt::If(item, condition, yes, Some(no)),
        is_open,
        items,
    })
}

fn while_loop(alloc: Global, item: ItemAt, condition: Exp, body: Branch) -> Result<Branch, NoMemory>
    ensures { IfOk result (λ x. branch x ≡ while_of item condition (branch body)) }
{
    let is_open = body.is_open;
    let items = body.items;
    Ok(Branch {
        stmt: Stmt::While(item, condition, Boxed::new(alloc, body.stmt)?),
        is_open,
        items,
    })
}

fn for_loop(alloc: Global, head: Boxed<ForHead>, body: Branch) -> Result<Branch, NoMemory>
    ensures { IfOk result (λ x. branch x ≡ for_of head (branch body)) }
{
    let is_open = body.is_open;
    let items = body.items;
    let inner = Boxed::new(alloc, body.stmt)?;
    Ok(Branch {
        stmt: Stmt::For(head.into_inner(), inner),
        is_open,
        items,
    })
}

fn do_loop(alloc: Global, body: Branch, item: ItemAt, condition: Exp) -> Result<Branch, NoMemory>
    requires { body.items < 65536 }
    ensures { IfOk result (λ x. branch x ≡ do_of (branch body) item condition) }
{
    let items = body.items + 1;
    let inner = Boxed::new(alloc, body.stmt)?;
    Ok(closed(Stmt::Do(inner, item, condition), items))
}

// Behind `return`.
fn behind_return<'t>(
    alloc: Global,
    pos: Pos,
    items: u32,
    tokens: &'t [Token],
) -> Result<(Branch, &'t [Token]), Stop<'t>>
    requires { items < 65536 }
    ensures reads { (in_loop : Bool) (d : ℕ) → Following (Braceless in_loop d items) (behind_return_plan in_loop d items pos) branch_and_rest tokens.now result }
    ensures room { IfOk result (λ x. x.0.items ≤ 65536) }
    ensures shorter { IfOk result (λ x. length x.1.now < length tokens.now) }
{
    if let Some((_, rest)) = mark(Mark::Semicolon, tokens) {
        let stmt = Stmt::Return(item(items, pos), None);
        return Ok((closed(stmt, items + 1), rest));
    }
    let (value, rest) = expression(alloc, &[], tokens)?;
    let Some((_, rest)) = mark(Mark::Semicolon, rest) else {
        return Err(Stop::At(rest));
    };
    let stmt = Stmt::Return(item(items, pos), Some(value.exp));
    Ok((closed(stmt, items + 1), rest))
}

// Behind `break` or `continue`, which stands at the tokens.
fn leap<'t>(
    stmt: Stmt,
    depth: u32,
    items: u32,
    tokens: &'t [Token],
    rest: &'t [Token],
) -> Result<(Branch, &'t [Token]), Stop<'t>>
    requires room { items ≤ 65536 }
    requires shorter { length rest.now < length tokens.now }
    ensures reads { Leaps stmt depth items rest.now tokens.now result }
    ensures room { IfOk result (λ x. x.0.items ≤ 65536) }
    ensures shorter { IfOk result (λ x. length x.1.now < length tokens.now) }
{
    if let Some(limit) = over_depth(depth) {
        return Err(Stop::Over(limit, tokens));
    }
    let Some((_, rest)) = mark(Mark::Semicolon, rest) else {
        return Err(Stop::At(rest));
    };
    Ok((closed(stmt, items), rest))
}

fn simply_said<'t>(
    alloc: Global,
    depth: u32,
    items: u32,
    tokens: &'t [Token],
) -> Result<(Branch, &'t [Token]), Stop<'t>>
    requires { items ≤ 65536 }
    ensures reads { (in_loop : Bool) → Following (Braceless in_loop depth items) (simply_said_plan in_loop depth items) branch_and_rest tokens.now result }
    ensures room { IfOk result (λ x. x.0.items ≤ 65536) }
    ensures shorter { IfOk result (λ x. length x.1.now < length tokens.now) }
{
    let counts = [next_item(items), nesting(depth)];
    let (pos, simple, rest) = simple_to(alloc, &counts, Mark::Semicolon, tokens)?;
    Ok((
        closed(Stmt::Simple(item(items, pos), simple), items + 1),
        rest,
    ))
}

fn in_loops<'t>(
    alloc: Global,
    in_loop: bool,
    depth: u32,
    items: u32,
    tokens: &'t [Token],
) -> Result<(Branch, &'t [Token]), Stop<'t>>
    requires { items ≤ 65536 }
    ensures reads { Following (Braceless in_loop depth items) (in_loops_plan in_loop depth items) branch_and_rest tokens.now result }
    ensures room { IfOk result (λ x. x.0.items ≤ 65536) }
    ensures shorter { IfOk result (λ x. length x.1.now < length tokens.now) }
{
    if !in_loop {
        return simply_said(alloc, depth, items, tokens);
    }
    if let Some((pos, rest)) = word(b"break", tokens) {
        return leap(Stmt::Break(pos), depth, items, tokens, rest);
    }
    if let Some((pos, rest)) = word(b"continue", tokens) {
        return leap(Stmt::Continue(pos), depth, items, tokens, rest);
    }
    simply_said(alloc, depth, items, tokens)
}

// A statement with no statement in it.
fn unnested<'t>(
    alloc: Global,
    in_loop: bool,
    depth: u32,
    items: u32,
    tokens: &'t [Token],
) -> Result<(Branch, &'t [Token]), Stop<'t>>
    requires room { items ≤ 65536 }
    requires none { LacksKeywords tokens.now }
    ensures reads { Reading (Braceless in_loop depth items) branch_and_rest tokens.now result }
    ensures room { IfOk result (λ x. x.0.items ≤ 65536) }
    ensures shorter { IfOk result (λ x. length x.1.now < length tokens.now) }
{
    if let Some((_, rest)) = mark(Mark::Semicolon, tokens) {
        if let Some(limit) = over_depth(depth) {
            return Err(Stop::Over(limit, tokens));
        }
        return Ok((closed(Stmt::Empty, items), rest));
    }
    if let Some((pos, rest)) = word(b"return", tokens) {
        if let Some(limit) = over_nested_item(items, depth) {
            return Err(Stop::Over(limit, tokens));
        }
        return behind_return(alloc, pos, items, rest);
    }
    in_loops(alloc, in_loop, depth, items, tokens)
}

// The word that a statement begins with that has a statement in it.
#[derive(Clone, Copy, Debug, PartialEq, Eq)]
enum Keyword {
    If,
    While,
    Do,
    For,
}

fn first_keyword(tokens: &[Token]) -> Option<(Keyword, &[Token])>
    ensures { MatchOption result (LacksKeywords tokens.now) (λ x. (p : Pos) × Takes (The_word (keyword_of x.0)) tokens.now p tt x.1.now) }
{
    if let Some((_, rest)) = word(b"if", tokens) {
        return Some((Keyword::If, rest));
    }
    if let Some((_, rest)) = word(b"while", tokens) {
        return Some((Keyword::While, rest));
    }
    if let Some((_, rest)) = word(b"do", tokens) {
        return Some((Keyword::Do, rest));
    }
    let (_, rest) = word(b"for", tokens)?;
    Some((Keyword::For, rest))
}

#[cycle(statement)]
fn else_part<'t>(
    alloc: Global,
    in_loop: bool,
    depth: u32,
    item: ItemAt,
    condition: Exp,
    yes: Branch,
    tokens: &'t [Token],
) -> Result<(Branch, &'t [Token]), Stop<'t>>
    requires deep { depth ≤ 64 }
    requires room { yes.items ≤ 65536 }
    ensures reads { Reading (Else_part in_loop depth item condition (branch yes).what yes.items) branch_and_rest tokens.now result }
    ensures room { IfOk result (λ x. x.0.items ≤ 65536) }
    ensures shorter { IfOk result (λ x. length x.1.now ≤ length tokens.now) }
{
    if yes.is_open {
        return Ok((without_else(alloc, item, condition, yes)?, tokens));
    }
    let Some((_, rest)) = word(b"else", tokens) else {
        return Ok((without_else(alloc, item, condition, yes)?, tokens));
    };
    let (no, rest) = body(alloc, in_loop, depth + 1, yes.items, rest)?;
    Ok((with_else(alloc, item, condition, yes, no)?, rest))
}

#[cycle(statement)]
fn behind_if<'t>(
    alloc: Global,
    in_loop: bool,
    depth: u32,
    items: u32,
    tokens: &'t [Token],
) -> Result<(Branch, &'t [Token]), Stop<'t>>
    requires deep { depth ≤ 64 }
    requires room { items ≤ 65536 }
    ensures reads { Following (Braceless in_loop depth items) (behind_keyword Keyword.If in_loop depth items) branch_and_rest tokens.now result }
    ensures room { IfOk result (λ x. x.0.items ≤ 65536) }
    ensures shorter { IfOk result (λ x. length x.1.now < length tokens.now) }
{
    let (condition, rest) = condition(alloc, items, tokens)?;
    let (yes, rest) = body(alloc, in_loop, depth + 1, items + 1, rest)?;
    let item = item(items, condition.pos);
    else_part(alloc, in_loop, depth, item, condition.exp, yes, rest)
}

#[cycle(statement)]
fn behind_while<'t>(
    alloc: Global,
    in_loop: bool,
    depth: u32,
    items: u32,
    tokens: &'t [Token],
) -> Result<(Branch, &'t [Token]), Stop<'t>>
    requires deep { depth ≤ 64 }
    requires room { items ≤ 65536 }
    ensures reads { Following (Braceless in_loop depth items) (behind_keyword Keyword.While in_loop depth items) branch_and_rest tokens.now result }
    ensures room { IfOk result (λ x. x.0.items ≤ 65536) }
    ensures shorter { IfOk result (λ x. length x.1.now < length tokens.now) }
{
    let (condition, rest) = condition(alloc, items, tokens)?;
    let (body, rest) = body(alloc, true, depth + 1, items + 1, rest)?;
    let item = item(items, condition.pos);
    Ok((while_loop(alloc, item, condition.exp, body)?, rest))
}

#[cycle(statement)]
fn behind_do<'t>(
    alloc: Global,
    in_loop: bool,
    depth: u32,
    items: u32,
    tokens: &'t [Token],
) -> Result<(Branch, &'t [Token]), Stop<'t>>
    requires deep { depth ≤ 64 }
    requires room { items ≤ 65536 }
    ensures reads { Following (Braceless in_loop depth items) (behind_keyword Keyword.Do in_loop depth items) branch_and_rest tokens.now result }
    ensures room { IfOk result (λ x. x.0.items ≤ 65536) }
    ensures shorter { IfOk result (λ x. length x.1.now < length tokens.now) }
{
    let (body, rest) = body(alloc, true, depth + 1, items, tokens)?;
    let Some((_, rest)) = word(b"while", rest) else {
        return Err(Stop::At(rest));
    };
    let (condition, rest) = condition(alloc, body.items, rest)?;
    let Some((_, rest)) = mark(Mark::Semicolon, rest) else {
        return Err(Stop::At(rest));
    };
    let item = item(body.items, condition.pos);
    Ok((do_loop(alloc, body, item, condition.exp)?, rest))
}

#[cycle(statement)]
fn behind_for<'t>(
    alloc: Global,
    in_loop: bool,
    depth: u32,
    items: u32,
    tokens: &'t [Token],
) -> Result<(Branch, &'t [Token]), Stop<'t>>
    requires deep { depth ≤ 64 }
    requires room { items ≤ 65536 }
    ensures reads { Following (Braceless in_loop depth items) (behind_keyword Keyword.For in_loop depth items) branch_and_rest tokens.now result }
    ensures room { IfOk result (λ x. x.0.items ≤ 65536) }
    ensures shorter { IfOk result (λ x. length x.1.now < length tokens.now) }
{
    let (head, number, rest) = for_head(alloc, items, tokens)?;
    let (body, rest) = body(alloc, true, depth + 1, number, rest)?;
    Ok((for_loop(alloc, head, body)?, rest))
}

// A statement that is no block.
#[cycle(statement)]
fn braceless<'t>(
    alloc: Global,
    in_loop: bool,
    depth: u32,
    items: u32,
    tokens: &'t [Token],
) -> Result<(Branch, &'t [Token]), Stop<'t>>
    requires deep { depth ≤ 65 }
    requires room { items ≤ 65536 }
    ensures reads { Reading (Braceless in_loop depth items) branch_and_rest tokens.now result }
    ensures room { IfOk result (λ x. x.0.items ≤ 65536) }
    ensures shorter { IfOk result (λ x. length x.1.now < length tokens.now) }
{
    let Some((keyword, rest)) = first_keyword(tokens) else {
        return unnested(alloc, in_loop, depth, items, tokens);
    };
    if let Some(limit) = over_depth(depth) {
        return Err(Stop::Over(limit, tokens));
    }
    match keyword {
        Keyword::If => behind_if(alloc, in_loop, depth, items, rest),
        Keyword::While => behind_while(alloc, in_loop, depth, items, rest),
        Keyword::Do => behind_do(alloc, in_loop, depth, items, rest),
        Keyword::For => behind_for(alloc, in_loop, depth, items, rest),
    }
}

// What stands behind `if`, `else` or the head of a loop: its own braces count for no depth.
#[cycle(statement)]
fn body<'t>(
    alloc: Global,
    in_loop: bool,
    depth: u32,
    items: u32,
    tokens: &'t [Token],
) -> Result<(Branch, &'t [Token]), Stop<'t>>
    requires deep { depth ≤ 65 }
    requires room { items ≤ 65536 }
    ensures reads { Reading (A_body in_loop depth items) branch_and_rest tokens.now result }
    ensures room { IfOk result (λ x. x.0.items ≤ 65536) }
    ensures shorter { IfOk result (λ x. length x.1.now < length tokens.now) }
{
    let Some((_, rest)) = mark(Mark::OpenBrace, tokens) else {
        return braceless(alloc, in_loop, depth, items, tokens);
    };
    let (_, inner, items, rest) = statements(alloc, in_loop, depth, false, items, rest)?;
    Ok((closed(Stmt::Block(inner), items), rest))
}

#[cycle(statement)]
fn statement<'t>(
    alloc: Global,
    in_loop: bool,
    depth: u32,
    items: u32,
    tokens: &'t [Token],
) -> Result<(Branch, &'t [Token]), Stop<'t>>
    requires deep { depth ≤ 65 }
    requires room { items ≤ 65536 }
    ensures reads { Reading (A_statement in_loop depth items) branch_and_rest tokens.now result }
    ensures room { IfOk result (λ x. x.0.items ≤ 65536) }
    ensures shorter { IfOk result (λ x. length x.1.now < length tokens.now) }
{
    let Some((_, rest)) = mark(Mark::OpenBrace, tokens) else {
        return braceless(alloc, in_loop, depth, items, tokens);
    };
    if let Some(limit) = over_depth(depth) {
        return Err(Stop::Over(limit, tokens));
    }
    let (_, inner, items, rest) = statements(alloc, in_loop, depth + 1, false, items, rest)?;
    Ok((closed(Stmt::Block(inner), items), rest))
}

// A statement of a block, or a declaration with its `;`.
#[cycle(statement)]
fn in_block<'t>(
    alloc: Global,
    in_loop: bool,
    depth: u32,
    items: u32,
    tokens: &'t [Token],
) -> Result<(Stmt, u32, &'t [Token]), Stop<'t>>
    requires deep { depth ≤ 65 }
    requires room { items ≤ 65536 }
    ensures reads { InBlock in_loop depth items tokens.now result }
    ensures room { IfOk result (λ x. x.1 ≤ 65536) }
    ensures shorter { IfOk result (λ x. length x.2.now < length tokens.now) }
{
    if let Some((locals, items, rest)) = declaration(alloc, depth, items, tokens)? {
        return Ok((Stmt::Locals(locals), items, rest));
    }
    let (branch, rest) = statement(alloc, in_loop, depth, items, tokens)?;
    Ok((branch.stmt, branch.items, rest))
}

/// The statements of a block with its `}`, and the place of that; the `}` of a function is an item.
#[cycle(statement)]
pub fn statements<'t>(
    alloc: Global,
    in_loop: bool,
    depth: u32,
    of_function: bool,
    items: u32,
    tokens: &'t [Token],
) -> Result<(Pos, Listed<Stmt>, u32, &'t [Token]), Stop<'t>>
    requires deep { depth ≤ 65 }
    requires room { items ≤ 65536 }
    ensures reads { Reading (Statements in_loop depth of_function items) (λ x. (record { pos = x.0; what = record { what = x.1; items = x.2 } }, x.3.now)) tokens.now result }
    ensures room { IfOk result (λ x. x.2 ≤ 65536) }
    ensures close { IfOk result (λ x. of_function ≡ true → x.2 < 65536) }
    ensures shorter { IfOk result (λ x. length x.3.now < length tokens.now) }
{
    let mut all = Vec::new(alloc);
    let mut number = items;
    let mut rest = tokens;
    'statements: loop {
        if let Some((pos, after)) = mark(Mark::CloseBrace, rest) {
            if let Some(limit) = over_close(of_function, number) {
                return Err(Stop::Over(limit, rest));
            }
            return Ok((pos, Listed::from_vec(all), number, after));
        }
        let (next, behind, after) = in_block(alloc, in_loop, depth, number, rest)?;
        all.push(next)?;
        number = behind;
        rest = after;
    }
}
