//! Readers of calls of the library.

ghost use Rattle.std.specs.Prelude.{◌<◌, length, IfOk, MatchOption};
ghost use Rattle.ca_grammar.specs.Words.{The_word, Takes, Lacks};
ghost use Rattle.ca_grammar.specs.PhrasePlans.{behind_create, behind_join, behind_print};
ghost use Rattle.ca_expressions.specs.Reading.{Beginning};
ghost use Rattle.ca_phrases.specs.Phrases.{Called, LacksCalls, on_started, behind_word, spelled, on_address, on_mutex, on_null, on_one};

use crate::calls::print_arguments;
use ca_expressions::expressions::expression;
use ca_expressions::limits::exceeded;
use ca_expressions::names::{named, wanted_name};
use ca_expressions::steps::{mark, string, word};
use ca_expressions::stop::Stop;
use ca_grammar::{Count, Counted};
use ca_tree::tree::{Exp, Library, Name};
use ca_tree::{Mark, Pos, Token};
use std::alloc::Global;

// `(`, `&` and a name.
fn address<'t>(alloc: Global, tokens: &'t [Token]) -> Result<(Name, &'t [Token]), Stop<'t>>
    ensures reads { Beginning on_address (λ x. (x.0, x.1.now)) tokens.now result }
    ensures shorter { IfOk result (λ x. length x.1.now < length tokens.now) }
{
    let Some((_, rest)) = mark(Mark::OpenParen, tokens) else {
        return Err(Stop::At(tokens));
    };
    let Some((_, rest)) = mark(Mark::Ampersand, rest) else {
        return Err(Stop::At(rest));
    };
    wanted_name(alloc, &[], rest)
}

// A mutex, in parentheses.
fn mutex<'t>(alloc: Global, tokens: &'t [Token]) -> Result<(Name, &'t [Token]), Stop<'t>>
    ensures reads { Beginning on_mutex (λ x. (x.0, x.1.now)) tokens.now result }
    ensures shorter { IfOk result (λ x. length x.1.now < length tokens.now) }
{
    let (name, rest) = address(alloc, tokens)?;
    let Some((_, rest)) = mark(Mark::CloseParen, rest) else {
        return Err(Stop::At(rest));
    };
    Ok((name, rest))
}

// One expression, in parentheses.
fn only<'t>(alloc: Global, tokens: &'t [Token]) -> Result<(Exp, &'t [Token]), Stop<'t>>
    ensures reads { Beginning on_one (λ x. (x.0, x.1.now)) tokens.now result }
    ensures shorter { IfOk result (λ x. length x.1.now < length tokens.now) }
{
    let Some((_, rest)) = mark(Mark::OpenParen, tokens) else {
        return Err(Stop::At(tokens));
    };
    let (a, rest) = expression(alloc, &[], rest)?;
    let Some((_, rest)) = mark(Mark::CloseParen, rest) else {
        return Err(Stop::At(rest));
    };
    Ok((a.exp, rest))
}

// A `,` and `NULL`.
fn null(tokens: &[Token]) -> Result<&[Token], Stop<'_>>
    ensures reads { Beginning on_null (λ x. (tt, x.now)) tokens.now result }
    ensures shorter { IfOk result (λ x. length x.now < length tokens.now) }
{
    let Some((_, rest)) = mark(Mark::Comma, tokens) else {
        return Err(Stop::At(tokens));
    };
    let Some((_, rest)) = word(b"NULL", rest) else {
        return Err(Stop::At(rest));
    };
    Ok(rest)
}

// The function and its argument of a `pthread_create`.
fn started<'t>(
    alloc: Global,
    thread: Name,
    tokens: &'t [Token],
) -> Result<(Library, &'t [Token]), Stop<'t>>
    ensures reads { Called (λ cs p. on_started thread cs p) tokens.now result }
    ensures shorter { IfOk result (λ x. length x.1.now < length tokens.now) }
{
    let (function, rest) = wanted_name(alloc, &[], tokens)?;
    let Some((_, rest)) = mark(Mark::Comma, rest) else {
        return Err(Stop::At(rest));
    };
    let (argument, rest) = expression(alloc, &[], rest)?;
    let Some((_, rest)) = mark(Mark::CloseParen, rest) else {
        return Err(Stop::At(rest));
    };
    Ok((Library::Create(thread, function, argument.exp), rest))
}

// Behind the word `pthread_create`.
fn create<'t>(alloc: Global, tokens: &'t [Token]) -> Result<(Library, &'t [Token]), Stop<'t>>
    ensures reads { Called behind_create tokens.now result }
    ensures shorter { IfOk result (λ x. length x.1.now < length tokens.now) }
{
    let (thread, rest) = address(alloc, tokens)?;
    let rest = null(rest)?;
    let Some((_, rest)) = mark(Mark::Comma, rest) else {
        return Err(Stop::At(rest));
    };
    started(alloc, thread, rest)
}

// Behind the word `pthread_join`.
fn join<'t>(alloc: Global, tokens: &'t [Token]) -> Result<(Library, &'t [Token]), Stop<'t>>
    ensures reads { Called behind_join tokens.now result }
    ensures shorter { IfOk result (λ x. length x.1.now < length tokens.now) }
{
    let Some((_, rest)) = mark(Mark::OpenParen, tokens) else {
        return Err(Stop::At(tokens));
    };
    let (thread, rest) = expression(alloc, &[], rest)?;
    let rest = null(rest)?;
    let Some((_, rest)) = mark(Mark::CloseParen, rest) else {
        return Err(Stop::At(rest));
    };
    Ok((Library::Join(thread.exp), rest))
}

// Behind the word `printf`.
fn print<'t>(alloc: Global, tokens: &'t [Token]) -> Result<(Library, &'t [Token]), Stop<'t>>
    ensures reads { Called behind_print tokens.now result }
    ensures shorter { IfOk result (λ x. length x.1.now < length tokens.now) }
{
    let Some((_, rest)) = mark(Mark::OpenParen, tokens) else {
        return Err(Stop::At(tokens));
    };
    let Some((pos, text, after)) = string(rest) else {
        return Err(Stop::At(rest));
    };
    let count = Count {
        of: Counted::StringBytes,
        number: text.as_slice().len(),
    };
    if let Some(limit) = exceeded(&[count], None) {
        return Err(Stop::Over(limit, rest));
    }
    let (arguments, rest) = print_arguments(alloc, after)?;
    let format = named(alloc, pos, text)?;
    Ok((Library::Print(format.pos, format.text, arguments), rest))
}

/// A word that calls the library as a statement.
#[derive(Clone, Copy, Debug, PartialEq, Eq)]
pub enum LibraryWord {
    Lock,
    Unlock,
    Create,
    Join,
    Free,
    Assert,
    Print,
}

/// A word that calls the library as a statement, and its place.
pub fn library_word(tokens: &[Token]) -> Option<(LibraryWord, Pos, &[Token])>
    ensures { MatchOption result (LacksCalls tokens.now) (λ x. Takes (The_word (spelled x.0)) tokens.now x.1 tt x.2.now) }
{
    if let Some((pos, rest)) = word(b"pthread_mutex_lock", tokens) {
        return Some((LibraryWord::Lock, pos, rest));
    }
    if let Some((pos, rest)) = word(b"pthread_mutex_unlock", tokens) {
        return Some((LibraryWord::Unlock, pos, rest));
    }
    if let Some((pos, rest)) = word(b"pthread_create", tokens) {
        return Some((LibraryWord::Create, pos, rest));
    }
    if let Some((pos, rest)) = word(b"pthread_join", tokens) {
        return Some((LibraryWord::Join, pos, rest));
    }
    if let Some((pos, rest)) = word(b"free", tokens) {
        return Some((LibraryWord::Free, pos, rest));
    }
    if let Some((pos, rest)) = word(b"assert", tokens) {
        return Some((LibraryWord::Assert, pos, rest));
    }
    let (pos, rest) = word(b"printf", tokens)?;
    Some((LibraryWord::Print, pos, rest))
}

/// Behind a word that calls the library.
pub fn library<'t>(
    alloc: Global,
    word: LibraryWord,
    tokens: &'t [Token],
) -> Result<(Library, &'t [Token]), Stop<'t>>
    ensures reads { Called (behind_word word) tokens.now result }
    ensures shorter { IfOk result (λ x. length x.1.now < length tokens.now) }
{
    match word {
        LibraryWord::Lock => {
            let (name, rest) = mutex(alloc, tokens)?;
            Ok((Library::Lock(name), rest))
        }
        LibraryWord::Unlock => {
            let (name, rest) = mutex(alloc, tokens)?;
            Ok((Library::Unlock(name), rest))
        }
        LibraryWord::Create => create(alloc, tokens),
        LibraryWord::Join => join(alloc, tokens),
        LibraryWord::Free => {
            let (a, rest) = only(alloc, tokens)?;
            Ok((Library::Free(a), rest))
        }
        LibraryWord::Assert => {
            let (a, rest) = only(alloc, tokens)?;
            Ok((Library::Assert(a), rest))
        }
        LibraryWord::Print => print(alloc, tokens),
    }
}
