//! What stands at the front of a text.

ghost use Rattle.std.specs.Prelude.{◌≡◌, ◌≢◌, ◌<◌, ◌≤◌, ℕ, List, length, MatchOption, IfOk, slice_index};
ghost use Rattle.ca_tree.specs.Lexed.{is_apart};
ghost use Rattle.ca_lex.specs.Fronts.{IsFront};
ghost use Rattle.ca_lex.specs.Steps.{IsStep, IsTokenStep, BeginsToken};

use crate::front::{Front, goes_on_name, longest_front};
use crate::skipped::{Comment, comment_at, include_len, is_blank};
use crate::strings::{Quoted, string};
use ca_tree::{LexKind, Listed, NoMemory, Text, Word};
use std::alloc::Global;

/// What stands at the front of a text, and how many bytes it has.
#[derive(Drop)]
pub(crate) enum Step {
    Skipped { len: usize },
    Token { len: usize, word: Word },
    /// A fault, and how many bytes stand before its place.
    Wrong { at: usize, kind: LexKind },
}

// Whether a number may end where this follows.
fn is_apart(rest: &[u8]) -> bool
    ensures { result ≡ is_apart rest.now }
{
    match rest.first() {
        Some(byte) => !(goes_on_name(*byte) || *byte == b'.'),
        None => true,
    }
}

fn copied(alloc: Global, bytes: &[u8]) -> Result<Text, NoMemory>
    ensures { IfOk result (λ t. t ≡ bytes.now) }
{
    Ok(Listed::from_vec(Vec::from_slice(alloc, bytes)?))
}

// A blank, a comment or a dropped line at the front.
fn skipped(text: &[u8], fresh: bool) -> Option<Step>
    requires { 0 < length text.now }
    ensures { MatchOption result (BeginsToken fresh text.now) (λ s. IsStep fresh text.now s) }
{
    if is_blank(text[0]) {
        return Some(Step::Skipped { len: 1 });
    }
    match comment_at(text) {
        Comment::Open => return Some(Step::Wrong {
            at: 0,
            kind: LexKind::OpenComment,
        }),
        Comment::Ends { len } => return Some(Step::Skipped { len }),
        Comment::Absent => {}
    }
    if !fresh {
        return None;
    }
    let len = include_len(text)?;
    Some(Step::Skipped { len })
}

// The string at the front.
fn quoted(alloc: Global, text: &[u8]) -> Result<Step, NoMemory>
    requires { slice_index text.now 0 ≡ 34 }
    ensures { IfOk result (λ s. IsTokenStep text.now s) }
{
    match string(alloc, text)? {
        Quoted::Closed { len, bytes } => Ok(Step::Token {
            len,
            word: Word::Str(bytes),
        }),
        Quoted::Open => Ok(Step::Wrong {
            at: 0,
            kind: LexKind::OpenString,
        }),
        Quoted::Bad { at } => Ok(Step::Wrong {
            at,
            kind: LexKind::BadChar,
        }),
    }
}

// The number at the front.
fn number(text: &[u8], len: usize, value: Option<u32>) -> Step
    requires size { len ≤ length text.now }
    requires found { IsFront text.now (Front.Number len value) }
    ensures { IsTokenStep text.now result }
{
    let (_, rest) = text.split_at(len);
    if !is_apart(rest) {
        return Step::Wrong {
            at: 0,
            kind: LexKind::NumberForm,
        };
    }
    match value {
        Some(value) => Step::Token {
            len,
            word: Word::Number(value as i32),
        },
        None => Step::Wrong {
            at: 0,
            kind: LexKind::NumberTooLarge,
        },
    }
}

// The name, the number or the mark at the front.
fn unquoted(alloc: Global, text: &[u8]) -> Result<Step, NoMemory>
    requires some { 0 < length text.now }
    requires no_quote { slice_index text.now 0 ≢ 34 }
    ensures { IfOk result (λ s. IsTokenStep text.now s) }
{
    let Some(found) = longest_front(text) else {
        return Ok(Step::Wrong {
            at: 0,
            kind: LexKind::BadChar,
        });
    };
    match found {
        Front::Name { len } => {
            let name = copied(alloc, &text[..len])?;
            Ok(Step::Token {
                len,
                word: Word::Name(name),
            })
        }
        Front::Number { len, value } => Ok(number(text, len, value)),
        Front::Mark { len, mark } => Ok(Step::Token {
            len,
            word: Word::Mark(mark),
        }),
    }
}

/// What stands at the front of a text, where a line is dropped only if it is fresh.
pub(crate) fn next_step(alloc: Global, text: &[u8], fresh: bool) -> Result<Step, NoMemory>
    requires { 0 < length text.now }
    ensures { IfOk result (λ s. IsStep fresh text.now s) }
{
    if let Some(step) = skipped(text, fresh) {
        return Ok(step);
    }
    if text[0] == b'"' {
        return quoted(alloc, text);
    }
    unquoted(alloc, text)
}
