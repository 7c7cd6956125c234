//! The tokens of a text.

ghost use Rattle.std.specs.Prelude.{◌≡◌, ◌≤◌, ◌^◌, List, length, true, IfOk, IfErr, MatchResult, ◌⊎◌};
ghost use Rattle.ca_tree.specs.declared.token.Token.{Token};
ghost use Rattle.ca_tree.specs.declared.token.LexFault.{LexFault};
ghost use Rattle.ca_tree.specs.Places.{start};
ghost use Rattle.ca_tree.specs.Lexed.{HasTokens, HasFault, Lexed, Faulted, most_bytes};
ghost use Rattle.ca_lex.specs.Outcomes.{IfFault};

use crate::places::{fresh_after, place_after};
use crate::steps::{Step, next_step};
use ca_tree::{LexFault, LexKind, NoMemory, Pos, Token, Word};
use std::alloc::Global;
use std::str::from_utf8;
use thiserror::Error;

/// Why a text has no tokens.
#[derive(Debug, PartialEq, Drop, Error)]
pub enum LexNo {
    /// The first fault of the text.
    #[error("the text has no tokens")]
    Fault(LexFault),
    /// An allocation was refused.
    #[error("out of memory")]
    NoMemory,
}

const START: Pos = Pos { line: 1, column: 1 };

const MOST_BYTES: usize = 1_048_576;

// One turn at a time, from the front of the text to its end.
fn scan(alloc: Global, text: &[u8]) -> Result<Result<Vec<Token>, LexFault>, NoMemory>
    requires { length text.now ≤ most_bytes }
    ensures { IfOk result (λ r. MatchResult r (λ ts. Lexed true start text.now ts.items) (λ f. Faulted true start text.now f)) }
{
    let mut tokens = Vec::new(alloc);
    let mut place = START;
    let mut fresh = true;
    let mut rest = text;
    'turns: while !rest.is_empty() {
        match next_step(alloc, rest, fresh)? {
            Step::Skipped { len } => {
                let (front, more) = rest.split_at(len);
                fresh = fresh_after(fresh, front);
                place = place_after(place, front);
                rest = more;
            }
            Step::Token { len, word } => {
                tokens.push(Token { pos: place, word })?;
                let (front, more) = rest.split_at(len);
                fresh = false;
                place = place_after(place, front);
                rest = more;
            }
            Step::Wrong { at, kind } => {
                let (front, _) = rest.split_at(at);
                let pos = place_after(place, front);
                return Ok(Err(LexFault { pos, kind }));
            }
        }
    }
    tokens.push(Token {
        pos: place,
        word: Word::End,
    })?;
    Ok(Ok(tokens))
}

// The tokens or the first fault: the size is looked at first, then the characters.
fn tokens_or_fault(alloc: Global, text: &[u8]) -> Result<Result<Vec<Token>, LexFault>, NoMemory>
    ensures { IfOk result (λ r. MatchResult r (λ ts. HasTokens text.now ts.items) (λ f. HasFault text.now f)) }
{
    if text.len() > MOST_BYTES {
        return Ok(Err(LexFault {
            pos: START,
            kind: LexKind::TooLong,
        }));
    }
    if let Err(e) = from_utf8(text) {
        let (valid, _) = text.split_at(e.valid_up_to());
        let pos = place_after(START, valid);
        return Ok(Err(LexFault {
            pos,
            kind: LexKind::NotUtf8,
        }));
    }
    scan(alloc, text)
}

/// The tokens of a text, the end last, each with the place of its first character. A text is refused with its first
/// fault: more than 1,048,576 bytes, then the first byte that is no part of a character of UTF-8, then the first
/// thing that is neither a blank, a comment, a dropped line nor a token (C11 6.4).
pub fn tokens(alloc: Global, text: &[u8]) -> Result<Vec<Token>, LexNo>
    ensures tokens { IfOk result (λ ts. HasTokens text.now ts.items) }
    ensures fault { IfErr result (λ no. IfFault no (λ f. HasFault text.now f)) }
    ensures found { (ts : List Token) → HasTokens text.now ts → MatchResult result (λ found. found.items ≡ ts) (λ no. no ≡ LexNo.NoMemory) }
    ensures refused { (f : LexFault) → HasFault text.now f → MatchResult result (λ found. ⊥) (λ no. (no ≡ LexNo.Fault f) ⊎ (no ≡ LexNo.NoMemory)) }
{
    match tokens_or_fault(alloc, text) {
        Ok(Ok(found)) => Ok(found),
        Ok(Err(fault)) => Err(LexNo::Fault(fault)),
        Err(NoMemory) => Err(LexNo::NoMemory),
    }
}
