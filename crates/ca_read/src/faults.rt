//! The fault of tokens with which no program goes on.

ghost use Rattle.std.specs.Prelude.{◌≡◌, ◌≤◌, ◌<◌, ◌++◌, List, length, Option, Some};
ghost use Rattle.ca_tree.specs.declared.token.Token.{Token};
ghost use Rattle.ca_grammar.specs.declared.faults.ReadKind.TheVariants.{Grammar, TooMany};
ghost use Rattle.ca_grammar.specs.Limits.{Rule, Star};
ghost use Rattle.ca_grammar.specs.Faults.{first, latest as latest_of, is_name, is_open_paren, before_parenthesis as before_parenthesis_of, or_first, place_of, kind_of, is_name_word as is_name_word_of, is_left_out_mark as is_left_out_mark_of, kind_at_mark as kind_at_mark_of, kind_at as kind_at_of};
ghost use Rattle.ca_read.specs.Places.{IsPosOf};

use ca_expressions::reserved::{is_left_out, is_reserved};
use ca_grammar::{Counted, LeftOut, ReadFault, ReadKind};
use ca_tree::{Mark, Pos, Token, Word};

// A mark of C that the grammar doesn't have, or an `&`.
fn is_left_out_mark(mark: Mark) -> bool
    ensures { result ≡ is_left_out_mark_of mark }
{
    match mark {
        Mark::Ampersand
        | Mark::Pipe
        | Mark::Caret
        | Mark::Tilde
        | Mark::ShiftLeft
        | Mark::ShiftRight
        | Mark::Question
        | Mark::Colon
        | Mark::ShiftLeftAssign
        | Mark::ShiftRightAssign
        | Mark::AmpersandAssign
        | Mark::PipeAssign
        | Mark::CaretAssign
        | Mark::Ellipsis => true,
        _ => false,
    }
}

fn is_name_word(word: &Word) -> bool
    ensures { result ≡ is_name_word_of word.now }
{
    match word {
        Word::Name(text) => !is_reserved(text.as_slice()),
        _ => false,
    }
}

fn kind_at_mark(behind_name: bool, mark: Mark) -> ReadKind
    ensures { result ≡ kind_at_mark_of behind_name mark }
{
    match mark {
        Mark::Hash => ReadKind::LeftOut(LeftOut::Preprocessor),
        Mark::OpenParen if behind_name => ReadKind::LeftOut(LeftOut::InnerCall),
        _ if is_left_out_mark(mark) => ReadKind::LeftOut(LeftOut::Operator),
        _ => ReadKind::Grammar,
    }
}

fn kind_at(behind_name: bool, word: &Word) -> ReadKind
    ensures { result ≡ kind_at_of behind_name word.now }
{
    match word {
        Word::Mark(mark) => kind_at_mark(behind_name, *mark),
        Word::Name(text) => if is_left_out(text.as_slice()) {
            ReadKind::LeftOut(LeftOut::Keyword)
        } else {
            ReadKind::Grammar
        },
        _ => ReadKind::Grammar,
    }
}

// The tokens before those that are left.
fn is_behind_name(tokens: &[Token], rest: &[Token]) -> bool
    requires { length rest.now ≤ length tokens.now }
    ensures { (front : List Token) → tokens.now ≡ front ++ rest.now → result ≡ is_name (latest_of front) }
{
    let front = &tokens[..tokens.len() - rest.len()];
    match front.last() {
        Some(token) => is_name_word(&token.word),
        None => false,
    }
}

/// The fault of tokens whose rest begins with the first token with which no text goes on.
pub(crate) fn unknown(tokens: &[Token], rest: &[Token]) -> ReadFault
    requires left { 0 < length rest.now }
    requires fits { length rest.now ≤ length tokens.now }
    ensures pos { (next : Token) → first rest.now ≡ Some next → result.pos ≡ next.pos }
    ensures kind { (front : List Token) (next : Token) → tokens.now ≡ front ++ rest.now → first rest.now ≡ Some next → result.kind ≡ kind_at_of (is_name (latest_of front)) next.word }
{
    let next = &rest[0];
    ReadFault {
        pos: next.pos,
        kind: kind_at(is_behind_name(tokens, rest), &next.word),
    }
}

// Whether tokens begin with a `(`.
fn begins_open(tokens: &[Token]) -> bool
    ensures { result ≡ is_open_paren (first tokens.now) }
{
    match tokens.first() {
        Some(token) => token.word == Word::Mark(Mark::OpenParen),
        None => false,
    }
}

// The place of the last token that a `(` follows directly.
fn before_parenthesis(tokens: &[Token]) -> Option<Pos>
    ensures { IsPosOf (before_parenthesis_of tokens.now) result }
{
    let mut found = None;
    let mut rest = tokens;
    'tokens: while let Some((token, more)) = rest.split_first() {
        if begins_open(more) {
            found = Some(token.pos);
        }
        rest = more;
    }
    found
}

// The place of the last token.
fn latest(tokens: &[Token]) -> Option<Pos>
    ensures { IsPosOf (latest_of tokens.now) result }
{
    match tokens.last() {
        Some(token) => Some(token.pos),
        None => None,
    }
}

// The place of a token before those that are left, or of the first of them.
fn or_next(found: Option<Pos>, rest: &[Token]) -> Pos
    requires { 0 < length rest.now }
    ensures { (u : Option Token) → IsPosOf u found → (place : Token) × (or_first u rest.now ≡ Some place) × (result ≡ place.pos) }
{
    match found {
        Some(pos) => pos,
        None => rest[0].pos,
    }
}

// Where the fault of an exceeded limit stands.
fn place(limit: Counted, tokens: &[Token], rest: &[Token]) -> Pos
    requires left { 0 < length rest.now }
    requires fits { length rest.now ≤ length tokens.now }
    ensures { (front : List Token) → tokens.now ≡ front ++ rest.now → (r : Rule) → kind_of r ≡ TooMany limit → (place : Token) × (place_of r front rest.now ≡ Some place) × (result ≡ place.pos) }
{
    let front = &tokens[..tokens.len() - rest.len()];
    match limit {
        Counted::Functions => or_next(before_parenthesis(front), rest),
        Counted::Globals | Counted::Structs => or_next(latest(front), rest),
        _ => rest[0].pos,
    }
}

/// The fault of tokens whose rest begins with the token at which a limit is found to be exceeded.
pub(crate) fn exceeding(limit: Counted, tokens: &[Token], rest: &[Token]) -> ReadFault
    requires left { 0 < length rest.now }
    requires fits { length rest.now ≤ length tokens.now }
    ensures place { (front : List Token) → tokens.now ≡ front ++ rest.now → (r : Rule) → kind_of r ≡ TooMany limit → (place : Token) × (place_of r front rest.now ≡ Some place) × (result.pos ≡ place.pos) }
    ensures kind { result.kind ≡ TooMany limit }
{
    ReadFault {
        pos: place(limit, tokens, rest),
        kind: ReadKind::TooMany(limit),
    }
}

/// The fault of tokens whose rest begins with the `(` of a function that gives a struct without a star.
pub(crate) fn starless(tokens: &[Token], rest: &[Token]) -> ReadFault
    requires left { 0 < length rest.now }
    requires fits { length rest.now ≤ length tokens.now }
    ensures place { (front : List Token) → tokens.now ≡ front ++ rest.now → (place : Token) × (place_of Star front rest.now ≡ Some place) × (result.pos ≡ place.pos) }
    ensures kind { result.kind ≡ Grammar }
{
    let front = &tokens[..tokens.len() - rest.len()];
    ReadFault {
        pos: or_next(latest(front), rest),
        kind: ReadKind::Grammar,
    }
}
