//! Steps over one token: its place, what it tells, and the tokens behind it.

ghost use Rattle.std.specs.Prelude.{◌≡◌, ◌≤ℤ◌, pos, ◌∷◌, [], IfSome, MatchOption};
ghost use Rattle.ca_grammar.specs.Words.{The_mark, The_word, A_number, A_string, A_name, A_name_of_the_source, A_unary_operator, A_binary_operator, An_update_operator, A_step_operator, The_end, Takes, Lacks};
ghost use Rattle.ca_grammar.specs.Words.{unary_operator as unary_operator_of, binary_operator as binary_operator_of, level as level_of, update_operator as update_operator_of, step_operator as step_operator_of};

use crate::reserved::{is_library_word, is_reserved};
use ca_tree::tree::{BinaryOp, UnaryOp, UpdateOp};
use ca_tree::{Mark, Pos, Text, Token, Word};

/// This mark.
pub fn mark(mark: Mark, tokens: &[Token]) -> Option<(Pos, &[Token])>
    ensures { MatchOption result (Lacks (The_mark mark) tokens.now) (λ x. Takes (The_mark mark) tokens.now x.0 tt x.1.now) }
{
    let (token, rest) = tokens.split_first()?;
    match &token.word {
        Word::Mark(found) => if *found == mark {
            Some((token.pos, rest))
        } else {
            None
        },
        _ => None,
    }
}

/// This keyword, or another word that is spelled so.
pub fn word<'t>(text: &[u8], tokens: &'t [Token]) -> Option<(Pos, &'t [Token])>
    ensures { MatchOption result (Lacks (The_word text.now) tokens.now) (λ x. Takes (The_word text.now) tokens.now x.0 tt x.1.now) }
{
    let (token, rest) = tokens.split_first()?;
    match &token.word {
        Word::Name(found) => if found.as_slice() == text {
            Some((token.pos, rest))
        } else {
            None
        },
        _ => None,
    }
}

/// A number, with its value.
pub fn number(tokens: &[Token]) -> Option<(Pos, i32, &[Token])>
    ensures takes { MatchOption result (Lacks A_number tokens.now) (λ x. Takes A_number tokens.now x.0 x.1 x.2.now) }
    ensures natural { IfSome result (λ x. pos 0 ≤ℤ x.1) }
{
    let (token, rest) = tokens.split_first()?;
    match &token.word {
        Word::Number(value) => if *value >= 0 {
            Some((token.pos, *value, rest))
        } else {
            None
        },
        _ => None,
    }
}

/// A string, with its bytes.
pub fn string(tokens: &[Token]) -> Option<(Pos, &Text, &[Token])>
    ensures { MatchOption result (Lacks A_string tokens.now) (λ x. Takes A_string tokens.now x.0 x.1.now x.2.now) }
{
    let (token, rest) = tokens.split_first()?;
    match &token.word {
        Word::Str(text) => Some((token.pos, text, rest)),
        _ => None,
    }
}

/// A name that is not reserved.
pub fn name(tokens: &[Token]) -> Option<(Pos, &Text, &[Token])>
    ensures { MatchOption result (Lacks A_name tokens.now) (λ x. Takes A_name tokens.now x.0 x.1.now x.2.now) }
{
    let (token, rest) = tokens.split_first()?;
    match &token.word {
        Word::Name(text) => if is_reserved(text.as_slice()) {
            None
        } else {
            Some((token.pos, text, rest))
        },
        _ => None,
    }
}

/// A name that is not reserved and calls no function of the library.
pub fn name_of_the_source(tokens: &[Token]) -> Option<(Pos, &Text, &[Token])>
    ensures { MatchOption result (Lacks A_name_of_the_source tokens.now) (λ x. Takes A_name_of_the_source tokens.now x.0 x.1.now x.2.now) }
{
    let (token, rest) = tokens.split_first()?;
    match &token.word {
        Word::Name(text) => if is_reserved(text.as_slice()) || is_library_word(text.as_slice()) {
            None
        } else {
            Some((token.pos, text, rest))
        },
        _ => None,
    }
}

fn unary_operator_of(word: &Word) -> Option<UnaryOp>
    ensures { result ≡ unary_operator_of word.now }
{
    match word {
        Word::Mark(Mark::Minus) => Some(UnaryOp::Negate),
        Word::Mark(Mark::Not) => Some(UnaryOp::Not),
        Word::Mark(Mark::Star) => Some(UnaryOp::Deref),
        Word::Mark(Mark::Ampersand) => Some(UnaryOp::AddressOf),
        _ => None,
    }
}

/// An operator of one operand.
pub fn unary_operator(tokens: &[Token]) -> Option<(Pos, UnaryOp, &[Token])>
    ensures { MatchOption result (Lacks A_unary_operator tokens.now) (λ x. Takes A_unary_operator tokens.now x.0 x.1 x.2.now) }
{
    let (token, rest) = tokens.split_first()?;
    let operator = unary_operator_of(&token.word)?;
    Some((token.pos, operator, rest))
}

fn binary_operator_of(word: &Word) -> Option<BinaryOp>
    ensures { result ≡ binary_operator_of word.now }
{
    match word {
        Word::Mark(Mark::Star) => Some(BinaryOp::Mul),
        Word::Mark(Mark::Slash) => Some(BinaryOp::Div),
        Word::Mark(Mark::Percent) => Some(BinaryOp::Rem),
        Word::Mark(Mark::Plus) => Some(BinaryOp::Add),
        Word::Mark(Mark::Minus) => Some(BinaryOp::Sub),
        Word::Mark(Mark::Less) => Some(BinaryOp::Less),
        Word::Mark(Mark::More) => Some(BinaryOp::More),
        Word::Mark(Mark::LessSame) => Some(BinaryOp::LessSame),
        Word::Mark(Mark::MoreSame) => Some(BinaryOp::MoreSame),
        Word::Mark(Mark::Same) => Some(BinaryOp::Same),
        Word::Mark(Mark::Differs) => Some(BinaryOp::Differs),
        Word::Mark(Mark::And) => Some(BinaryOp::And),
        Word::Mark(Mark::Or) => Some(BinaryOp::Or),
        _ => None,
    }
}

// Products bind tightest, then sums, orders, equalities, `&&` and `||`.
fn level_of(operator: BinaryOp) -> u32
    ensures { result ≡ level_of operator }
{
    match operator {
        BinaryOp::Mul | BinaryOp::Div | BinaryOp::Rem => 1,
        BinaryOp::Add | BinaryOp::Sub => 2,
        BinaryOp::Less | BinaryOp::More | BinaryOp::LessSame | BinaryOp::MoreSame => 3,
        BinaryOp::Same | BinaryOp::Differs => 4,
        BinaryOp::And => 5,
        BinaryOp::Or => 6,
    }
}

/// An operator of two operands, of this level.
pub fn binary_operator(level: u32, tokens: &[Token]) -> Option<(Pos, BinaryOp, &[Token])>
    ensures { MatchOption result (Lacks (A_binary_operator level) tokens.now) (λ x. Takes (A_binary_operator level) tokens.now x.0 x.1 x.2.now) }
{
    let (token, rest) = tokens.split_first()?;
    let operator = binary_operator_of(&token.word)?;
    if level_of(operator) == level {
        Some((token.pos, operator, rest))
    } else {
        None
    }
}

fn update_operator_of(word: &Word) -> Option<UpdateOp>
    ensures { result ≡ update_operator_of word.now }
{
    match word {
        Word::Mark(Mark::PlusAssign) => Some(UpdateOp::Add),
        Word::Mark(Mark::MinusAssign) => Some(UpdateOp::Sub),
        Word::Mark(Mark::StarAssign) => Some(UpdateOp::Mul),
        Word::Mark(Mark::SlashAssign) => Some(UpdateOp::Div),
        Word::Mark(Mark::PercentAssign) => Some(UpdateOp::Rem),
        _ => None,
    }
}

/// An operator of an assignment that reads its target first.
pub fn update_operator(tokens: &[Token]) -> Option<(Pos, UpdateOp, &[Token])>
    ensures { MatchOption result (Lacks An_update_operator tokens.now) (λ x. Takes An_update_operator tokens.now x.0 x.1 x.2.now) }
{
    let (token, rest) = tokens.split_first()?;
    let operator = update_operator_of(&token.word)?;
    Some((token.pos, operator, rest))
}

fn step_operator_of(word: &Word) -> Option<UpdateOp>
    ensures { result ≡ step_operator_of word.now }
{
    match word {
        Word::Mark(Mark::Increment) => Some(UpdateOp::Add),
        Word::Mark(Mark::Decrement) => Some(UpdateOp::Sub),
        _ => None,
    }
}

/// `++` or `--`.
pub fn step_operator(tokens: &[Token]) -> Option<(Pos, UpdateOp, &[Token])>
    ensures { MatchOption result (Lacks A_step_operator tokens.now) (λ x. Takes A_step_operator tokens.now x.0 x.1 x.2.now) }
{
    let (token, rest) = tokens.split_first()?;
    let operator = step_operator_of(&token.word)?;
    Some((token.pos, operator, rest))
}

/// The end of the text.
pub fn end(tokens: &[Token]) -> Option<(Pos, &[Token])>
    ensures { MatchOption result (Lacks The_end tokens.now) (λ x. Takes The_end tokens.now x.0 tt x.1.now) }
{
    let (token, rest) = tokens.split_first()?;
    match &token.word {
        Word::End => Some((token.pos, rest)),
        _ => None,
    }
}
