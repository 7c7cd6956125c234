//! Readers of whole texts.

ghost use Rattle.std.specs.Prelude.{◌≡◌, ◌⊎◌, List, IfOk, IfErr, MatchResult};
ghost use Rattle.ca_tree.specs.declared.token.Token.{Token};
ghost use Rattle.ca_grammar.specs.declared.faults.ReadFault.{ReadFault};
ghost use Rattle.ca_grammar.specs.declared.operand.Operand.{Operand};
ghost use Rattle.ca_tree.specs.declared.tree.Program.{Program};
ghost use Rattle.ca_grammar.specs.Declarations.{IsProgram};
ghost use Rattle.ca_grammar.specs.Texts.{IsExpression, AnExpression, AProgram, EndsOnce};
ghost use Rattle.ca_grammar.specs.Faults.{IsFault};
ghost use Rattle.ca_grammar.specs.Laws.{all_kept};
ghost use Rattle.ca_read.specs.Outcomes.{IfFault, IsLeft, IsRefusal};

use crate::faults::{exceeding, starless, unknown};
use crate::tops;
use ca_expressions::expressions::whole;
use ca_expressions::stop::Stop;
use ca_grammar::{Operand, ReadFault};
use ca_tree::Token;
use ca_tree::tree::Program;
use std::alloc::Global;
use thiserror::Error;

/// Why tokens are not read.
#[derive(Debug, PartialEq, Drop, Error)]
pub enum ReadNo {
    /// The first fault of the tokens.
    #[error("the tokens are no program")]
    Fault(ReadFault),
    /// An allocation was refused.
    #[error("out of memory")]
    NoMemory,
}

// The refusal of tokens at which a reader stopped.
fn refusal(tokens: &[Token], stop: Stop) -> ReadNo
    requires { IsLeft tokens.now stop }
    ensures { IsRefusal tokens.now stop.entry result }
{
    match stop {
        Stop::At(rest) => ReadNo::Fault(unknown(tokens, rest)),
        Stop::Over(limit, rest) => ReadNo::Fault(exceeding(limit, tokens, rest)),
        Stop::Starless(rest) => ReadNo::Fault(starless(tokens, rest)),
        Stop::NoMemory => ReadNo::NoMemory,
    }
}

/// The expression that these tokens are, with the end behind it, last and only there. Tokens that are none within the
/// limits are refused with their first fault: it stands at the first token with which no expression goes on, its kind
/// the first that fits of what the grammar leaves out; or with which each one that goes on exceeds a limit
/// (C11 6.5).
pub fn expression(alloc: Global, tokens: &[Token]) -> Result<Operand, ReadNo>
    requires { EndsOnce tokens.now }
    ensures spelled { IfOk result (λ a. IsExpression all_kept a tokens.now) }
    ensures fault { IfErr result (λ no. IfFault no (λ f. IsFault AnExpression tokens.now f)) }
    ensures found { (a : Operand) → IsExpression all_kept a tokens.now → MatchResult result (λ b. b ≡ a) (λ no. no ≡ ReadNo.NoMemory) }
    ensures refused { (f : ReadFault) → IsFault AnExpression tokens.now f → MatchResult result (λ a. ⊥) (λ no. (no ≡ ReadNo.Fault f) ⊎ (no ≡ ReadNo.NoMemory)) }
{
    match whole(alloc, tokens) {
        Ok((found, _)) => Ok(found),
        Err(stop) => Err(refusal(tokens, stop)),
    }
}

/// The program that these tokens are, with the end behind it, last and only there (C11 6.9). Tokens that are none within
/// the limits are refused with their first fault. It stands at the first token with which no program goes on, its kind
/// the first that fits of what the grammar leaves out; or where a limit is found to be exceeded by each program that
/// goes on with the next token: there, or at the name of the function, the global or the struct that is one too many.
/// The result of a function that is a struct without a star is a fault of the grammar at the function's name.
pub fn program(alloc: Global, tokens: &[Token]) -> Result<Program, ReadNo>
    requires { EndsOnce tokens.now }
    ensures spelled { IfOk result (λ a. IsProgram all_kept a tokens.now) }
    ensures fault { IfErr result (λ no. IfFault no (λ f. IsFault AProgram tokens.now f)) }
    ensures found { (a : Program) → IsProgram all_kept a tokens.now → MatchResult result (λ b. b ≡ a) (λ no. no ≡ ReadNo.NoMemory) }
    ensures refused { (f : ReadFault) → IsFault AProgram tokens.now f → MatchResult result (λ a. ⊥) (λ no. (no ≡ ReadNo.Fault f) ⊎ (no ≡ ReadNo.NoMemory)) }
{
    match tops::program(alloc, tokens) {
        Ok((program, _)) => Ok(program),
        Err(stop) => Err(refusal(tokens, stop)),
    }
}
