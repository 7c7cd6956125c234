//! Texts, as what they are read and typed as.

use ca_lex::{LexNo, tokens};
use ca_model::Checked;
use ca_read::{Operand, ReadNo, expression, program};
use ca_shapes::each_program_of_a_text_is_written;
use ca_tree::tree::Program;
use ca_types::{TypeNo, check_types};
use std::alloc::{AllocError, Global};

/// What the tokens of a text are read as, as an expression.
#[tactic(auto, using(ca_grammar::proofs::LexedEnds::ends_once))]
pub fn read_expression(alloc: Global, text: &[u8]) -> Result<Result<Operand, ReadNo>, LexNo> {
    let found = tokens(alloc, text)?;
    Ok(expression(alloc, &found))
}

/// What the tokens of a text are read as, as a program.
#[tactic(auto, using(ca_grammar::proofs::LexedEnds::ends_once))]
pub fn read_program(alloc: Global, text: &[u8]) -> Result<Result<Program, ReadNo>, LexNo> {
    let found = tokens(alloc, text)?;
    Ok(program(alloc, &found))
}

/// The typing of a text, or its first fault as a program or of types, with its place.
#[tactic(auto, using(ca_grammar::proofs::LexedEnds::ends_once))]
pub fn typing(alloc: Global, text: &[u8]) -> Result<Result<Checked, String>, AllocError> {
    let found = match tokens(alloc, text) {
        Ok(found) => found,
        Err(LexNo::NoMemory) => return Err(AllocError),
        Err(LexNo::Fault(_)) => return Ok(Err(format!(in alloc; "no tokens")?)),
    };
    let tree = match program(alloc, &found) {
        Ok(tree) => tree,
        Err(ReadNo::NoMemory) => return Err(AllocError),
        Err(ReadNo::Fault(fault)) => {
            return Ok(Err(format!(in alloc;
                "{:?} {}:{}",
                fault.kind, fault.pos.line, fault.pos.column
            )?));
        }
    };
    each_program_of_a_text_is_written();
    match check_types(alloc, tree) {
        Ok(source) => Ok(Ok(source)),
        Err(TypeNo::NoMemory) => Err(AllocError),
        Err(TypeNo::Fault(fault)) => Ok(Err(format!(in alloc;
            "{:?} {}:{}",
            fault.kind, fault.pos.line, fault.pos.column
        )?)),
    }
}

/// Some bytes, others a number of times, and others again.
pub fn repeated(
    alloc: Global,
    front: &[u8],
    middle: &[u8],
    times: u32,
    back: &[u8],
) -> Result<Vec<u8>, AllocError> {
    let mut text = Vec::from_slice(alloc, front)?;
    for _ in 0..times {
        text.extend_from_slice(middle)?;
    }
    text.extend_from_slice(back)?;
    Ok(text)
}
