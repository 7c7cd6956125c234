//! What the tokens of a program are: the grammar, its limits, and the fault of a text that is no program.
#![tactic(auto)]

mod faults;
mod laws;
mod operand;

pub use ca_tree::Counted;
pub use faults::{Count, LeftOut, ReadFault, ReadKind};
pub use laws::{
    a_program_has_one_fault, an_expression_has_one_fault, each_expression_is_spelled,
    each_program_is_spelled, the_end_stands_last, tokens_spell_one_expression,
    tokens_spell_one_program,
};
pub use operand::Operand;
