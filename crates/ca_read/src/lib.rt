//! The reader: the tree that tokens are spelled from, or their first fault.
#![tactic(auto)]

mod faults;
mod functions;
mod globals;
mod reading;
mod structs;
mod tops;
mod totals;

pub use ca_grammar::{Counted, LeftOut, Operand, ReadFault, ReadKind};
pub use reading::{ReadNo, expression, program};
