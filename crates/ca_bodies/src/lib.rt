//! Statements: what assignments, calls and calls of the library are, with their typed items, and exactly their faults.
#![tactic(auto)]

mod calls;
mod formats;
mod functions;
mod library_calls;
mod right_sides;
mod simple_statements;
mod targets;

pub use calls::{call, called};
pub use functions::{FunctionEntry, Functions, Signature};
pub use library_calls::{is_void_pointer, library_call, only_void_pointer};
pub use right_sides::{both_same, cells_of, right_side, type_in};
pub use simple_statements::simple_statement;
pub use targets::{Aim, aim_at};
