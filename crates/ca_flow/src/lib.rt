//! Graphs of instructions over registers, which of them destroy and which acquire, the links between items, and the code of a source under a plan.
#![tactic(auto)]

mod changes;
mod code;
mod graph;
mod instr;
mod kinds;
mod links;
mod main_function;
mod places;
mod rows;
mod searches;
mod uses;

pub use changes::ItemKind;
pub use code::{Code, code_crosses_threads};
pub use graph::Graph;
pub use instr::{AtSite, Instr, Links, Node, NodeId, Reg, Regs, Step};
pub use kinds::{is_acquiring, is_destroying};
pub use links::{Link, destroys, find_links};
pub use searches::{Points, Reason, Region};

#[cfg(test)]
mod tests;
