//! The types of a program: its typed tree, or its first fault.
#![tactic(auto)]

mod check;
mod definitions;
mod functions;
mod globals;
mod signatures;
mod structs;
mod tops;

pub use ca_model::{TypeFault, TypeKind};
pub use check::{TypeNo, check_types};
