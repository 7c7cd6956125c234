//! Names, types and expressions: what an expression is, with its typed tree, and its first fault.
#![tactic(auto)]

mod expressions;
mod faults;
mod operators;
mod places;
mod scope;
mod type_names;
mod types;
mod uses;
mod values;

pub use expressions::{may_be_place, operand, place_of, unless_place};
pub use faults::Faults;
pub use scope::{FieldOf, LocalName, Scope};
pub use type_names::{note_type, written_type};
pub use types::{INT, THREAD, VOID, VOID_POINTER, held, is_void, same_object};
pub use uses::{value_in, value_is_wanted, value_or_zero};
pub use values::{TypedValue, fits, is_scalar, is_zero, pointer_fits, value_of};

#[cfg(test)]
mod tests;
