//! Laws of the trees that tokens spell: what tokens are as a program within the limits is one by its tree alone.
#![tactic(auto)]

mod laws;

pub use laws::{each_program_is_a_tree, each_program_of_a_text_is_written};
