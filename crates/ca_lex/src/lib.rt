//! The tokens of a text, by longest match, or its first fault.
#![tactic(auto)]

mod front;
mod laws;
mod places;
mod scanner;
mod skipped;
#[cfg(test)]
mod skipped_tests;
mod steps;
mod strings;
#[cfg(test)]
mod strings_tests;

pub use ca_tree::{LexFault, LexKind, Mark, Token, Word};
pub use laws::{
    a_text_is_lexed_once, blanks_change_places_alone, every_text_has_tokens_or_a_fault,
};
pub use scanner::{LexNo, tokens};

#[cfg(test)]
mod tests;
