//! What the words of the commands mean: `run`, `check`, `sites`, `project` and `lift`, with all their options.
#![tactic(auto)]

mod key;
mod laws;
mod numbers;
mod options;
mod pieces;
mod words;

pub use key::Key;
pub use laws::words_have_one_meaning;
pub use words::{
    CheckWords, CommandWords, PlanWords, RunWords, RunnerWords, SitesWords, TraceWords, WordsNo,
    command_words,
};

#[cfg(test)]
mod tests;
