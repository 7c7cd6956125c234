//! Texts, places in a text, tokens, the tree of a program as it is read, the numbers of the things of a source, and the
//! answer for want of memory.
#![tactic(auto)]

mod counted;
pub mod listed;
mod no_memory;
mod numbers;
mod text;
mod token;
pub mod tree;

pub use counted::Counted;
pub use listed::Listed;
pub use no_memory::NoMemory;
pub use numbers::{FunId, GlobalId, ItemId, MutexId, SiteId, StructId, VarId};
pub use text::{Pos, Text};
pub use token::{LexFault, LexKind, Mark, Token, Word};
