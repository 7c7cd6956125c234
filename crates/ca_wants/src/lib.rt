//! What a thread stands at, as the code names it, and which things a walk over what it took has met.
#![tactic(auto)]

mod met;
mod next;

pub use met::is_first;
pub use next::Next;
