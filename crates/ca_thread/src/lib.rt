//! The private state of a thread.
#![tactic(auto)]

mod answers;
mod changes;
mod entries;
mod frames;
mod gives;
mod moves;
mod next;
mod own;
mod private;
mod saved;
mod silent;
mod stack;
mod text;
mod top;

pub use ca_wants::Next;
pub use changes::AdvanceNo;
pub use entries::copy_event;
pub use private::{Private, private_states_cross_threads};
