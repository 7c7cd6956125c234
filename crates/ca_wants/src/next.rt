//! The action that a thread stands at.

use ca_model::{FaultKind, LoadKind, Value};
use ca_tree::{FunId, MutexId, SiteId};

/// The action that a thread stands at. A displacement is in cells.
#[derive(Clone, Copy, Debug, PartialEq, Eq)]
pub enum Next<'a> {
    Read { at: Value, by: i64, kind: LoadKind },
    Write { at: Value, by: i64, value: Value },
    Lock(MutexId),
    Unlock(MutexId),
    Malloc { cells: i64 },
    Free { at: Value },
    Print(&'a [u8]),
    Create { function: FunId, argument: Value },
    /// A join of a thread by its number.
    Join(i32),
    Call(FunId),
    Return(Value),
    /// A loop's condition is begun.
    Turn,
    /// The first function of the thread returns.
    End,
    /// A result outside of its range, or an assertion that is false where no retry may come.
    Fault(FaultKind),
    Save,
    /// An assertion that is false, where a retry may come.
    Retry(SiteId),
    /// The thread has ended, or failed.
    Ended,
}
