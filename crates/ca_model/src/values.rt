//! Values and events.

use crate::lists::Gives;
use ca_tree::{FunId, MutexId, SiteId, Text};

/// The address of a cell: the number of its block, and its index there, which may lie outside the block.
#[derive(Clone, Copy, Debug, PartialEq, Eq)]
pub struct Addr {
    pub block: u32,
    pub offset: i32,
}

/// What a cell or a local holds. Null is the number 0.
#[derive(Clone, Copy, Debug, PartialEq, Eq)]
pub enum Value {
    Num(i32),
    Addr(Addr),
}

/// Why a run failed.
#[derive(Clone, Copy, Debug, PartialEq, Eq)]
pub enum FaultKind {
    /// An asserted value is 0 or null (C11 7.2.1.1).
    Assert,
    /// An address is null, in a dead block or outside its block (C11 6.5.3.2), or a `free` names no live block of the heap (C11 7.22.3.3).
    Pointer,
    /// A thread unlocks a mutex that it doesn't own (POSIX `pthread_mutex_unlock`).
    Mutex,
    /// A result outside 32 bits, or a zero divisor (C11 6.5).
    Arith,
    /// A cell's value doesn't fit the type that it is loaded at.
    Kind,
    /// A join of a number that no create gave, or a create of one thread too many.
    Thread,
}

/// A thing that a retry gives back.
#[derive(Clone, Copy, Debug, PartialEq, Eq)]
pub enum Given {
    Mutex(MutexId),
    Block(u32),
}

/// An entry of a trace: the thread that makes it, and what it does.
#[derive(Debug, PartialEq, Drop)]
pub struct Event {
    pub thread: u32,
    pub act: EventAct,
}

/// What an entry does.
#[derive(Debug, PartialEq, Drop)]
pub enum EventAct {
    Read { at: Addr, value: Value },
    Write { at: Addr, value: Value },
    Lock(MutexId),
    Unlock(MutexId),
    /// A `malloc` of so many cells, which gives null or the start of a new block.
    Malloc { cells: i64, at: Value },
    Free { at: Value },
    /// The bytes that a `printf` adds to the output.
    Print(Text),
    /// The number of the thread that is made.
    Create(u32),
    Join(u32),
    Call(FunId),
    Return(Value),
    /// A loop's condition is begun.
    Turn,
    /// The thread's first function returns.
    End,
    Fault(FaultKind),
    /// A hardened thread saves its frames.
    Save,
    /// A hardened thread goes back to its saved frames at a failing site, and gives these things back, the latest first.
    Retry { site: SiteId, gives: Gives },
}

/// How a run ends. The runner alone ends with the last two, at its limits of entries and of frames.
#[derive(Clone, Copy, Debug, PartialEq, Eq)]
pub enum Ending {
    Finished,
    Fault(FaultKind),
    Deadlock,
    Unended,
    Events,
    Frames,
}

impl Ending {
    ghost use Rattle.std.specs.Prelude.{◌≡◌};
    ghost use Rattle.ca_model.specs.Reports.{ending_text, ending_status};

    /// The word for it in a text.
    pub fn word(self) -> &'static str
        ensures { result.now ≡ ending_text self }
    {
        match self {
            Ending::Finished => "finished",
            Ending::Fault(_) => "fault",
            Ending::Deadlock => "deadlock",
            Ending::Unended => "unended",
            Ending::Events => "events",
            Ending::Frames => "frames",
        }
    }

    /// The status of the program after a run that ends so.
    pub fn status(self) -> u8
        ensures { result ≡ ending_status self }
    {
        match self {
            Ending::Finished => 0,
            Ending::Fault(_) => 1,
            Ending::Deadlock => 4,
            Ending::Unended | Ending::Events | Ending::Frames => 5,
        }
    }
}
