//! Why tokens are no program.

use ca_tree::{Counted, Pos};

/// A part of C that this grammar leaves out.
#[derive(Clone, Copy, Debug, PartialEq, Eq)]
pub enum LeftOut {
    /// A `#` that is no dropped `#include` line.
    Preprocessor,
    /// A keyword of C11 that the grammar doesn't have.
    Keyword,
    /// A `(` directly behind a name: a call inside an expression.
    InnerCall,
    /// A mark of C that the grammar doesn't have, or an `&` where none may stand.
    Operator,
}

/// Why no program goes on with a token.
#[derive(Clone, Copy, Debug, PartialEq, Eq)]
pub enum ReadKind {
    Grammar,
    LeftOut(LeftOut),
    /// A limit is exceeded.
    TooMany(Counted),
}

/// The first fault of tokens that are no program, and its place.
#[derive(Clone, Copy, Debug, PartialEq, Eq)]
pub struct ReadFault {
    pub pos: Pos,
    pub kind: ReadKind,
}

/// A thing that is counted at a token: the how many-th it is, or its size.
#[derive(Clone, Copy, Debug, PartialEq, Eq)]
pub struct Count {
    pub of: Counted,
    pub number: usize,
}
